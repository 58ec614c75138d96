//! Least costs.

ghost use Rattle.pc_diagram.specs.NodePaths.{AreChoicesOf, AreCostsOf};

use anyhow::Result;
use pc_diagram::{Bounds, Choices, Costs, Diagram, Steps, Which};
use pc_domains::least;
use std::sync::ledger::Ledger;

/// A line with the least of each cost over the words within the bounds.
pub fn tell_leasts<L: Ledger>(
    rt: &HostRuntime,
    diagram: &Diagram,
    choices: &Choices,
    costs: &Costs,
    bounds: &Bounds,
    steps: &mut Steps<L>,
) -> Result<()>
    requires costs { AreCostsOf diagram.now.domains costs.now }
    requires choices { AreChoicesOf diagram.now.domains choices.now }
{
    let alloc = rt.alloc();
    let first = least(alloc, diagram, costs, choices, bounds, Which::First, steps)?;
    let second = least(alloc, diagram, costs, choices, bounds, Which::Second, steps)?;
    println!(rt; "least {first:?} {second:?}")?;
    Ok(())
}
