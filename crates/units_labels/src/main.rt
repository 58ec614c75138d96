//! Shows the labels of small diagrams from either end, and that labels brought forward are those that are made anew. Its
//! stored output was written by hand.
#![tactic(auto)]

ghost use Rattle.std.specs.Prelude.{◌≡◌, ◌<◌};
ghost use Rattle.pc_diagram.specs.NodePaths.{AreCostsOf};

mod forward;
mod labels;

use anyhow::Result;
use forward::tell_forward;
use labels::tell_both;
use pc_base::NoMemory;
use pc_diagram::{Choices, Costs, Diagram, DiagramFault, Steps, are_choices_of, are_costs_of};
use std::alloc::Global;
use std::marker::Brand;
use std::sync::ledger::{Blank, Ledger};
use units_examples::{bike_costs, bike_diagram, costs_of, tables_of};

fn main(rt: HostRuntime) -> Result<()> {
    tell_all::<Brand>(&rt, Blank::new(1))
}

/// Tells the labels of the bike, of bikes that all cost the same, and of a diagram whose nodes stand in another order than their
/// paths; and the labels of the bike that are brought forward.
fn tell_all<L: Ledger>(rt: &HostRuntime, blank: Blank) -> Result<()>
    requires name { blank.name ≡ L.name }
    requires parts { blank.parts ≡ L.parts }
    requires some { 0 < blank.parts }
{
    let mut steps = Steps::<L>::new(blank);
    tell_bikes(rt, &mut steps)?;
    tell_crossed(rt, &mut steps)
}

/// Tells the labels of the bike, with its costs and with equal ones.
fn tell_bikes<L: Ledger>(rt: &HostRuntime, steps: &mut Steps<L>) -> Result<()> {
    let bike = bike_diagram(rt.alloc())?;
    let costs = bike_costs(rt.alloc())?;
    tell_bike(rt, &bike, &costs, steps)?;
    let equal = equal_costs(rt.alloc())?;
    tell_open(rt, &bike, &equal, steps)
}

/// Tells the labels of the diagram whose nodes stand in another order than their paths.
fn tell_crossed<L: Ledger>(rt: &HostRuntime, steps: &mut Steps<L>) -> Result<()> {
    let diagram = crossed(rt.alloc())?;
    let costs = crossed_costs(rt.alloc())?;
    tell_open(rt, &diagram, &costs, steps)
}

/// Tells the labels of the bike without a choice and with carbon chosen, and those that are brought forward.
fn tell_bike<L: Ledger>(
    rt: &HostRuntime,
    bike: &Diagram,
    costs: &Costs,
    steps: &mut Steps<L>,
) -> Result<()> {
    let free = Choices::new(rt.alloc());
    if are_costs_of(bike.domains(), costs) && are_choices_of(bike.domains(), &free) {
        tell_both(rt, bike, &free, costs, steps)?;
        tell_carbon(rt, bike, &free, costs, steps)?;
        tell_forward(rt, bike, &free, costs, steps)?;
    }
    Ok(())
}

/// Tells the labels of the bike with carbon chosen.
fn tell_carbon<L: Ledger>(
    rt: &HostRuntime,
    bike: &Diagram,
    free: &Choices,
    costs: &Costs,
    steps: &mut Steps<L>,
) -> Result<()>
    requires { AreCostsOf bike.now.domains costs.now }
{
    if free.is_chosen(0) {
        return Ok(());
    }
    let carbon = free.with(rt.alloc(), 0, 2)?;
    tell_both(rt, bike, &carbon, costs, steps)
}

/// Tells the labels of a diagram without a choice.
fn tell_open<L: Ledger>(
    rt: &HostRuntime,
    diagram: &Diagram,
    costs: &Costs,
    steps: &mut Steps<L>,
) -> Result<()> {
    if are_costs_of(diagram.domains(), costs) {
        tell_both(rt, diagram, &Choices::new(rt.alloc()), costs, steps)?;
    }
    Ok(())
}

/// Costs with which all bikes cost the same.
fn equal_costs(alloc: Global) -> Result<Costs, NoMemory> {
    costs_of(
        alloc,
        &[
            &[(1, 1), (1, 1), (1, 1)],
            &[(1, 1), (1, 1)],
            &[(1, 1), (1, 1)],
        ],
    )
}

/// A diagram over three variables of two values. The first two being alike lead to the first node of layer 2.
fn crossed(alloc: Global) -> Result<Diagram, DiagramFault> {
    let raw = tables_of(
        alloc,
        &[2, 2, 2],
        &[1, 2, 2, 1],
        &[
            &[Some(0), Some(1)],
            &[Some(0), Some(1), Some(1), Some(0)],
            &[Some(0), Some(0), Some(0), None],
        ],
    )?;
    Diagram::check(alloc, raw)
}

/// Costs with which the second value of the second variable is cheaper: of the nodes of layer 2 the first one's path comes
/// after the second one's.
fn crossed_costs(alloc: Global) -> Result<Costs, NoMemory> {
    costs_of(
        alloc,
        &[&[(0, 0), (0, 0)], &[(1, 0), (0, 0)], &[(0, 0), (0, 0)]],
    )
}
