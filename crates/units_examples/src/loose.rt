//! A product of variables of two values without rules, of which each costs twice as much as the one before.

ghost use Rattle.std.specs.Prelude.{◌≤◌};

use pc_base::{NoMemory, Sequence};
use pc_diagram::{CostPair, Costs, Diagram, DiagramFault, RawDiagram};
use std::alloc::Global;

/// The diagram of so many variables, with one node in each layer.
pub fn loose_diagram(alloc: Global, variables: u32) -> Result<Diagram, DiagramFault>
    requires { variables ≤ 20 }
{
    let mut raw = RawDiagram {
        domains: Sequence::new(alloc),
        sizes: Sequence::from_slice(alloc, &[1])?,
        edges: Sequence::new(alloc),
    };
    for _ in 0..variables {
        raw.domains.push(2)?;
        raw.sizes.push(1)?;
        raw.edges
            .push(Sequence::from_slice(alloc, &[Some(0), Some(0)])?)?;
    }
    Diagram::check(alloc, raw)
}

/// The first value of a variable costs by the first cost, and the second as much by the second one.
pub fn loose_costs(alloc: Global, variables: u32) -> Result<Costs, NoMemory>
    requires { variables ≤ 20 }
{
    let mut costs = Costs::new(alloc);
    for variable in 0..variables {
        let cost = 1 << variable;
        let pairs = [
            CostPair {
                first: cost,
                second: 0,
            },
            CostPair {
                first: 0,
                second: cost,
            },
        ];
        costs.push(Sequence::from_slice(alloc, &pairs)?)?;
    }
    Ok(costs)
}
