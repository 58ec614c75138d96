//! A bare pass over the edges of a diagram.

ghost use Rattle.std.specs.Prelude.{◌<◌, length, slice_index};

use pc_base::NoMemory;
use pc_diagram::{Diagram, Steps, Weight};
use std::alloc::Global;
use std::sync::ledger::Ledger;

/// A weight for each node of the largest layer.
pub fn looks(alloc: Global, diagram: &Diagram) -> Result<Vec<Weight>, NoMemory> {
    let mut most = 0;
    for layer in 0..diagram.domains().len() as u32 + 1 {
        most = most.max(diagram.nodes(layer));
    }
    Ok(vec![in alloc; Weight::none(); most as usize]?)
}

/// Looks once at each edge, and at the weight of the node that it leads to.
pub fn bare_pass<L: Ledger>(diagram: &Diagram, looks: &[Weight], steps: &mut Steps<L>) -> u64 {
    let mut found = 0u64;
    for variable in 0..diagram.domains().len() as u32 {
        for node in 0..diagram.nodes(variable) {
            found = found.wrapping_add(bare_node(diagram, variable, node, looks, steps));
        }
    }
    found
}

/// The same for the edges of one node.
fn bare_node<L: Ledger>(
    diagram: &Diagram,
    variable: u32,
    node: u32,
    looks: &[Weight],
    steps: &mut Steps<L>,
) -> u64
    requires variable { variable < length diagram.now.domains }
    requires node { node < slice_index diagram.now.sizes variable }
{
    let mut found = 0u64;
    for value in 0..diagram.domains()[variable as usize] {
        if let Some(target) = diagram.edge(variable, node, value, steps) {
            if looks
                .get(target as usize)
                .is_some_and(|weight| weight.is_none())
            {
                found = found.wrapping_add(1);
            }
        }
    }
    found
}
