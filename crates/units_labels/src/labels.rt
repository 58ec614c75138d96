//! Labels as lines.

ghost use Rattle.std.specs.Prelude.{◌≤◌, ◌<◌, [], length, slice_index, slice_index_or, IsSome};
ghost use Rattle.pc_diagram.specs.NodePaths.{AreCostsOf};
ghost use Rattle.pc_labels.specs.Kept.{kept_at};
ghost use Rattle.units_labels.specs.Nodes.{HaveNodes};

use anyhow::Result;
use pc_diagram::{Choices, Costs, Diagram, Steps, are_choices_of};
use pc_labels::{Labels, heads, tails};
use std::sync::ledger::Ledger;

/// Tells the labels from the root and then those to the end.
#[tactic(auto, using(crate::proofs::NodeLemmas::node_steps))]
pub fn tell_both<L: Ledger>(
    rt: &HostRuntime,
    diagram: &Diagram,
    choices: &Choices,
    costs: &Costs,
    steps: &mut Steps<L>,
) -> Result<()>
    requires { AreCostsOf diagram.now.domains costs.now }
{
    if !are_choices_of(diagram.domains(), choices) {
        println!(rt; "choices of another diagram")?;
        return Ok(());
    }
    let heads = heads(rt.alloc(), diagram, choices, costs, steps)?;
    tell_labels(rt, diagram, &heads)?;
    let tails = tails(rt.alloc(), diagram, choices, costs, steps)?;
    tell_labels(rt, diagram, &tails)
}

/// A line for each node, layer by layer, and a line `.`.
fn tell_labels(rt: &HostRuntime, diagram: &Diagram, labels: &Labels) -> Result<()>
    requires { HaveNodes diagram.now labels.now }
{
    for layer in 0..diagram.domains().len() as u32 + 1 {
        let nodes = diagram.nodes(layer);
        for node in 0..nodes {
            tell_label(rt, labels, layer, node, nodes)?;
        }
    }
    println!(rt; ".")?;
    Ok(())
}

/// A node of a layer of so many nodes: its layer and number, and its label, the path, and how many nodes of the layer have a
/// path of a lesser rank; or that it has no path.
fn tell_label(rt: &HostRuntime, labels: &Labels, layer: u32, node: u32, nodes: u32) -> Result<()>
    requires layer { layer < length labels.now.layers }
    requires node { node < length (slice_index_or labels.now.layers layer []) }
    requires nodes { nodes ≤ length (slice_index_or labels.now.layers layer []) }
{
    let Some(label) = labels.at(layer, node) else {
        println!(rt; "{layer} {node}: none")?;
        return Ok(());
    };
    let path = labels.path(rt.alloc(), layer, node)?;
    let before = before(labels, layer, node, nodes);
    print!(rt; "{layer} {node}: {} {}", label.first, label.second)?;
    println!(rt; " {:?} after {before}", path.as_slice())?;
    Ok(())
}

/// How many of the first nodes of a layer have a path of a lesser rank than a node has.
fn before(labels: &Labels, layer: u32, node: u32, nodes: u32) -> u32
    requires layer { layer < length labels.now.layers }
    requires node { IsSome (kept_at labels.now layer node) }
    requires nodes { nodes ≤ length (slice_index_or labels.now.layers layer []) }
    ensures { result ≤ nodes }
{
    let rank = labels.rank(layer, node);
    let mut count = 0;
    for other in 0..nodes {
        if labels.at(layer, other).is_some() && labels.rank(layer, other) < rank {
            count += 1;
        }
    }
    count
}
