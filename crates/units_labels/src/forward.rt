//! Labels that are brought forward.

ghost use Rattle.std.specs.Prelude.{◌≤◌, ◌<◌, [], length, slice_index_or};
ghost use Rattle.pc_diagram.specs.Choices.{AgreeBeside};
ghost use Rattle.pc_diagram.specs.NodePaths.{AreCostsOf, AreChoicesOf};
ghost use Rattle.units_labels.specs.Nodes.{HaveNodes};

use anyhow::Result;
use pc_base::NoMemory;
use pc_diagram::{Choices, Costs, Diagram, Steps, are_choices_of};
use pc_labels::{Labels, heads, tails};
use std::alloc::Global;
use std::sync::ledger::Ledger;

/// A line for each value of each variable: of how many nodes the labels agree with those that are made anew, where the value is
/// chosen, and where that choice is taken back; from the root, and to the end.
pub fn tell_forward<L: Ledger>(
    rt: &HostRuntime,
    diagram: &Diagram,
    free: &Choices,
    costs: &Costs,
    steps: &mut Steps<L>,
) -> Result<()>
    requires costs { AreCostsOf diagram.now.domains costs.now }
    requires free { AreChoicesOf diagram.now.domains free.now }
{
    let domains = diagram.domains();
    for (variable, domain) in domains.iter().enumerate() {
        for value in 0..*domain {
            tell_value(rt, diagram, free, variable as u32, value, costs, steps)?;
        }
    }
    println!(rt; ".")?;
    Ok(())
}

/// The line of one value.
#[tactic(auto, using(crate::proofs::NodeLemmas::choice_steps))]
fn tell_value<L: Ledger>(
    rt: &HostRuntime,
    diagram: &Diagram,
    free: &Choices,
    variable: u32,
    value: u32,
    costs: &Costs,
    steps: &mut Steps<L>,
) -> Result<()>
    requires variable { variable < length diagram.now.domains }
    requires costs { AreCostsOf diagram.now.domains costs.now }
    requires free { AreChoicesOf diagram.now.domains free.now }
{
    if free.is_chosen(variable) {
        return Ok(());
    }
    let chosen = free.with(rt.alloc(), variable, value)?;
    if !are_choices_of(diagram.domains(), &chosen) {
        return Ok(());
    }
    print!(rt; "{variable} {value}:")?;
    tell_heads(rt, diagram, free, &chosen, variable, costs, steps)?;
    tell_tails(rt, diagram, free, &chosen, variable, costs, steps)?;
    println!(rt;)?;
    Ok(())
}

/// Of how many nodes the labels from the root agree.
#[tactic(auto, using(crate::proofs::NodeLemmas::forward_steps))]
fn tell_heads<L: Ledger>(
    rt: &HostRuntime,
    diagram: &Diagram,
    free: &Choices,
    chosen: &Choices,
    variable: u32,
    costs: &Costs,
    steps: &mut Steps<L>,
) -> Result<()>
    requires variable { variable < length diagram.now.domains }
    requires costs { AreCostsOf diagram.now.domains costs.now }
    requires free { AreChoicesOf diagram.now.domains free.now }
    requires chosen { AreChoicesOf diagram.now.domains chosen.now }
    requires agree { AgreeBeside variable free.now chosen.now }
{
    let alloc = rt.alloc();
    let before = heads(alloc, diagram, free, costs, steps)?;
    let after = heads(alloc, diagram, chosen, costs, steps)?;
    let forward = before.heads_again(alloc, diagram, chosen, costs, variable, steps)?;
    let back = forward.heads_again(alloc, diagram, free, costs, variable, steps)?;
    let there = agreeing(alloc, diagram, &forward, &after)?;
    let again = agreeing(alloc, diagram, &back, &before)?;
    print!(rt; " heads {there} and {again}")?;
    Ok(())
}

/// Of how many nodes the labels to the end agree.
#[tactic(auto, using(crate::proofs::NodeLemmas::forward_steps))]
fn tell_tails<L: Ledger>(
    rt: &HostRuntime,
    diagram: &Diagram,
    free: &Choices,
    chosen: &Choices,
    variable: u32,
    costs: &Costs,
    steps: &mut Steps<L>,
) -> Result<()>
    requires variable { variable < length diagram.now.domains }
    requires costs { AreCostsOf diagram.now.domains costs.now }
    requires free { AreChoicesOf diagram.now.domains free.now }
    requires chosen { AreChoicesOf diagram.now.domains chosen.now }
    requires agree { AgreeBeside variable free.now chosen.now }
{
    let alloc = rt.alloc();
    let before = tails(alloc, diagram, free, costs, steps)?;
    let after = tails(alloc, diagram, chosen, costs, steps)?;
    let forward = before.tails_again(alloc, diagram, chosen, costs, variable, steps)?;
    let back = forward.tails_again(alloc, diagram, free, costs, variable, steps)?;
    let there = agreeing(alloc, diagram, &forward, &after)?;
    let again = agreeing(alloc, diagram, &back, &before)?;
    print!(rt; " tails {there} and {again}")?;
    Ok(())
}

/// Of how many nodes two labels agree.
fn agreeing(
    alloc: Global,
    diagram: &Diagram,
    labels: &Labels,
    others: &Labels,
) -> Result<u64, NoMemory>
    requires labels { HaveNodes diagram.now labels.now }
    requires others { HaveNodes diagram.now others.now }
{
    let mut count = 0;
    for layer in 0..diagram.domains().len() as u32 + 1 {
        count += u64::from(agreeing_in(alloc, diagram, labels, others, layer)?);
    }
    Ok(count)
}

/// Of how many nodes of a layer.
fn agreeing_in(
    alloc: Global,
    diagram: &Diagram,
    labels: &Labels,
    others: &Labels,
    layer: u32,
) -> Result<u32, NoMemory>
    requires layer { layer ≤ length diagram.now.domains }
    requires labels { HaveNodes diagram.now labels.now }
    requires others { HaveNodes diagram.now others.now }
{
    let mut count = 0;
    for node in 0..diagram.nodes(layer) {
        if are_alike(alloc, labels, others, layer, node)? {
            count += 1;
        }
    }
    Ok(count)
}

/// Whether two labels of a node, and their paths, are equal, or it has neither.
fn are_alike(
    alloc: Global,
    labels: &Labels,
    others: &Labels,
    layer: u32,
    node: u32,
) -> Result<bool, NoMemory>
    requires layers { layer < length labels.now.layers }
    requires node { node < length (slice_index_or labels.now.layers layer []) }
    requires other_layers { layer < length others.now.layers }
    requires other_node { node < length (slice_index_or others.now.layers layer []) }
{
    let label = labels.at(layer, node);
    let other = others.at(layer, node);
    if label != other {
        return Ok(false);
    }
    if label.is_none() || other.is_none() {
        return Ok(true);
    }
    let path = labels.path(alloc, layer, node)?;
    let other_path = others.path(alloc, layer, node)?;
    Ok(path.as_slice() == other_path.as_slice())
}
