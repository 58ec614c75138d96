//! Fronts that are brought forward.

ghost use Rattle.std.specs.Prelude.{◌≡◌, ◌≤◌, ◌<◌, [], None, length, slice_index_or, IfOk, OnOk};
ghost use Rattle.pc_diagram.specs.Choices.{AgreeBeside};
ghost use Rattle.pc_diagram.specs.NodePaths.{AreCostsOf, AreChoicesOf};
ghost use Rattle.pc_pareto.specs.declared.limits.TheConstants.{MOST_LABELS};
ghost use Rattle.pc_pareto.specs.Again.{WereFrontsOf};
ghost use Rattle.pc_pareto.specs.Fronts.{limit_at};
ghost use Rattle.pc_pareto.specs.FrontsView.{stages_of, distance_of, IsFrontsOf};
ghost use Rattle.units_fronts.specs.Nodes.{HaveNodes};

use crate::ends::fronts_of;
use anyhow::Result;
use pc_base::NoMemory;
use pc_diagram::{Choices, Costs, Diagram, Side, Steps, are_choices_of};
use pc_pareto::{FrontFault, Fronts};
use std::alloc::Global;
use std::sync::ledger::Ledger;

/// A line for each value of each variable: of how many nodes the fronts agree with those that are made anew, where the value is
/// chosen, and where that choice is taken back; from the root, and to the end.
pub fn tell_forward<L: Ledger>(
    rt: &HostRuntime,
    diagram: &Diagram,
    free: &Choices,
    costs: &Costs,
    steps: &mut Steps<L>,
) -> Result<()>
    requires costs { AreCostsOf diagram.now.domains costs.now }
    requires free { AreChoicesOf diagram.now.domains free.now }
{
    let domains = diagram.domains();
    for (variable, domain) in domains.iter().enumerate() {
        for value in 0..*domain {
            tell_value(rt, diagram, free, variable as u32, value, costs, steps)?;
        }
    }
    println!(rt; ".")?;
    Ok(())
}

/// The line of one value.
#[tactic(auto, using(crate::proofs::NodeLemmas::choice_steps))]
fn tell_value<L: Ledger>(
    rt: &HostRuntime,
    diagram: &Diagram,
    free: &Choices,
    variable: u32,
    value: u32,
    costs: &Costs,
    steps: &mut Steps<L>,
) -> Result<()>
    requires variable { variable < length diagram.now.domains }
    requires costs { AreCostsOf diagram.now.domains costs.now }
    requires free { AreChoicesOf diagram.now.domains free.now }
{
    if free.is_chosen(variable) {
        return Ok(());
    }
    let chosen = free.with(rt.alloc(), variable, value)?;
    if !are_choices_of(diagram.domains(), &chosen) {
        return Ok(());
    }
    print!(rt; "{variable} {value}:")?;
    tell_side(
        rt,
        Side::Heads,
        diagram,
        free,
        &chosen,
        variable,
        costs,
        steps,
    )?;
    tell_side(
        rt,
        Side::Tails,
        diagram,
        free,
        &chosen,
        variable,
        costs,
        steps,
    )?;
    println!(rt;)?;
    Ok(())
}

/// Of how many nodes the fronts of a side agree.
#[tactic(auto, using(crate::proofs::NodeLemmas::forward_steps))]
fn tell_side<L: Ledger>(
    rt: &HostRuntime,
    side: Side,
    diagram: &Diagram,
    free: &Choices,
    chosen: &Choices,
    variable: u32,
    costs: &Costs,
    steps: &mut Steps<L>,
) -> Result<()>
    requires variable { variable < length diagram.now.domains }
    requires costs { AreCostsOf diagram.now.domains costs.now }
    requires free { AreChoicesOf diagram.now.domains free.now }
    requires chosen { AreChoicesOf diagram.now.domains chosen.now }
    requires agree { AgreeBeside variable free.now chosen.now }
{
    let alloc = rt.alloc();
    let before = fronts_of(alloc, side, diagram, free, costs, steps)?;
    let after = fronts_of(alloc, side, diagram, chosen, costs, steps)?;
    let forward = fronts_again(
        alloc, side, &before, diagram, chosen, costs, variable, steps,
    )?;
    let back = fronts_again(alloc, side, &forward, diagram, free, costs, variable, steps)?;
    let there = agreeing(alloc, diagram, &forward, &after)?;
    let again = agreeing(alloc, diagram, &back, &before)?;
    print!(rt; " {side} {there} and {again}")?;
    Ok(())
}

/// The fronts of a side brought forward.
#[tactic(auto, using(crate::proofs::NodeLemmas::node_steps))]
fn fronts_again<L: Ledger>(
    alloc: Global,
    side: Side,
    fronts: &Fronts,
    diagram: &Diagram,
    choices: &Choices,
    costs: &Costs,
    variable: u32,
    steps: &mut Steps<L>,
) -> Result<Fronts, FrontFault>
    requires costs { AreCostsOf diagram.now.domains costs.now }
    requires choices { AreChoicesOf diagram.now.domains choices.now }
    requires variable { variable < length diagram.now.domains }
    requires made { WereFrontsOf side diagram.now costs.now choices.now variable fronts.now }
    ensures fronts { IfOk result (IsFrontsOf side diagram.now costs.now choices.now) }
    ensures within { OnOk result (limit_at MOST_LABELS side diagram.now costs.now choices.now ≡ None) }
    ensures nodes { IfOk result (HaveNodes diagram.now) }
{
    match side {
        Side::Heads => fronts.heads_again(alloc, diagram, choices, costs, variable, steps),
        Side::Tails => fronts.tails_again(alloc, diagram, choices, costs, variable, steps),
    }
}

/// Of how many nodes two fronts agree.
fn agreeing(
    alloc: Global,
    diagram: &Diagram,
    fronts: &Fronts,
    others: &Fronts,
) -> Result<u64, NoMemory>
    requires fronts { HaveNodes diagram.now fronts.now }
    requires others { HaveNodes diagram.now others.now }
{
    let mut count = 0u64;
    for layer in 0..diagram.domains().len() as u32 + 1 {
        for node in 0..diagram.nodes(layer) {
            if are_alike(alloc, fronts, others, layer, node)? {
                count = count.saturating_add(1);
            }
        }
    }
    Ok(count)
}

/// Whether the pairs of a node, and their paths, are equal in two fronts.
fn are_alike(
    alloc: Global,
    fronts: &Fronts,
    others: &Fronts,
    layer: u32,
    node: u32,
) -> Result<bool, NoMemory>
    requires layer { layer < length (stages_of fronts.now) }
    requires node { node < length (slice_index_or (stages_of fronts.now) (distance_of fronts.now layer) []) }
    requires other_layer { layer < length (stages_of others.now) }
    requires other_node { node < length (slice_index_or (stages_of others.now) (distance_of others.now layer) []) }
{
    let count = fronts.len(layer, node);
    if count != others.len(layer, node) {
        return Ok(false);
    }
    for place in 0..count {
        let path = fronts.path(alloc, layer, node, place)?;
        let other = others.path(alloc, layer, node, place)?;
        let same = fronts.pair(layer, node, place) == others.pair(layer, node, place);
        if !same || path.as_slice() != other.as_slice() {
            return Ok(false);
        }
    }
    Ok(true)
}
