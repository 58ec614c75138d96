//! Fronts as lines.

ghost use Rattle.std.specs.Prelude.{◌≡◌, ◌≤◌, ◌<◌, [], None, OnOk, IfOk, length, slice_index_or};
ghost use Rattle.pc_diagram.specs.NodePaths.{AreCostsOf, AreChoicesOf};
ghost use Rattle.pc_pareto.specs.declared.limits.TheConstants.{MOST_LABELS};
ghost use Rattle.pc_pareto.specs.Fronts.{limit_at};
ghost use Rattle.pc_pareto.specs.FrontsView.{stages_of, distance_of, IsFrontsOf};
ghost use Rattle.units_fronts.specs.Nodes.{HaveNodes};

use anyhow::Result;
use pc_diagram::{Choices, Costs, Diagram, Side, Steps};
use pc_pareto::{FrontFault, Fronts, front_heads, front_tails};
use std::alloc::Global;
use std::sync::ledger::Ledger;

/// Tells, from either end, how many pairs each layer has, and the pairs of the node at the other end with their paths.
pub fn tell_ends<L: Ledger>(
    rt: &HostRuntime,
    diagram: &Diagram,
    choices: &Choices,
    costs: &Costs,
    steps: &mut Steps<L>,
) -> Result<()>
    requires costs { AreCostsOf diagram.now.domains costs.now }
    requires choices { AreChoicesOf diagram.now.domains choices.now }
{
    let variables = diagram.domains().len() as u32;
    let heads = fronts_of(rt.alloc(), Side::Heads, diagram, choices, costs, steps)?;
    tell_sizes(rt, diagram, &heads)?;
    tell_pairs(rt, diagram, &heads, variables)?;
    let tails = fronts_of(rt.alloc(), Side::Tails, diagram, choices, costs, steps)?;
    tell_sizes(rt, diagram, &tails)?;
    tell_pairs(rt, diagram, &tails, 0)
}

/// Tells how many pairs all layers have from either end, or the fault.
pub fn tell_totals<L: Ledger>(
    rt: &HostRuntime,
    diagram: &Diagram,
    choices: &Choices,
    costs: &Costs,
    steps: &mut Steps<L>,
) -> Result<()>
    requires costs { AreCostsOf diagram.now.domains costs.now }
    requires choices { AreChoicesOf diagram.now.domains choices.now }
{
    for side in [Side::Heads, Side::Tails] {
        match fronts_of(rt.alloc(), side, diagram, choices, costs, steps) {
            Ok(fronts) => println!(rt; "{side}: {}", total(diagram, &fronts))?,
            Err(fault) => println!(rt; "{fault}")?,
        }
    }
    Ok(())
}

/// The fronts of a side.
#[tactic(auto, using(crate::proofs::NodeLemmas::node_steps))]
pub fn fronts_of<L: Ledger>(
    alloc: Global,
    side: Side,
    diagram: &Diagram,
    choices: &Choices,
    costs: &Costs,
    steps: &mut Steps<L>,
) -> Result<Fronts, FrontFault>
    requires costs { AreCostsOf diagram.now.domains costs.now }
    requires choices { AreChoicesOf diagram.now.domains choices.now }
    ensures fronts { IfOk result (IsFrontsOf side diagram.now costs.now choices.now) }
    ensures within { OnOk result (limit_at MOST_LABELS side diagram.now costs.now choices.now ≡ None) }
    ensures nodes { IfOk result (HaveNodes diagram.now) }
{
    match side {
        Side::Heads => front_heads(alloc, diagram, choices, costs, steps),
        Side::Tails => front_tails(alloc, diagram, choices, costs, steps),
    }
}

/// A line of how many pairs each layer has, from the root on.
fn tell_sizes(rt: &HostRuntime, diagram: &Diagram, fronts: &Fronts) -> Result<()>
    requires { HaveNodes diagram.now fronts.now }
{
    print!(rt; "sizes")?;
    for layer in 0..diagram.domains().len() as u32 + 1 {
        print!(rt; " {}", layer_size(diagram, fronts, layer))?;
    }
    println!(rt;)?;
    Ok(())
}

/// How many pairs all layers have.
fn total(diagram: &Diagram, fronts: &Fronts) -> u64
    requires { HaveNodes diagram.now fronts.now }
{
    let mut total = 0u64;
    for layer in 0..diagram.domains().len() as u32 + 1 {
        total = total.saturating_add(layer_size(diagram, fronts, layer));
    }
    total
}

/// How many pairs the nodes of a layer have.
fn layer_size(diagram: &Diagram, fronts: &Fronts, layer: u32) -> u64
    requires nodes { HaveNodes diagram.now fronts.now }
    requires layer { layer ≤ length diagram.now.domains }
{
    let mut size = 0u64;
    for node in 0..diagram.nodes(layer) {
        size = size.saturating_add(fronts.len(layer, node));
    }
    size
}

/// A line for each pair of the first node of a layer, with the path.
fn tell_pairs(rt: &HostRuntime, diagram: &Diagram, fronts: &Fronts, layer: u32) -> Result<()>
    requires nodes { HaveNodes diagram.now fronts.now }
    requires layer { layer ≤ length diagram.now.domains }
{
    if diagram.nodes(layer) == 0 {
        return Ok(());
    }
    for place in 0..fronts.len(layer, 0) {
        let (first, second) = fronts.pair(layer, 0, place);
        let path = fronts.path(rt.alloc(), layer, 0, place)?;
        println!(rt; "{first} {second}: {:?}", path.as_slice())?;
    }
    Ok(())
}
