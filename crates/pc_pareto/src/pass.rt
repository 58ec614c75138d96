//! The pass over a diagram, from the end of a side, one layer after the other.

ghost use Rattle.std.specs.Prelude.{◌≡◌, ◌<◌, ◌≤◌, ◌+◌, ◌*◌, ◌-◌, [], ◌∷◌, length, sum, take, slice_index, slice_index_or, None, OnOk, IfOk, IfErr};
ghost use Rattle.pc_diagram.specs.declared.limits.TheConstants.{MOST_VALUES};
ghost use Rattle.pc_diagram.specs.Diagram.{IsCanonical};
ghost use Rattle.pc_diagram.specs.NodePaths.{AreCostsOf, AreChoicesOf};
ghost use Rattle.pc_pareto.specs.declared.limits.TheConstants.{MOST_LABELS};
ghost use Rattle.pc_pareto.specs.Arrivals.{variable_at, slots_of, slots_from};
ghost use Rattle.pc_pareto.specs.Bounds.{IsScaleOf};
ghost use Rattle.pc_pareto.specs.Faults.{IsFaultAt, IsLimitOf};
ghost use Rattle.pc_pareto.specs.Fronts.{layer_at, sizes_from, no_item};
ghost use Rattle.pc_pareto.specs.Pass.{IsPass, IsWholePass};

use crate::arrivals::arrivals;
use crate::back::Back;
use crate::front::Front;
use crate::front_fault::FrontFault;
use crate::front_item::FrontItem;
use crate::number::numbered;
use crate::stage::next_stage;
use pc_base::{NoMemory, Sequence};
use pc_diagram::{Choices, CostPair, Costs, Diagram, Side, Steps};
use std::alloc::Global;
use std::sync::ledger::Ledger;

/// The variable between the layers at a distance from the end of a side and at the next one.
pub(crate) fn variable_at(side: Side, diagram: &Diagram, distance: u32) -> u32
    requires { distance < length diagram.now.domains }
    ensures is { result ≡ variable_at side (length diagram.now.domains) distance }
    ensures within { result < length diagram.now.domains }
{
    let variables = diagram.domains().len() as u32;
    match side {
        Side::Heads => distance,
        Side::Tails => variables - (distance + 1),
    }
}

/// The layer at a distance from the end of a side.
fn layer_at(side: Side, diagram: &Diagram, distance: u32) -> u32
    requires { distance ≤ length diagram.now.domains }
    ensures { result ≡ layer_at side (length diagram.now.domains) distance }
{
    let variables = diagram.domains().len() as u32;
    match side {
        Side::Heads => distance,
        Side::Tails => variables - distance,
    }
}

/// How many values a variable takes.
fn domain_of(diagram: &Diagram, variable: u32) -> u64
    requires variable { variable < length diagram.now.domains }
    requires canonical { IsCanonical diagram.now }
    ensures is { result ≡ slice_index diagram.now.domains variable }
    ensures few { result ≤ MOST_VALUES }
{
    u64::from(diagram.domains()[variable as usize])
}

/// The costs of the values of a variable.
fn row_of(costs: &Costs, variable: u32) -> &[CostPair]
    requires { variable < length costs.now }
    ensures { result.now ≡ slice_index_or costs.now variable [] }
{
    costs.as_slice()[variable as usize].as_slice()
}

/// The fronts of the layer at a distance.
fn stage_at(stages: &Sequence<Sequence<Front>>, distance: u32) -> &[Front]
    requires { distance < length stages.now }
    ensures { result.now ≡ slice_index_or stages.now distance [] }
{
    stages.as_slice()[distance as usize].as_slice()
}

fn scale_of(side: Side, limit: u64, domain: u64) -> u64
    ensures { IsScaleOf side result limit domain }
{
    match side {
        Side::Heads => domain,
        Side::Tails => limit,
    }
}

/// Adds the fronts of the next layer. The limit is above all ranks of the last one, and the total counts the pairs of all.
fn extend<L: Ledger>(
    alloc: Global,
    side: Side,
    diagram: &Diagram,
    choices: &Choices,
    costs: &Costs,
    distance: u32,
    stages: &mut Sequence<Sequence<Front>>,
    limit: &mut u64,
    total: &mut u64,
    steps: &mut Steps<L>,
) -> Result<(), FrontFault>
    requires canonical { IsCanonical diagram.now }
    requires costs { AreCostsOf diagram.now.domains costs.now }
    requires choices { AreChoicesOf diagram.now.domains choices.now }
    requires distance { distance < length diagram.now.domains }
    requires pass { IsPass side diagram.now costs.now choices.now distance stages.old limit.old total.old }
    ensures pass { OnOk result (IsPass side diagram.now costs.now choices.now (distance + 1) stages.new limit.new total.new) }
    ensures fault { IfErr result (IsFaultAt (λ at_side at_layer. (at_side ≡ side)
        × (at_layer ≡ layer_at side (length diagram.now.domains) (distance + 1))
        × (MOST_LABELS < sum (take ((distance + 1) + 1) (sizes_from side diagram.now costs.now choices.now))))) }
    ensures steps { steps.new ≤ steps.old + slots_of diagram.now (variable_at side (length diagram.now.domains) distance) }
{
    let variable = variable_at(side, diagram, distance);
    let lists = arrivals(
        alloc,
        side,
        diagram,
        variable,
        choices.value_of(variable),
        steps,
    )?;
    let domain = domain_of(diagram, variable);
    let layer = layer_at(side, diagram, distance + 1);
    let scale = scale_of(side, *limit, domain);
    let row = row_of(costs, variable);
    let before = stage_at(stages, distance);
    let stage = match next_stage(
        alloc,
        side,
        layer,
        scale,
        row,
        before,
        lists.as_slice(),
        total,
    ) {
        Ok(stage) => stage,
        Err(fault) => return Err(fault),
    };
    let (stage, bound) = numbered(alloc, stage, *limit * domain)?;
    stages.push(stage)?;
    *limit = bound;
    Ok(())
}

/// The fronts of all layers, where those up to a distance are made. There are so many variables.
pub(crate) fn finish<L: Ledger>(
    alloc: Global,
    side: Side,
    diagram: &Diagram,
    choices: &Choices,
    costs: &Costs,
    variables: u32,
    from: u32,
    mut stages: Sequence<Sequence<Front>>,
    mut limit: u64,
    mut total: u64,
    steps: &mut Steps<L>,
) -> Result<Sequence<Sequence<Front>>, FrontFault>
    requires canonical { IsCanonical diagram.now }
    requires costs { AreCostsOf diagram.now.domains costs.now }
    requires choices { AreChoicesOf diagram.now.domains choices.now }
    requires variables { variables ≡ length diagram.now.domains }
    requires from { from ≤ variables }
    requires pass { IsPass side diagram.now costs.now choices.now from stages limit total }
    ensures pass { IfOk result (IsWholePass side diagram.now costs.now choices.now) }
    ensures fault { IfErr result (IsFaultAt (IsLimitOf side diagram.now costs.now choices.now)) }
    ensures steps { steps.new ≤ steps.old + slots_from side diagram.now from }
{
    for distance in from..variables {
        match extend(
            alloc,
            side,
            diagram,
            choices,
            costs,
            distance,
            &mut stages,
            &mut limit,
            &mut total,
            steps,
        ) {
            Ok(()) => {}
            Err(fault) => return Err(fault),
        }
    }
    Ok(stages)
}

/// The fronts of the layer at the end of a side: one node, with one item.
pub(crate) fn first_stages(alloc: Global) -> Result<Sequence<Sequence<Front>>, NoMemory>
    ensures { IfOk result (λ stages. stages ≡ ((no_item ∷ []) ∷ []) ∷ []) }
{
    let mut items = Vec::new(alloc);
    items.push(FrontItem {
        first: 0,
        second: 0,
        back: Back {
            node: 0,
            value: 0,
            place: 0,
            rank: 0,
        },
    })?;
    let mut stage = Sequence::new(alloc);
    stage.push(Front::of_items(items))?;
    let mut stages = Sequence::new(alloc);
    stages.push(stage)?;
    Ok(stages)
}
