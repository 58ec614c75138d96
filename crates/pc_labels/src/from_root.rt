//! The next layer of labels from the root.

ghost use Rattle.std.specs.Prelude.{◌≡◌, ◌+◌, ◌-◌, ◌*◌, ◌≤◌, ◌<◌, length, slice_index, slice_index_or, [], vec_len, IfOk, OnOk};
ghost use Rattle.pc_diagram.specs.Choices.{value_of};
ghost use Rattle.pc_diagram.specs.Diagram.{IsCanonical};
ghost use Rattle.pc_diagram.specs.Levels.{level};
ghost use Rattle.pc_diagram.specs.NodePaths.{AreCostsOf, AreChoicesOf};
ghost use Rattle.pc_diagram.specs.Weight.{rank_count};
ghost use Rattle.pc_labels.specs.Growing.{AreHeadsUpTo};
ghost use Rattle.pc_labels.specs.Labels.{slots_of};
ghost use Rattle.pc_labels.specs.Marks.{AreMarks};
ghost use Rattle.pc_labels.specs.Slots.{AreNextHeads, HasRoom};
ghost use Rattle.pc_labels.specs.SoFar.{AreHeadsSoFar, AreNextHeadsOf, HaveWeights, MayGoOn};

use crate::layer::Layer;
use crate::ranks::needs_ranks_anew;
use crate::shared_layer::SharedLayer;
use crate::slots::Slots;
use crate::step::Step;
use pc_base::NoMemory;
use pc_diagram::{Choices, Costs, Diagram, Steps};
use std::alloc::Global;
use std::sync::ledger::Ledger;

/// Puts the layer after a variable behind the layers up to it.
pub(crate) fn push_heads<L: Ledger>(
    alloc: Global,
    diagram: &Diagram,
    choices: &Choices,
    costs: &Costs,
    variable: u32,
    layers: &mut Vec<SharedLayer>,
    steps: &mut Steps<L>,
) -> Result<(), NoMemory>
    requires variable { variable < length diagram.now.domains }
    requires costs { AreCostsOf diagram.now.domains costs.now }
    requires choices { AreChoicesOf diagram.now.domains choices.now }
    requires canonical { IsCanonical diagram.now }
    requires made { AreHeadsUpTo diagram.now choices.now costs.now variable layers.old.items }
    ensures made { OnOk result (AreHeadsUpTo diagram.now choices.now costs.now (variable + 1) layers.new.items) }
    ensures steps { steps.new ≤ steps.old + slots_of diagram.now choices.now variable }
{
    let next = next_heads(
        alloc,
        diagram,
        choices,
        costs,
        variable,
        layers[variable as usize].layer(),
        steps,
    )?;
    layers.push(SharedLayer::new(alloc, next)?)?;
    Ok(())
}

/// The layer after a variable, made from the layer before it.
pub(crate) fn next_heads<L: Ledger>(
    alloc: Global,
    diagram: &Diagram,
    choices: &Choices,
    costs: &Costs,
    variable: u32,
    before: &Layer,
    steps: &mut Steps<L>,
) -> Result<Layer, NoMemory>
    requires variable { variable < length diagram.now.domains }
    requires costs { AreCostsOf diagram.now.domains costs.now }
    requires choices { AreChoicesOf diagram.now.domains choices.now }
    requires nodes { length before.now.weights ≡ slice_index diagram.now.sizes variable }
    requires room { HasRoom before.now.weights (slice_index_or costs.now variable []) }
    ensures next { IfOk result (λ next. AreNextHeadsOf (level diagram.now variable) (value_of choices.now variable) (slice_index_or costs.now variable []) before.now next) }
    ensures marks { IfOk result (λ next. AreMarks next) }
    ensures steps { steps.new ≤ steps.old + slots_of diagram.now choices.now variable }
{
    if needs_ranks_anew(before, diagram.domains()[variable as usize]) {
        let anew = before.ranked_anew(alloc)?;
        spread(alloc, diagram, choices, costs, variable, &anew, steps)
    } else {
        spread(alloc, diagram, choices, costs, variable, before, steps)
    }
}

/// The layer after a variable, where there is room for its ranks.
fn spread<L: Ledger>(
    alloc: Global,
    diagram: &Diagram,
    choices: &Choices,
    costs: &Costs,
    variable: u32,
    before: &Layer,
    steps: &mut Steps<L>,
) -> Result<Layer, NoMemory>
    requires variable { variable < length diagram.now.domains }
    requires costs { AreCostsOf diagram.now.domains costs.now }
    requires choices { AreChoicesOf diagram.now.domains choices.now }
    requires nodes { length before.now.weights ≡ slice_index diagram.now.sizes variable }
    requires room { HasRoom before.now.weights (slice_index_or costs.now variable []) }
    requires ranks { before.now.limit * slice_index diagram.now.domains variable ≤ rank_count }
    ensures next { IfOk result (λ next. AreNextHeads (level diagram.now variable) (value_of choices.now variable) (slice_index_or costs.now variable []) before.now next) }
    ensures marks { IfOk result (λ next. AreMarks next) }
    ensures steps { steps.new ≤ steps.old + slots_of diagram.now choices.now variable }
{
    let domain = u64::from(diagram.domains()[variable as usize]);
    let slots = Slots::new(alloc, diagram, choices, costs, variable, 1)?;
    let mut next = Layer::unreached(alloc, diagram.nodes(variable + 1), before.limit() * domain)?;
    for node in 0..diagram.nodes(variable) {
        offer_slots(diagram, variable, before, node, &slots, &mut next, steps);
    }
    Ok(next)
}

/// Offers the path to a node, gone on by each of its slots, to the node that the slot leads to.
fn offer_slots<L: Ledger>(
    diagram: &Diagram,
    variable: u32,
    before: &Layer,
    node: u32,
    slots: &Slots,
    next: &mut Layer,
    steps: &mut Steps<L>,
)
    requires variable { variable < length diagram.now.domains }
    requires node { node < slice_index diagram.now.sizes variable }
    requires nodes { length before.now.weights ≡ slice_index diagram.now.sizes variable }
    requires ranks { before.now.limit * slice_index diagram.now.domains variable ≤ rank_count }
    requires order { slots.now.values.first ≤ slots.now.values.end }
    requires slots { slots.now.values.end ≤ slice_index diagram.now.domains variable }
    requires weights { slots.now.values.end ≤ vec_len slots.now.weights }
    requires some { HaveWeights slots.now }
    requires place { MayGoOn (slice_index diagram.now.domains variable) slots.now before.now }
    requires so_far { AreHeadsSoFar (level diagram.now variable) slots.now before.now node 0 next.old }
    ensures so_far { AreHeadsSoFar (level diagram.now variable) slots.now before.now (node + 1) 0 next.new }
    ensures marks { AreMarks next.old → AreMarks next.new }
    ensures steps { steps.new ≤ steps.old + (slots.now.values.end - slots.now.values.first) }
{
    let widened = before.widened(node, diagram.domains()[variable as usize]);
    if widened.is_none() {
        return;
    }
    for value in slots.values.first..slots.values.end {
        let step = Step { node, value };
        if let Some(target) = diagram.edge(variable, node, value, steps) {
            let added = &slots.weights[value as usize];
            next.offer(target, widened.plus_path(added), step);
        }
    }
}
