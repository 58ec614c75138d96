//! The layer of labels before one that leads to the end.

ghost use Rattle.std.specs.Prelude.{◌≡◌, ◌≢◌, ◌+◌, ◌-◌, ◌*◌, ◌≤◌, ◌<◌, length, slice_index, slice_index_or, [], vec_len, None, IfOk, IfSome, OnOk};
ghost use Rattle.pc_diagram.specs.Choices.{value_of};
ghost use Rattle.pc_diagram.specs.Diagram.{IsCanonical};
ghost use Rattle.pc_diagram.specs.Levels.{level};
ghost use Rattle.pc_diagram.specs.NodePaths.{AreCostsOf, AreChoicesOf};
ghost use Rattle.pc_diagram.specs.Weight.{plus, plus_ranked, rank_count, IsRanked};
ghost use Rattle.pc_labels.specs.Growing.{AreTailsFrom};
ghost use Rattle.pc_labels.specs.Labels.{slots_of};
ghost use Rattle.pc_labels.specs.Lesser.{lesser};
ghost use Rattle.pc_labels.specs.Marks.{AreMarks, IsBelow};
ghost use Rattle.pc_labels.specs.Slots.{AreNextTails, HasRoom, IsLeastOf};
ghost use Rattle.pc_labels.specs.SoFar.{AreNextTailsOf, HasLedOn, HaveWeights, MayComeFrom, backward_by};

use crate::layer::{Layer, NO_STEP};
use crate::ranks::needs_ranks_anew;
use crate::shared_layer::SharedLayer;
use crate::slots::Slots;
use crate::step::Step;
use pc_base::NoMemory;
use pc_diagram::{Choices, Costs, Diagram, Steps, Weight};
use std::alloc::Global;
use std::sync::ledger::Ledger;

/// A weight with the step that it comes from.
#[derive(Clone, Copy, Debug)]
pub(crate) struct Mark {
    pub(crate) weight: Weight,
    pub(crate) step: Step,
}

/// Puts the layer before a variable in front of the layers after it.
pub(crate) fn push_tails<L: Ledger>(
    alloc: Global,
    diagram: &Diagram,
    choices: &Choices,
    costs: &Costs,
    variable: u32,
    layers: &mut Vec<SharedLayer>,
    steps: &mut Steps<L>,
) -> Result<(), NoMemory>
    requires variable { variable < length diagram.now.domains }
    requires costs { AreCostsOf diagram.now.domains costs.now }
    requires choices { AreChoicesOf diagram.now.domains choices.now }
    requires canonical { IsCanonical diagram.now }
    requires made { AreTailsFrom diagram.now choices.now costs.now (variable + 1) layers.old.items }
    ensures made { OnOk result (AreTailsFrom diagram.now choices.now costs.now variable layers.new.items) }
    ensures steps { steps.new ≤ steps.old + slots_of diagram.now choices.now variable }
{
    let next = next_tails(
        alloc,
        diagram,
        choices,
        costs,
        variable,
        layers[0].layer(),
        steps,
    )?;
    layers.insert(0, SharedLayer::new(alloc, next)?)?;
    Ok(())
}

/// The layer before a variable, made from the layer after it.
pub(crate) fn next_tails<L: Ledger>(
    alloc: Global,
    diagram: &Diagram,
    choices: &Choices,
    costs: &Costs,
    variable: u32,
    after: &Layer,
    steps: &mut Steps<L>,
) -> Result<Layer, NoMemory>
    requires variable { variable < length diagram.now.domains }
    requires costs { AreCostsOf diagram.now.domains costs.now }
    requires choices { AreChoicesOf diagram.now.domains choices.now }
    requires nodes { length after.now.weights ≡ slice_index diagram.now.sizes (variable + 1) }
    requires room { HasRoom after.now.weights (slice_index_or costs.now variable []) }
    ensures next { IfOk result (λ next. AreNextTailsOf (level diagram.now variable) (value_of choices.now variable) (slice_index_or costs.now variable []) after.now next) }
    ensures marks { IfOk result (λ next. AreMarks next) }
    ensures steps { steps.new ≤ steps.old + slots_of diagram.now choices.now variable }
{
    if needs_ranks_anew(after, diagram.domains()[variable as usize]) {
        let anew = after.ranked_anew(alloc)?;
        gather(alloc, diagram, choices, costs, variable, &anew, steps)
    } else {
        gather(alloc, diagram, choices, costs, variable, after, steps)
    }
}

/// The layer before a variable, where there is room for its ranks.
fn gather<L: Ledger>(
    alloc: Global,
    diagram: &Diagram,
    choices: &Choices,
    costs: &Costs,
    variable: u32,
    after: &Layer,
    steps: &mut Steps<L>,
) -> Result<Layer, NoMemory>
    requires variable { variable < length diagram.now.domains }
    requires costs { AreCostsOf diagram.now.domains costs.now }
    requires choices { AreChoicesOf diagram.now.domains choices.now }
    requires nodes { length after.now.weights ≡ slice_index diagram.now.sizes (variable + 1) }
    requires room { HasRoom after.now.weights (slice_index_or costs.now variable []) }
    requires ranks { after.now.limit * slice_index diagram.now.domains variable ≤ rank_count }
    ensures next { IfOk result (λ next. AreNextTails (level diagram.now variable) (value_of choices.now variable) (slice_index_or costs.now variable []) after.now next) }
    ensures marks { IfOk result (λ next. AreMarks next) }
    ensures steps { steps.new ≤ steps.old + slots_of diagram.now choices.now variable }
{
    let domain = u64::from(diagram.domains()[variable as usize]);
    let slots = Slots::new(alloc, diagram, choices, costs, variable, after.limit())?;
    let mut before = Layer::unreached(alloc, diagram.nodes(variable), after.limit() * domain)?;
    for node in 0..diagram.nodes(variable) {
        let least = least_slot(diagram, variable, node, &slots, after, steps);
        before.offer(node, least.weight, least.step);
    }
    Ok(before)
}

/// The least of what the slots of a node lead to.
fn least_slot<L: Ledger>(
    diagram: &Diagram,
    variable: u32,
    node: u32,
    slots: &Slots,
    after: &Layer,
    steps: &mut Steps<L>,
) -> Mark
    requires variable { variable < length diagram.now.domains }
    requires node { node < slice_index diagram.now.sizes variable }
    requires nodes { length after.now.weights ≡ slice_index diagram.now.sizes (variable + 1) }
    requires order { slots.now.values.first ≤ slots.now.values.end }
    requires slots { slots.now.values.end ≤ slice_index diagram.now.domains variable }
    requires weights { slots.now.values.end ≤ vec_len slots.now.weights }
    requires some { HaveWeights slots.now }
    requires place { MayComeFrom (slice_index diagram.now.domains variable) slots.now after.now }
    ensures least { IsLeastOf (HasLedOn (level diagram.now variable) slots.now node slots.now.values.end) (backward_by slots.now after.now) result.weight result.step }
    ensures below { IsBelow (after.now.limit * slice_index diagram.now.domains variable) result.weight }
    ensures steps { steps.new ≤ steps.old + (slots.now.values.end - slots.now.values.first) }
{
    let mut least = Mark {
        weight: Weight::none(),
        step: NO_STEP,
    };
    for value in slots.values.first..slots.values.end {
        if let Some(target) = diagram.edge(variable, node, value, steps) {
            let step = Step {
                node: target,
                value,
            };
            let added = &slots.weights[value as usize];
            least = lesser_sum(least, after.weight(target), added, step);
        }
    }
    least
}

/// The lesser of a mark and of a step by which a slot adds to a weight: the mark where they are equal. A weight that is none is
/// left before anything is added to it.
fn lesser_sum(least: Mark, weight: Weight, added: &Weight, step: Step) -> Mark
    requires some { added.now ≢ None }
    requires place { IfSome weight (λ a. IfSome added.now (λ b. IsRanked (plus_ranked a b))) }
    ensures { result ≡ lesser least (record { weight = plus weight added.now; step = step }) }
{
    if weight.is_none() {
        return least;
    }
    let weight = weight.plus_path(added);
    if weight.is_less_than(&least.weight) {
        Mark { weight, step }
    } else {
        least
    }
}
