//! What is listed of a value, by labels.

ghost use Rattle.std.specs.Prelude.{◌≡◌, ◌<◌, ◌≤◌, ◌+◌, length, slice_index, None, IfOk, IfSome, IsSome};
ghost use Rattle.pc_diagram.specs.declared.limits.TheConstants.{MOST_VARIABLES};
ghost use Rattle.pc_diagram.specs.NodePaths.{AreCostsOf};
ghost use Rattle.pc_domains.specs.Floors.{IsFloor};
ghost use Rattle.pc_domains.specs.LabelWays.{word_of_label_way};
ghost use Rattle.pc_domains.specs.ListedWays.{TellsByLabels, item_of_label_way};
ghost use Rattle.pc_domains.specs.Sides.{IsAsked, listed_of};
ghost use Rattle.pc_labels.specs.Kept.{kept_at};
ghost use Rattle.pc_labels.specs.Labels.{AreHeads, AreTails};

use crate::asked::{allows_value, keeps, price_of};
use crate::label_way::{LabelWay, least_label_way};
use pc_base::NoMemory;
use pc_diagram::{Bounds, Choices, CostPair, Costs, Diagram, Listed, Steps, Word};
use pc_labels::Labels;
use std::alloc::Global;
use std::sync::ledger::Ledger;

/// The way whose word is listed of a value, by the labels of both ends with the same choices, where the second cost has no
/// bound; none where the value isn't listed. The least costs of the tails may be known. It takes no memory.
pub(crate) fn listed_label_way<L: Ledger>(
    diagram: &Diagram,
    costs: &Costs,
    choices: &Choices,
    bounds: &Bounds,
    heads: &Labels,
    tails: &Labels,
    floor: Option<CostPair>,
    variable: u32,
    value: u32,
    steps: &mut Steps<L>,
) -> Option<LabelWay>
    requires variable { variable < length diagram.now.domains }
    requires value { value < slice_index diagram.now.domains variable }
    requires costs { AreCostsOf diagram.now.domains costs.now }
    requires asked { IsAsked diagram.now costs.now choices.now variable value }
    requires alone { bounds.now.second ≡ None }
    requires heads { AreHeads diagram.now choices.now costs.now heads.now }
    requires tails { AreTails diagram.now choices.now costs.now tails.now }
    requires floor { IfSome floor (IsFloor tails.now (variable + 1)) }
    ensures tells { TellsByLabels (listed_of diagram.now costs.now choices.now bounds.now variable value) heads.now tails.now variable value result }
    ensures steps { steps.new ≤ steps.old + slice_index diagram.now.sizes variable }
{
    if !allows_value(choices, variable, value) {
        return None;
    }
    let price = price_of(costs, variable, value);
    let Some(way) = least_label_way(diagram, heads, tails, price, floor, variable, value, steps)
    else {
        return None;
    };
    if !keeps(bounds, &way.ranked.pair) {
        return None;
    }
    Some(way)
}

/// A value with the costs and the word of a way through it.
///
/// # Errors
///
/// Want of memory.
pub(crate) fn item_of_label_way(
    alloc: Global,
    heads: &Labels,
    tails: &Labels,
    variable: u32,
    value: u32,
    way: &LabelWay,
) -> Result<Listed, NoMemory>
    requires few { variable < MOST_VARIABLES }
    requires head { IsSome (kept_at heads.now variable way.now.node) }
    requires tail { IsSome (kept_at tails.now (variable + 1) way.now.target) }
    ensures { IfOk result (λ item. item ≡ item_of_label_way heads.now tails.now variable value way.now) }
{
    let word = word_of(alloc, heads, tails, variable, value, way)?;
    let pair = way.ranked.pair;
    Ok(Listed {
        value,
        first: pair.first,
        second: pair.second,
        word,
    })
}

/// The word of a way.
fn word_of(
    alloc: Global,
    heads: &Labels,
    tails: &Labels,
    variable: u32,
    value: u32,
    way: &LabelWay,
) -> Result<Word, NoMemory>
    requires few { variable < MOST_VARIABLES }
    requires head { IsSome (kept_at heads.now variable way.now.node) }
    requires tail { IsSome (kept_at tails.now (variable + 1) way.now.target) }
    ensures { IfOk result (λ word. word ≡ word_of_label_way heads.now tails.now variable value way.now) }
{
    let head = heads.path(alloc, variable, way.node)?;
    let tail = tails.path(alloc, variable + 1, way.target)?;
    let mut values = head.into_vec();
    values.push(value)?;
    values.extend_from_slice(tail.as_slice())?;
    Ok(Word::from_vec(values))
}
