//! What is listed of a value, by fronts.

ghost use Rattle.std.specs.Prelude.{◌≡◌, ◌<◌, ◌≤◌, ◌+◌, length, slice_index, IfOk};
ghost use Rattle.pc_diagram.specs.declared.limits.TheConstants.{MOST_VARIABLES};
ghost use Rattle.pc_diagram.specs.declared.side.Side.TheVariants.{Heads, Tails};
ghost use Rattle.pc_diagram.specs.NodePaths.{AreCostsOf};
ghost use Rattle.pc_domains.specs.FrontWays.{word_of_way};
ghost use Rattle.pc_domains.specs.ListedWays.{IsInside, TellsByFronts, item_of_front_way};
ghost use Rattle.pc_domains.specs.Sides.{IsAsked, listed_of};
ghost use Rattle.pc_pareto.specs.FrontsView.{IsFrontsOf, stages_of};

use crate::asked::{allows_value, price_of};
use crate::front_way::{FrontWay, least_front_way};
use pc_base::NoMemory;
use pc_diagram::{Bounds, Choices, Costs, Diagram, Listed, Steps, Word};
use pc_pareto::Fronts;
use std::alloc::Global;
use std::sync::ledger::Ledger;

/// The way whose word is listed of a value, by the fronts of both ends with the same choices, whatever the bounds are; none where
/// the value isn't listed. It takes no memory.
pub(crate) fn listed_front_way<L: Ledger>(
    diagram: &Diagram,
    costs: &Costs,
    choices: &Choices,
    bounds: &Bounds,
    heads: &Fronts,
    tails: &Fronts,
    variable: u32,
    value: u32,
    steps: &mut Steps<L>,
) -> Option<FrontWay>
    requires variable { variable < length diagram.now.domains }
    requires value { value < slice_index diagram.now.domains variable }
    requires costs { AreCostsOf diagram.now.domains costs.now }
    requires asked { IsAsked diagram.now costs.now choices.now variable value }
    requires heads { IsFrontsOf Heads diagram.now costs.now choices.now heads.now }
    requires tails { IsFrontsOf Tails diagram.now costs.now choices.now tails.now }
    ensures tells { TellsByFronts (listed_of diagram.now costs.now choices.now bounds.now variable value) heads.now tails.now variable value result }
    ensures steps { steps.new ≤ steps.old + slice_index diagram.now.sizes variable }
{
    if !allows_value(choices, variable, value) {
        return None;
    }
    let price = price_of(costs, variable, value);
    least_front_way(diagram, heads, tails, price, bounds, variable, value, steps)
}

/// A value with the costs and the word of a way through it.
///
/// # Errors
///
/// Want of memory.
pub(crate) fn item_of_front_way(
    alloc: Global,
    heads: &Fronts,
    tails: &Fronts,
    variable: u32,
    value: u32,
    way: &FrontWay,
) -> Result<Listed, NoMemory>
    requires few { variable < MOST_VARIABLES }
    requires head_layer { variable < length (stages_of heads.now) }
    requires tail_layer { variable + 1 < length (stages_of tails.now) }
    requires way { IsInside heads.now tails.now variable way.now }
    ensures { IfOk result (λ item. item ≡ item_of_front_way heads.now tails.now variable value way.now) }
{
    let word = word_of_way(alloc, heads, tails, variable, value, way)?;
    let pair = way.join.ranked.pair;
    Ok(Listed {
        value,
        first: pair.first,
        second: pair.second,
        word,
    })
}

/// The word of a way.
fn word_of_way(
    alloc: Global,
    heads: &Fronts,
    tails: &Fronts,
    variable: u32,
    value: u32,
    way: &FrontWay,
) -> Result<Word, NoMemory>
    requires few { variable < MOST_VARIABLES }
    requires head_layer { variable < length (stages_of heads.now) }
    requires tail_layer { variable + 1 < length (stages_of tails.now) }
    requires way { IsInside heads.now tails.now variable way.now }
    ensures { IfOk result (λ word. word ≡ word_of_way heads.now tails.now variable value way.now) }
{
    let head = heads.path(alloc, variable, way.node, way.join.head as u64)?;
    let tail = tails.path(alloc, variable + 1, way.target, way.join.tail as u64)?;
    let mut values = head.into_vec();
    values.push(value)?;
    values.extend_from_slice(tail.as_slice())?;
    Ok(Word::from_vec(values))
}
