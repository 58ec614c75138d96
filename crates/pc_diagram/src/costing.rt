//! What words cost.

ghost use Rattle.std.specs.Prelude.{◌≡◌, ◌↔◌, IsTrue, All, length, map};
ghost use Rattle.std.specs.Option.{option_copied};
ghost use Rattle.pc_diagram.specs.Costs.{cost, cost_pair, part_taken, IsPrice, IsPricePair, IsPriced};
ghost use Rattle.pc_diagram.specs.NodePaths.{AreCostsOf};

use crate::costs::{CostPair, Costs};
use crate::limits::MOST_VARIABLES;
use crate::which::Which;
use crate::word::Word;
use pc_base::Sequence;

/// The most that a cost of one value is, and the least without its sign.
const MOST_PRICE: i64 = 1_000_000_000;

/// The first or the second cost of a word. Where the word has no value for a variable, or one without a price, that
/// variable costs nothing.
fn cost(costs: &Costs, which: Which, word: &Word) -> i64
    requires { IsPriced costs.now }
    ensures { result ≡ cost costs.now which word.now }
{
    let mut sum = 0;
    for (variable, row) in costs.as_slice().iter().enumerate() {
        sum += part_taken(row, which, word.get(variable));
    }
    sum
}

/// Both costs of a word.
pub(crate) fn cost_pair(costs: &Costs, word: &Word) -> CostPair
    requires { IsPriced costs.now }
    ensures { result ≡ cost_pair costs.now word.now }
{
    CostPair {
        first: cost(costs, Which::First, word),
        second: cost(costs, Which::Second, word),
    }
}

/// Whether the costs are of at most 64 variables, and each part of each pair lies from -1,000,000,000 to
/// 1,000,000,000.
pub fn is_priced(costs: &Costs) -> bool
    ensures { IsTrue result ↔ IsPriced costs.now }
{
    costs.len() <= MOST_VARIABLES && costs.as_slice().iter().all(|row| has_prices(row))
}

/// Whether costs are those of a diagram's values, whose variables take so many: a pair for each value, each part in range.
pub fn are_costs_of(domains: &[u32], costs: &Costs) -> bool
    ensures { IsTrue result ↔ AreCostsOf domains.now costs.now }
{
    has_pairs(domains, costs) && is_priced(costs)
}

/// Whether there is a pair for each value of variables that take so many.
fn has_pairs(domains: &[u32], costs: &Costs) -> bool
    ensures { IsTrue result ↔ (map length costs.now ≡ domains.now) }
{
    if costs.len() != domains.len() {
        return false;
    }
    for (variable, row) in costs.as_slice().iter().enumerate() {
        if row.len() != domains[variable] as usize {
            return false;
        }
    }
    true
}

/// Whether each part of each pair of a row is in range.
fn has_prices(row: &Sequence<CostPair>) -> bool
    ensures { IsTrue result ↔ All IsPricePair row.now }
{
    row.as_slice()
        .iter()
        .all(|pair| is_price(pair.first) && is_price(pair.second))
}

fn is_price(cost: i64) -> bool
    ensures { IsTrue result ↔ IsPrice cost }
{
    -MOST_PRICE <= cost && cost <= MOST_PRICE
}

/// One cost of the value taken of a variable.
fn part_taken(row: &Sequence<CostPair>, which: Which, taken: Option<&u32>) -> i64
    ensures { result ≡ part_taken row.now which (option_copied taken.entry) }
{
    match taken {
        Some(value) => match row.get(*value as usize) {
            Some(pair) => pair.part(which),
            None => 0,
        },
        None => 0,
    }
}
