//! Words with their costs, by their places in a list.

ghost use Rattle.std.specs.Prelude.{◌≡◌, [], Some, IfOk, IfSome, All, map, true, slice_index_or};
ghost use Rattle.pc_diagram.specs.Best.{earlier_unless};
ghost use Rattle.pc_diagram.specs.Costs.{IsPriced};
ghost use Rattle.pc_diagram.specs.Fitting.{takes, fitting};
ghost use Rattle.pc_diagram.specs.Priced.{word_at, takes_at, IsPriceOf, is_cheaper_priced, cheapest, taking_places};

use crate::bounds::Bounds;
use crate::choices::Choices;
use crate::costing::cost_pair;
use crate::costs::{CostPair, Costs};
use crate::matching::{allows_pair, extends, takes};
use crate::word::Word;
use pc_base::NoMemory;
use std::alloc::Global;

/// The two costs of a word, and its place in the list of words.
#[derive(Clone, Copy, Debug)]
pub(crate) struct Priced {
    pub pair: CostPair,
    pub place: usize,
}

/// The fitting words, each with its costs.
pub(crate) fn price_fitting(
    alloc: Global,
    costs: &Costs,
    words: &[Word],
    choices: &Choices,
    bounds: &Bounds,
) -> Result<Vec<Priced>, NoMemory>
    requires { IsPriced costs.now }
    ensures words { IfOk result
        (λ v. map (word_at words.now) v.items ≡ fitting costs.now words.now choices.now bounds.now) }
    ensures prices { IfOk result (λ v. All (IsPriceOf costs.now words.now) v.items) }
{
    let mut priced = Vec::new(alloc);
    for (place, word) in words.iter().enumerate() {
        if extends(word, choices) {
            let pair = cost_pair(costs, word);
            if allows_pair(bounds, &pair) {
                priced.push(Priced { pair, place })?;
            }
        }
    }
    Ok(priced)
}

/// The cheapest of the priced words that take a value at a variable, the first of them where there are several.
pub(crate) fn best_with(
    words: &[Word],
    priced: &[Priced],
    variable: usize,
    value: usize,
) -> Option<Priced>
    ensures cheapest { result ≡ cheapest (taking_places words.now priced.now variable value) }
    ensures takes { IfSome result (λ p. takes_at words.now variable value p ≡ true) }
{
    let mut best = None;
    for next in priced {
        if takes_at(words, next.place, variable, value) {
            best = Some(cheaper(best, *next));
        }
    }
    best
}

/// The best so far, unless the next is cheaper.
pub(crate) fn cheaper(best: Option<Priced>, next: Priced) -> Priced
    ensures { Some result ≡ earlier_unless is_cheaper_priced best (Some next) }
{
    match best {
        Some(best) => if next.pair.is_cheaper_than(&best.pair) {
            next
        } else {
            best
        },
        None => next,
    }
}

/// Whether the word at a place takes a value at a variable.
fn takes_at(words: &[Word], place: usize, variable: usize, value: usize) -> bool
    ensures { result ≡ takes (slice_index_or words.now place []) variable value }
{
    match words.get(place) {
        Some(word) => takes(word, variable, value),
        None => false,
    }
}
