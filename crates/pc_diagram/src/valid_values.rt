//! The valid values of every variable.

ghost use Rattle.std.specs.Prelude.{◌≡◌, IfOk};
ghost use Rattle.pc_diagram.specs.Costs.{IsPriced};
ghost use Rattle.pc_diagram.specs.Listing.{listing};
ghost use Rattle.pc_diagram.specs.Priced.{priced_item, priced_items, priced_listing};

use crate::bounds::Bounds;
use crate::choices::Choices;
use crate::costs::Costs;
use crate::listed::{Listed, Listing};
use crate::priced::{Priced, best_with, price_fitting};
use crate::word::Word;
use pc_base::{NoMemory, Sequence};
use std::alloc::Global;

/// Per variable and in order the values that some fitting word takes, each with the cheapest such word. The costs
/// of each word are added up once.
pub fn listing(
    alloc: Global,
    costs: &Costs,
    words: &[Word],
    choices: &Choices,
    bounds: &Bounds,
) -> Result<Listing, NoMemory>
    requires { IsPriced costs.now }
    ensures { IfOk result (λ l. l ≡ listing costs.now words.now choices.now bounds.now) }
{
    let priced = price_fitting(alloc, costs, words, choices, bounds)?;
    rows(alloc, costs, words, priced.as_slice())
}

/// What is listed of each variable.
fn rows(
    alloc: Global,
    costs: &Costs,
    words: &[Word],
    priced: &[Priced],
) -> Result<Listing, NoMemory>
    ensures { IfOk result (λ l. l ≡ priced_listing costs.now words.now priced.now) }
{
    let mut rows = Sequence::with_capacity(alloc, costs.len())?;
    for (variable, values) in costs.as_slice().iter().enumerate() {
        rows.push(row(alloc, words, priced, variable, values.len())?)?;
    }
    Ok(rows)
}

/// What is listed of one variable with so many values.
fn row(
    alloc: Global,
    words: &[Word],
    priced: &[Priced],
    variable: usize,
    count: usize,
) -> Result<Sequence<Listed>, NoMemory>
    ensures { IfOk result (λ l. l ≡ priced_items words.now priced.now variable count) }
{
    let mut row = Sequence::new(alloc);
    for value in 0..count {
        if let Some(listed) = item(alloc, words, priced, variable, value)? {
            row.push(listed)?;
        }
    }
    Ok(row)
}

/// What is listed of one value. The position is read from the word that takes it.
fn item(
    alloc: Global,
    words: &[Word],
    priced: &[Priced],
    variable: usize,
    value: usize,
) -> Result<Option<Listed>, NoMemory>
    ensures { IfOk result (λ found. found ≡ priced_item words.now priced.now variable value) }
{
    let Some(best) = best_with(words, priced, variable, value) else {
        return Ok(None);
    };
    let word = &words[best.place];
    let Some(taken) = word.get(variable) else {
        return Ok(None);
    };
    Ok(Some(Listed {
        value: *taken,
        first: best.pair.first,
        second: best.pair.second,
        word: Word::from_slice(alloc, word.as_slice())?,
    }))
}
