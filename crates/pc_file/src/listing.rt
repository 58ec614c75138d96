//! The valid values of a file by the plain list of its products.

ghost use Rattle.std.specs.Prelude.{◌≡◌, ◌≤◌, ◌<◌, map, IfOk, IsErrOf};
ghost use Rattle.pc_file.specs.Products.{words_of};
ghost use Rattle.pc_diagram.specs.Listing.{listing};
ghost use Rattle.pc_file.specs.Costs.{pair_of, costs_of, file_listing};

use crate::file::File;
use crate::products::{PlainFault, plain_products};
use crate::sizes::MOST_WORDS;
use crate::variable::{Value, Variable};
use pc_base::{NoMemory, Sequence};
use pc_diagram::{Bounds, Choices, CostPair, Costs, Listing, Word, listing};
use std::alloc::{AllocError, Global};

/// The valid values under choices and bounds, each with its cheapest product, by trying every word. No command calls it:
/// faster ways are judged by it.
pub fn plain_listing(
    alloc: Global,
    file: &File,
    choices: &Choices,
    bounds: &Bounds,
) -> Result<Listing, PlainFault>
    ensures listing { IfOk result (λ listing. listing ≡ file_listing file.now choices.now bounds.now) }
    ensures few { IfOk result (λ _. words_of file.now ≤ MOST_WORDS) }
    ensures too_many { IsErrOf result PlainFault.TooMany → MOST_WORDS < words_of file.now }
{
    let products = plain_products(alloc, file)?;
    Ok(listing_over(alloc, file, products.as_slice(), choices, bounds)?)
}

/// The values that some of these words takes under choices and bounds, each with the cheapest such word.
pub fn listing_over(
    alloc: Global,
    file: &File,
    words: &[Word],
    choices: &Choices,
    bounds: &Bounds,
) -> Result<Listing, NoMemory>
    ensures { IfOk result (λ l. l ≡ listing (costs_of file.now.variables) words.now choices.now bounds.now) }
{
    let costs = costs_of(alloc, file.variables())?;
    listing(alloc, &costs, words, choices, bounds)
}

/// Per variable the costs of its values.
pub fn costs_of(alloc: Global, variables: &[Variable]) -> Result<Costs, NoMemory>
    ensures { IfOk result (λ costs. costs ≡ costs_of variables.now) }
{
    let mut costs = Sequence::with_capacity(alloc, variables.len())?;
    for variable in variables {
        costs.push(Sequence::from_vec(pairs_of(alloc, variable.values.as_slice())?))?;
    }
    Ok(costs)
}

fn pairs_of(alloc: Global, values: &[Value]) -> Result<Vec<CostPair>, AllocError>
    ensures { IfOk result (λ pairs. pairs.items ≡ map pair_of values.now) }
{
    values
        .iter()
        .map(|value| CostPair {
            first: value.first,
            second: value.second,
        })
        .collect(alloc)
}
