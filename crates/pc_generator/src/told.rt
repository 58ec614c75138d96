//! What is told of a listing: how many values it has, and what the best product costs.

ghost use Rattle.std.specs.Prelude.{◌≡◌, IfOk, Some};
ghost use Rattle.pc_diagram.specs.Best.{earlier_unless};
ghost use Rattle.pc_diagram.specs.Costs.{is_cheaper};
ghost use Rattle.pc_generator.specs.Summary.{cheapest_in, cheapest_of, listed_count, pair_listed};

use pc_base::{NoMemory, Sequence};
use pc_diagram::{CostPair, Listed};

/// How many values are listed.
pub fn listed_count(listing: &[Sequence<Listed>]) -> Result<u64, NoMemory>
    ensures { IfOk result (λ count. count ≡ listed_count listing.now) }
{
    let mut count = 0u64;
    for items in listing {
        // (memory ends long before so many are listed)
        count = count.checked_add(items.len() as u64).ok_or(NoMemory)?;
    }
    Ok(count)
}

/// What the best product costs of all that are listed.
pub fn cheapest_in(listing: &[Sequence<Listed>]) -> CostPair
    ensures { result ≡ cheapest_in listing.now }
{
    match listing {
        [] => CostPair {
            first: 0,
            second: 0,
        },
        [items, ..] => cheapest_of(items.as_slice()),
    }
}

/// The cheapest of what is listed of one variable.
fn cheapest_of(items: &[Listed]) -> CostPair
    ensures { result ≡ cheapest_of items.now }
{
    let mut cheapest = None;
    for item in items {
        cheapest = Some(cheaper(cheapest, pair_of(item)));
    }
    cheapest.unwrap_or(CostPair {
        first: 0,
        second: 0,
    })
}

/// What the best product costs that takes a listed value.
fn pair_of(item: &Listed) -> CostPair
    ensures { result ≡ pair_listed item.now }
{
    CostPair {
        first: item.first,
        second: item.second,
    }
}

/// The pair that was found, unless there is none or the later one is cheaper.
fn cheaper(found: Option<CostPair>, later: CostPair) -> CostPair
    ensures { Some result ≡ earlier_unless is_cheaper found (Some later) }
{
    match found {
        Some(pair) if !later.is_cheaper_than(&pair) => pair,
        _ => later,
    }
}
