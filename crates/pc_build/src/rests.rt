//! What rows demand of the variables after the first, where a word begins with a value.

ghost use Rattle.std.specs.Prelude.{◌≡◌, ◌≤◌, ℕ, List, [], ◌∷◌, drop, length, replicate, IfOk, OnOk};
ghost use Rattle.pc_build.specs.Demands.{is_open, some_meets, AllowsWithin, AreRests, WithRow};

use crate::demand::Demand;
use pc_base::{NoMemory, Sequence};
use pc_store::Store;
use std::alloc::Global;

/// Values from a first one on, before an end.
#[derive(Clone, Copy, Debug)]
pub(crate) struct Values {
    pub first: u32,
    pub end: u32,
}

/// What the rows demand of the variables after the first, for each of so many values of the first. Each row is gone
/// through once.
pub(crate) fn rests_by_value(
    alloc: Global,
    rows: &[Sequence<Demand>],
    count: u32,
) -> Result<Vec<Sequence<Sequence<Demand>>>, NoMemory>
    ensures { IfOk result (λ rests. AreRests rows.now count rests.items) }
{
    let mut rests = no_rests(alloc, count)?;
    for row in rows {
        add_rest(alloc, &mut rests, count, row.as_slice())?;
    }
    Ok(rests)
}

/// An empty list for each of so many values.
fn no_rests(alloc: Global, count: u32) -> Result<Vec<Sequence<Sequence<Demand>>>, NoMemory>
    ensures { IfOk result (λ rests. rests.items ≡ replicate count []) }
{
    let mut rests = Vec::with_capacity(alloc, count as usize)?;
    for _value in 0..count {
        rests.push(Sequence::new(alloc))?;
    }
    Ok(rests)
}

/// Adds what one more row demands after each of so many values that it allows.
fn add_rest(
    alloc: Global,
    rests: &mut Vec<Sequence<Sequence<Demand>>>,
    count: u32,
    row: &[Demand],
) -> Result<(), NoMemory>
    requires { length rests.old.items ≡ count }
    ensures { OnOk result (WithRow row.now rests.old.items rests.new.items) }
{
    let values = open_values(row, count);
    for value in values.first..values.end {
        if is_open(row, value) {
            let rest = Sequence::from_slice(alloc, rest_of(row))?;
            rests[value as usize].push(rest)?;
        }
    }
    Ok(())
}

/// Those of so many values of the first variable among which are all that a row allows.
fn open_values(row: &[Demand], count: u32) -> Values
    ensures within { result.end ≤ count }
    ensures order { result.first ≤ result.end }
    ensures allowed { AllowsWithin row.now count result }
{
    match row {
        [Demand::One(value), ..] if *value < count => Values {
            first: *value,
            end: *value + 1,
        },
        [Demand::One(_), ..] => Values { first: 0, end: 0 },
        [Demand::Never, ..] => Values { first: 0, end: 0 },
        _ => Values {
            first: 0,
            end: count,
        },
    }
}

/// What the rows that allow a value of the first variable demand of those after it.
pub(crate) fn rests_after(
    store: &Store,
    rows: &[Sequence<Demand>],
    value: u32,
) -> Result<Sequence<Sequence<Demand>>, NoMemory>
    ensures { IfOk result (λ rests. (word : List ℕ) → some_meets rests word ≡ some_meets rows.now (value ∷ word)) }
{
    let alloc = store.allocator();
    let mut rests = Sequence::new(alloc);
    for row in rows {
        if is_open(row.as_slice(), value) {
            rests.push(Sequence::from_slice(alloc, rest_of(row.as_slice()))?)?;
        }
    }
    Ok(rests)
}

/// Whether a row allows a value of the first variable.
fn is_open(row: &[Demand], value: u32) -> bool
    ensures { result ≡ is_open row.now value }
{
    match row {
        [] => true,
        [first, ..] => first.allows(value),
    }
}

/// What a row demands of the variables after the first.
fn rest_of(row: &[Demand]) -> &[Demand]
    ensures { result.now ≡ drop 1 row.now }
{
    match row {
        [] => row,
        [_, rest @ ..] => rest,
    }
}
