//! Sets that are built of many others.

ghost use Rattle.std.specs.Prelude.{◌≡◌, ◌<◌, ◌≤◌, ◌+◌, ◌*◌, length, All, IfOk};
ghost use Rattle.pc_store.specs.Sets.{domains_of, IsIdAt, Keeps};

use pc_apply::and;
use pc_base::NoMemory;
use pc_store::{Id, Store};
use std::alloc::Global;

/// A store over so many variables of so many values each.
pub fn store_of(alloc: Global, values: u32, variables: u32) -> Result<Store, NoMemory>
    requires values { (0 < values) × (values ≤ 64) }
    requires some { 0 < variables }
    requires few { variables ≤ 64 }
    ensures { IfOk result (λ store. length (domains_of store) ≡ variables) }
{
    let domains = vec![in alloc; values; variables as usize]?;
    Store::new(alloc, domains.as_slice())
}

/// The words over twice so many variables in which each of the first half takes the value of its fellow in the second.
pub fn same_pairs(store: &mut Store, pairs: u32) -> Result<Id, NoMemory>
    requires variables { length (domains_of store.old) ≡ 2 * pairs }
    requires few { pairs ≤ 32 }
    ensures is_id { IfOk result (IsIdAt store.new 0) }
{
    let mut all = store.full(0);
    for first in 0..pairs {
        let same = same(store, first, pairs + first)?;
        all = and(store, all, same)?;
    }
    Ok(all)
}

/// For each variable, the words in which it takes its first value.
pub fn first_values(store: &mut Store) -> Result<Vec<Id>, NoMemory>
    ensures is_id { IfOk result (λ ids. All (IsIdAt store.new 0) ids.items) }
{
    let variables = store.variables();
    let mut ids = Vec::with_capacity(store.allocator(), variables as usize)?;
    for variable in 0..variables {
        ids.push(takes_first(store, variable)?)?;
    }
    Ok(ids)
}

/// The words in which two variables of two values take the same one.
fn same(store: &mut Store, first: u32, second: u32) -> Result<Id, NoMemory>
    requires order { first < second }
    requires within { second < length (domains_of store.old) }
    requires small { second < 64 }
    ensures is_id { IfOk result (IsIdAt store.new 0) }
    ensures keeps { Keeps store.old store.new }
{
    let yes = store.full(second + 1);
    let no = store.empty(second + 1);
    let zero = branch(store, second, yes, no)?;
    let zero = widen(store, second, first + 1, zero)?;
    let other = branch(store, second, no, yes)?;
    let other = widen(store, second, first + 1, other)?;
    let both = branch(store, first, zero, other)?;
    widen(store, first, 0, both)
}

/// The words in which a variable takes its first value.
fn takes_first(store: &mut Store, variable: u32) -> Result<Id, NoMemory>
    requires within { variable < length (domains_of store.old) }
    requires small { variable < 64 }
    ensures is_id { IfOk result (IsIdAt store.new 0) }
    ensures keeps { Keeps store.old store.new }
{
    let yes = store.full(variable + 1);
    let no = store.empty(variable + 1);
    let set = branch(store, variable, yes, no)?;
    widen(store, variable, 0, set)
}

/// The words that go on in one set after the first value of a layer, and in another after any other.
fn branch(store: &mut Store, layer: u32, first: Id, others: Id) -> Result<Id, NoMemory>
    requires within { layer < length (domains_of store.old) }
    requires small { layer < 64 }
    requires first { IsIdAt store.old (layer + 1) first }
    requires others { IsIdAt store.old (layer + 1) others }
    ensures is_id { IfOk result (IsIdAt store.new layer) }
    ensures keeps { Keeps store.old store.new }
{
    let mut children = [others; 64];
    children[0] = first;
    let count = store.domain(layer) as usize;
    store.node(layer, &children[..count])
}

/// The words that go on in a set whatever the variables between take.
fn widen(store: &mut Store, from: u32, to: u32, id: Id) -> Result<Id, NoMemory>
    requires order { to ≤ from }
    requires within { from ≤ length (domains_of store.old) }
    requires small { from ≤ 64 }
    requires known { IsIdAt store.old from id }
    ensures is_id { IfOk result (IsIdAt store.new to) }
    ensures keeps { Keeps store.old store.new }
{
    let mut wide = id;
    for step in 0..from - to {
        wide = branch(store, from - 1 - step, wide, wide)?;
    }
    Ok(wide)
}
