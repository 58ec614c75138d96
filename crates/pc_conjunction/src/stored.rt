//! Layers of places as sets of a store.

ghost use Rattle.std.specs.Prelude.{◌≡◌, ◌<◌, ◌≤◌, ◌+◌, [], ℕ, List, Bool, length, reverse, slice_index, drop, All, IfOk, OnOk};
ghost use Rattle.pc_store.specs.Sets.{domains_of, IsIdAt, has, leads, Keeps};
ghost use Rattle.pc_conjunction.specs.Conjunctions.{IsConjunction};
ghost use Rattle.pc_conjunction.specs.Meets.{IsBelow};
ghost use Rattle.pc_conjunction.specs.Places.{IsColumn, domains, place_count, accepts};
ghost use Rattle.pc_conjunction.specs.Stores.{ArePlaces, AreOver, goes_on};

use crate::append::count_of;
use crate::layer::Layer;
use crate::reached::{is_reached, reached_below};
use pc_base::{NoMemory, Sequence};
use pc_diagram::MOST_VARIABLES;
use pc_store::{Id, Store};
use std::alloc::Global;

/// A set, and the store that keeps it.
#[derive(Debug, Drop)]
pub struct Stored {
    pub store: Store,
    pub set: Id,
}

/// The set of place 1 of the first layer, in a store of its own. The layer of the last variable stands first.
pub(crate) fn stored_layers(alloc: Global, layers: &[Layer]) -> Result<Stored, NoMemory>
    requires { IsConjunction (reverse layers.now) }
    ensures domains { IfOk result (λ stored. domains_of stored.store ≡ domains (reverse layers.now)) }
    ensures is_id { IfOk result (λ stored. IsIdAt stored.store 0 stored.set) }
    ensures words { IfOk result (λ stored. (word : List ℕ) → has stored.store stored.set word ≡ accepts (reverse layers.now) 1 word) }
{
    let domains = values_of(alloc, layers)?;
    let mut store = Store::new(alloc, domains.as_slice())?;
    // Place 1 alone is reached.
    let marks = [false, true];
    let sets = sets_of_places(&mut store, 0, layers, &marks)?;
    Ok(Stored {
        store,
        set: sets.as_slice()[1],
    })
}

/// How many values the variable of each layer takes. The layer of the last variable stands first.
fn values_of(alloc: Global, layers: &[Layer]) -> Result<Sequence<u32>, NoMemory>
    requires { IsConjunction (reverse layers.now) }
    ensures { IfOk result (λ found. found ≡ domains (reverse layers.now)) }
{
    let mut domains = Sequence::with_capacity(alloc, layers.len())?;
    for place in 0..layers.len() {
        let layer = &layers[layers.len() - 1 - place];
        domains.push(layer.columns.len() as u32)?;
    }
    Ok(domains)
}

/// The set of each marked place of the first of these layers, and some set for each other one. The layer of the last
/// variable stands first.
fn sets_of_places(
    store: &mut Store,
    layer: u32,
    layers: &[Layer],
    marks: &[bool],
) -> Result<Sequence<Id>, NoMemory>
    requires layer { layer + length layers.now ≡ length (domains_of store.old) }
    requires few { length (domains_of store.old) ≤ MOST_VARIABLES }
    requires below { IsBelow store.old layer (place_count (reverse layers.now)) (reverse layers.now) }
    ensures sets { IfOk result (ArePlaces store.new layer (reverse layers.now) marks.now) }
    ensures keeps { Keeps store.old store.new }
{
    match layers.split_last() {
        None => sets_past_the_last(store, layer),
        Some((first, below)) => {
            let columns = first.columns.as_slice();
            let reached = reached_below(store.allocator(), marks, columns, count_of(below))?;
            let sets = sets_of_places(store, layer + 1, below, reached.as_slice())?;
            let over = sets_over(store, layer, first.count, columns, sets.as_slice(), marks)?;
            Ok(over)
        }
    }
}

/// The sets of the two places past the last layer.
fn sets_past_the_last(store: &Store, layer: u32) -> Result<Sequence<Id>, NoMemory>
    requires { layer ≡ length (domains_of store.now) }
    ensures { IfOk result (λ sets. (marks : List Bool) → ArePlaces store.now layer [] marks sets) }
{
    let sets = [store.empty(layer), store.full(layer)];
    Sequence::from_slice(store.allocator(), &sets)
}

/// The set of each of so many places of a layer that is marked, over those of the places of the next. The others get the
/// set without words.
fn sets_over(
    store: &mut Store,
    layer: u32,
    count: u32,
    columns: &[Sequence<u32>],
    below: &[Id],
    marks: &[bool],
) -> Result<Sequence<Id>, NoMemory>
    requires inner { layer < length (domains_of store.old) }
    requires columns { All (IsColumn count (length below.now)) columns.now }
    requires width { length columns.now ≡ slice_index (domains_of store.old) layer }
    requires below { All (IsIdAt store.old (layer + 1)) below.now }
    ensures sets { IfOk result (AreOver store.old store.new layer columns.now below.now marks.now count) }
    ensures keeps { Keeps store.old store.new }
{
    let mut sets = Sequence::with_capacity(store.allocator(), count as usize)?;
    let mut children = Vec::with_capacity(store.allocator(), columns.len())?;
    let empty = store.empty(layer);
    for place in 0..count {
        if is_reached(marks, place as usize) {
            pick(&mut children, columns, place, count, below)?;
            sets.push(store.node(layer, children.as_slice())?)?;
        } else {
            sets.push(empty)?;
        }
    }
    Ok(sets)
}

/// Picks the sets that a place of so many goes on in.
fn pick(
    children: &mut Vec<Id>,
    columns: &[Sequence<u32>],
    place: u32,
    count: u32,
    below: &[Id],
) -> Result<(), NoMemory>
    requires columns { All (IsColumn count (length below.now)) columns.now }
    requires place { place < count }
    ensures { OnOk result (children.new.items ≡ goes_on columns.now below.now place) }
{
    children.clear();
    for column in columns {
        children.push(below[column.as_slice()[place as usize] as usize])?;
    }
    Ok(())
}
