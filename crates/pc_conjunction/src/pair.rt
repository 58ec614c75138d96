//! Places of which only the words of a set are wanted.

ghost use Rattle.std.specs.Prelude.{◌≡◌, ◌<◌, ◌≤◌, ◌↔◌, ℕ, List, length, IsTrue, IfOk, OnOk};
ghost use Rattle.pc_store.specs.Sets.{domains_of, IsNodeAt};
ghost use Rattle.pc_conjunction.specs.declared.layer.Layer.{Layer};
ghost use Rattle.pc_conjunction.specs.Meets.{IsBelow, Meets, MorePairs, StandsAt, in_node};

use indexmap::IndexSet;
use pc_base::NoMemory;
use pc_store::{Node, Store};

/// The place of each layer without words.
pub(crate) const NO_WORDS: u32 = 0;

/// A place of a layer, and the set of the same layer whose words are wanted of it.
#[derive(Clone, Copy, Debug, PartialEq, Eq, Hash)]
pub(crate) struct Pair {
    pub place: u32,
    pub node: Node,
}

/// The place of the words of a pair, in a layer with so many places: a place that is there if the pair has all words or
/// none of its place, else the place that it gets after them. Where it has the place `near`, it is found without its hash.
pub(crate) fn target(
    store: &Store,
    layer: u32,
    count: u32,
    pairs: &mut IndexSet<Pair>,
    pair: Pair,
    near: u32,
) -> Result<u32, NoMemory>
    requires layer { layer ≤ length (domains_of store.now) }
    requires place { pair.place < count }
    requires node { IsNodeAt store.now layer pair.node }
    ensures meets { IfOk result (λ target. (layers : List Layer) → IsBelow store.now layer count layers → Meets store.now layer layers pairs.new.keys pair.place (in_node store.now layer pair) target) }
    ensures empty { IfOk result (λ target. pair.place ≡ 0 → target ≡ 0) }
    ensures pairs { OnOk result (MorePairs store.now layer count pairs.old.keys pairs.new.keys) }
{
    if pair.place == NO_WORDS {
        return Ok(NO_WORDS);
    }
    let set = pair.node.at(layer);
    if store.same_set(set, store.empty(layer)) {
        return Ok(NO_WORDS);
    }
    if store.same_set(set, store.full(layer)) {
        return Ok(pair.place);
    }
    if stands_at(pairs, count, near, pair) {
        return Ok(near);
    }
    let (place, _) = pairs.insert_full(pair)?;
    if place > (u32::MAX - count) as usize {
        return Err(NoMemory);
    }
    Ok(place as u32 + count)
}

/// Whether a pair has a place of a layer, after so many places that are there.
fn stands_at(pairs: &IndexSet<Pair>, count: u32, place: u32, pair: Pair) -> bool
    ensures { IsTrue result ↔ StandsAt count pairs.now.keys place pair }
{
    if place < count {
        return false;
    }
    match pairs.get_index((place - count) as usize) {
        Some(other) => pair == *other,
        None => false,
    }
}
