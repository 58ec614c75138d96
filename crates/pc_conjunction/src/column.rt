//! Where the places of a layer go on after one value.

ghost use Rattle.std.specs.Prelude.{◌≡◌, ◌<◌, ◌≤◌, ◌+◌, ℕ, List, ◌∷◌, length, slice_index, slice_index_or, All, IfOk, OnOk};
ghost use Rattle.pc_store.specs.Sets.{domains_of, IsNodeAt, has, id_at};
ghost use Rattle.pc_conjunction.specs.declared.layer.Layer.{Layer};
ghost use Rattle.pc_conjunction.specs.Meets.{IsBelow, ArePairs, MorePairs, GrownColumn, CutColumn};

use crate::pair::{NO_WORDS, Pair, target};
use indexmap::IndexSet;
use pc_base::{NoMemory, Sequence};
use pc_diagram::MOST_VARIABLES;
use pc_store::{Node, Store};

/// Puts an entry at the end of a column for each pair of its layer. The next layer has so many places, and its pairs are
/// put where they aren't there. A pair is first looked for where it goes on by another column, that of the value before.
pub(crate) fn add_entries(
    column: &mut Sequence<u32>,
    before: &[u32],
    store: &Store,
    layer: u32,
    value: u32,
    pairs: &[Pair],
    count: u32,
    next: &mut IndexSet<Pair>,
) -> Result<(), NoMemory>
    requires inner { layer < length (domains_of store.now) }
    requires few { length (domains_of store.now) ≤ MOST_VARIABLES }
    requires value { value < slice_index (domains_of store.now) layer }
    requires pairs { ArePairs store.now layer (length column.old) pairs.now }
    requires within { All (λ place. place < count) column.old }
    ensures grown { OnOk result ((layers : List Layer) → IsBelow store.now (layer + 1) count layers → GrownColumn store.now layer layers value pairs.now next.new.keys column.old column.new) }
    ensures next { OnOk result (MorePairs store.now (layer + 1) count next.old.keys next.new.keys) }
{
    for pair in pairs {
        let next_pair = Pair {
            place: column.as_slice()[pair.place as usize],
            node: store.child(pair.node.at(layer), value).node(),
        };
        let near = entry_near(before, column.len());
        column.push(target(store, layer + 1, count, next, next_pair, near)?)?;
    }
    Ok(())
}

/// The same entries, but that each goes on in a set of the next layer, which has so many places. They stay as they are
/// where that set is the one of all words. A pair is first looked for where its place goes on by another column, that
/// of the value before.
pub(crate) fn cut_entries(
    column: &[u32],
    before: &[u32],
    store: &Store,
    layer: u32,
    node: Node,
    count: u32,
    next: &mut IndexSet<Pair>,
) -> Result<Sequence<u32>, NoMemory>
    requires layer { layer ≤ length (domains_of store.now) }
    requires node { IsNodeAt store.now layer node }
    requires within { All (λ place. place < count) column.now }
    ensures cut { IfOk result (λ cut. (layers : List Layer) → IsBelow store.now layer count layers → CutColumn store.now layer layers (λ word. has store.now (id_at layer node) word) next.new.keys column.now cut) }
    ensures next { OnOk result (MorePairs store.now layer count next.old.keys next.new.keys) }
{
    if store.same_set(node.at(layer), store.full(layer)) {
        let whole = Sequence::from_slice(store.allocator(), column)?;
        return Ok(whole);
    }
    let mut cut = Sequence::with_capacity(store.allocator(), column.len())?;
    for place in column {
        let pair = Pair {
            place: *place,
            node,
        };
        let near = entry_near(before, cut.len());
        cut.push(target(store, layer, count, next, pair, near)?)?;
    }
    Ok(cut)
}

/// Where a place goes on by a column. Past its end stands place 0.
fn entry_near(column: &[u32], place: usize) -> u32
    ensures { result ≡ slice_index_or column.now place 0 }
{
    match column.get(place) {
        Some(entry) => *entry,
        None => NO_WORDS,
    }
}
