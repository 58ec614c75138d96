//! Places for pairs, in a layer and in all below it.

ghost use Rattle.std.specs.Prelude.{◌≡◌, ◌+◌, ◌≤◌, [], length, reverse, OnOk};
ghost use Rattle.pc_store.specs.Sets.{domains_of};
ghost use Rattle.pc_conjunction.specs.Meets.{IsBelow, ArePairs, Extends};
ghost use Rattle.pc_conjunction.specs.Places.{place_count};

use crate::layer::Layer;
use crate::pair::Pair;
use indexmap::IndexSet;
use pc_base::{NoMemory, Sequence};
use pc_diagram::MOST_VARIABLES;
use pc_store::Store;

/// How many places there are past the last layer.
const END_PLACES: u32 = 2;

/// How many places the first of these layers has. The last one of the variables stands first.
pub(crate) fn count_of(layers: &[Layer]) -> u32
    ensures { result ≡ place_count (reverse layers.now) }
{
    match layers {
        [] => END_PLACES,
        [.., first] => first.count,
    }
}

/// Adds a place for each pair of a layer, and for what the pairs go on with in those below. The last one of the
/// variables stands first.
pub(crate) fn append(
    store: &Store,
    layer: u32,
    layers: &mut Sequence<Layer>,
    pairs: &[Pair],
) -> Result<(), NoMemory>
    requires layer { layer + length layers.old ≡ length (domains_of store.now) }
    requires few { length (domains_of store.now) ≤ MOST_VARIABLES }
    requires below { IsBelow store.now layer (place_count (reverse layers.old)) (reverse layers.old) }
    requires pairs { ArePairs store.now layer (place_count (reverse layers.old)) pairs.now }
    requires at_end { layer ≡ length (domains_of store.now) → pairs.now ≡ [] }
    ensures { OnOk result (Extends store.now layer (reverse layers.old) (reverse layers.new) pairs.now) }
{
    if pairs.is_empty() {
        return Ok(());
    }
    match layers.pop() {
        None => Ok(()),
        Some(first) => {
            let mut grown = first;
            let mut next = IndexSet::new(store.allocator());
            let count = count_of(layers.as_slice());
            grown.add_pairs(store, layer, pairs, count, &mut next)?;
            append(store, layer + 1, layers, next.as_slice())?;
            layers.push(grown)?;
            Ok(())
        }
    }
}
