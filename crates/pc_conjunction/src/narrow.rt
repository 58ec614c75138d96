//! Layers whose places have only the words of a set.

ghost use Rattle.std.specs.Prelude.{◌≡◌, ◌<◌, ◌≤◌, ◌+◌, ◌∷◌, length, reverse, IfSome, OnOk};
ghost use Rattle.pc_store.specs.Sets.{domains_of, IsIdAt};
ghost use Rattle.pc_conjunction.specs.Meets.{IsBelow, Narrows, IsOnlyChild};
ghost use Rattle.pc_conjunction.specs.Places.{place_count};

use crate::append::{append, count_of};
use crate::layer::Layer;
use indexmap::IndexSet;
use pc_base::{NoMemory, Sequence};
use pc_diagram::MOST_VARIABLES;
use pc_store::{Id, Store};

/// Leaves each place of a layer the words of a set alone. The layers above the first at which the set asks for a value
/// stay as they are, and so do those below the last. The last one of the variables stands first.
pub(crate) fn narrow(
    store: &Store,
    layer: u32,
    layers: &mut Sequence<Layer>,
    set: Id,
) -> Result<(), NoMemory>
    requires layer { layer + length layers.old ≡ length (domains_of store.now) }
    requires inner { layer < length (domains_of store.now) }
    requires few { length (domains_of store.now) ≤ MOST_VARIABLES }
    requires below { IsBelow store.now layer (place_count (reverse layers.old)) (reverse layers.old) }
    requires set { IsIdAt store.now layer set }
    ensures { OnOk result (Narrows store.now set (reverse layers.old) (reverse layers.new)) }
{
    match layers.pop() {
        None => Ok(()),
        Some(first) => match only_child(store, layer, set) {
            None => cut_over(store, layer, layers, first, set),
            Some(child) => {
                narrow(store, layer + 1, layers, child)?;
                layers.push(first)?;
                Ok(())
            }
        },
    }
}

/// The same where the first layer was taken off, which is cut and put back.
fn cut_over(
    store: &Store,
    layer: u32,
    layers: &mut Sequence<Layer>,
    first: Layer,
    set: Id,
) -> Result<(), NoMemory>
    requires layer { layer + 1 + length layers.old ≡ length (domains_of store.now) }
    requires few { length (domains_of store.now) ≤ MOST_VARIABLES }
    requires below { IsBelow store.now layer first.count (first ∷ reverse layers.old) }
    requires set { IsIdAt store.now layer set }
    ensures { OnOk result (Narrows store.now set (first ∷ reverse layers.old) (reverse layers.new)) }
{
    let mut cut = first;
    let mut next = IndexSet::new(store.allocator());
    let count = count_of(layers.as_slice());
    cut.cut(store, layer, set, count, &mut next)?;
    append(store, layer + 1, layers, next.as_slice())?;
    layers.push(cut)?;
    Ok(())
}

/// The one set that the words of a set go on in, whatever value they begin with, if there is one before the last layer.
fn only_child(store: &Store, layer: u32, set: Id) -> Option<Id>
    requires inner { layer < length (domains_of store.now) }
    requires few { length (domains_of store.now) ≤ MOST_VARIABLES }
    requires set { IsIdAt store.now layer set }
    ensures { IfSome result (IsOnlyChild store.now layer set) }
{
    if layer + 1 == store.variables() {
        return None;
    }
    let domain = store.domain(layer);
    let first = store.child(set, 0);
    for value in 1..domain {
        if !store.same_set(store.child(set, value), first) {
            return None;
        }
    }
    Some(first)
}
