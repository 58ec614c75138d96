//! Sets past the last variable, and sets of all words or none.

ghost use Rattle.std.specs.Prelude.{◌≡◌, ◌≤◌, ◌&&◌, ℕ, List, [], length, drop};
ghost use Rattle.pc_diagram.specs.Words.{is_word};
ghost use Rattle.pc_store.specs.Sets.{domains_of, IsIdAt, has};

use pc_store::{Id, Store};

/// Whether a set past the last variable has the empty word.
pub(crate) fn has_empty_word(store: &Store, set: Id) -> bool
    requires { IsIdAt store.now (length (domains_of store.now)) set }
    ensures { result ≡ has store.now set [] }
{
    store.same_set(set, store.full_end())
}

/// The set of all words of a layer, or of none.
pub(crate) fn all_or_none(store: &Store, layer: u32, all: bool) -> Id
    requires { layer ≤ length (domains_of store.now) }
    ensures is_id { IsIdAt store.now layer result }
    ensures set { (word : List ℕ) → has store.now result word ≡ (all && is_word (drop layer (domains_of store.now)) word) }
{
    if all {
        store.full(layer)
    } else {
        store.empty(layer)
    }
}
