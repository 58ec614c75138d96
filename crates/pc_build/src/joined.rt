//! Several sets joined to one.

ghost use Rattle.std.specs.Prelude.{◌≡◌, ◌&&◌, ◌||◌, ℕ, List, All, IfOk};
ghost use Rattle.std.specs.List.{list_all, list_any};
ghost use Rattle.pc_diagram.specs.Words.{is_word};
ghost use Rattle.pc_store.specs.Sets.{domains_of, IsIdAt, has, Keeps};

use pc_apply::{and, or};
use pc_base::NoMemory;
use pc_store::{Id, Store};

/// The words that are in all sets.
pub(crate) fn all_of(store: &mut Store, sets: &[Id]) -> Result<Id, NoMemory>
    requires { All (IsIdAt store.old 0) sets.now }
    ensures is_id { IfOk result (IsIdAt store.new 0) }
    ensures set { IfOk result (λ id. (word : List ℕ) → has store.new id word ≡ (is_word (domains_of store.old) word && list_all (λ set. has store.old set word) sets.now)) }
    ensures keeps { Keeps store.old store.new }
{
    let mut all = store.full(0);
    for set in sets {
        all = and(store, all, *set)?;
    }
    Ok(all)
}

/// The words that are in some set.
pub(crate) fn any_of(store: &mut Store, sets: &[Id]) -> Result<Id, NoMemory>
    requires { All (IsIdAt store.old 0) sets.now }
    ensures is_id { IfOk result (IsIdAt store.new 0) }
    ensures set { IfOk result (λ id. (word : List ℕ) → has store.new id word ≡ list_any (λ set. has store.old set word) sets.now) }
    ensures keeps { Keeps store.old store.new }
{
    let mut any = store.empty(0);
    for set in sets {
        any = or(store, any, *set)?;
    }
    Ok(any)
}
