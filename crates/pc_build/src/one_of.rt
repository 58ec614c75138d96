//! The words that take one of some values.

ghost use Rattle.std.specs.Prelude.{◌≡◌, ◌<◌, ◌≤◌, ◌-◌, ◌&&◌, ℕ, List, drop, length, IfOk};
ghost use Rattle.std.specs.List.{list_any};
ghost use Rattle.pc_diagram.specs.Words.{is_word};
ghost use Rattle.pc_diagram.specs.Fitting.{takes};
ghost use Rattle.pc_store.specs.Sets.{domains_of, IsIdAt, has, Keeps};

use crate::chain::{branch, layer_after, widen};
use pc_base::NoMemory;
use pc_store::{Id, Store};

/// The words that take one of these values at a variable. Values that the variable doesn't have are taken by no word.
/// Want of memory leaves the store as it was but for more nodes.
pub(crate) fn takes_one_of(store: &mut Store, variable: u32, values: &[u32]) -> Result<Id, NoMemory>
    requires { variable < length (domains_of store.old) }
    ensures is_id { IfOk result (IsIdAt store.new 0) }
    ensures set { IfOk result (λ id. (word : List ℕ) → has store.new id word ≡ (is_word (domains_of store.old) word && list_any (takes word variable) values.now)) }
    ensures keeps { Keeps store.old store.new }
{
    takes_one_from(store, 0, variable, values)
}

/// The words of a layer that take one of these values at a variable, which is counted from the first layer.
pub(crate) fn takes_one_from(
    store: &mut Store,
    layer: u32,
    variable: u32,
    values: &[u32],
) -> Result<Id, NoMemory>
    requires order { layer ≤ variable }
    requires inner { variable < length (domains_of store.old) }
    ensures is_id { IfOk result (IsIdAt store.new layer) }
    ensures set { IfOk result (λ id. (word : List ℕ) → has store.new id word ≡ (is_word (drop layer (domains_of store.old)) word && list_any (takes word (variable - layer)) values.now)) }
    ensures keeps { Keeps store.old store.new }
{
    let rest = store.full(layer_after(store, variable));
    let set = branch(store, variable, values, rest)?;
    widen(store, variable, layer, set)
}
