//! The diagram of a set.

ghost use Rattle.std.specs.Prelude.{◌≡◌, ◌≤◌, ℕ, List, true, IfOk, IfErr};
ghost use Rattle.pc_diagram.specs.Diagram.{IsCanonical};
ghost use Rattle.pc_diagram.specs.Paths.{has_word};
ghost use Rattle.pc_diagram.specs.Rests.{size};
ghost use Rattle.pc_store.specs.Sets.{domains_of, IsIdAt, has};

use crate::tables::tables_of;
use pc_diagram::{Diagram, DiagramFault, MOST_NODES};
use pc_store::{Id, Store};

/// The canonical diagram of a set that has a word and is not too large. It takes time and memory by its edges. Nothing
/// can be wanting but memory.
pub(crate) fn diagram_of(store: &Store, set: Id) -> Result<Diagram, DiagramFault>
    requires set { IsIdAt store.now 0 set }
    requires some { (word : List ℕ) × (has store.now set word ≡ true) }
    requires few { size (domains_of store.now) (has store.now set) ≤ MOST_NODES }
    ensures domains { IfOk result (λ diagram. diagram.domains ≡ domains_of store.now) }
    ensures words { IfOk result (λ diagram. (word : List ℕ) → has_word diagram word ≡ has store.now set word) }
    ensures canonical { IfOk result (λ diagram. IsCanonical diagram) }
    ensures memory { IfErr result (λ fault. fault ≡ DiagramFault.NoMemory) }
{
    let raw = tables_of(store, set)?;
    Diagram::check(store.allocator(), raw)
}
