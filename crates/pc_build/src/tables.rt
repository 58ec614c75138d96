//! The tables of the diagram of a set.

ghost use Rattle.std.specs.Prelude.{◌≡◌, ◌<◌, ◌≤◌, ◌+◌, ℕ, List, true, length, IfOk};
ghost use Rattle.pc_diagram.specs.Diagram.{IsCanonical};
ghost use Rattle.pc_diagram.specs.Paths.{has_word};
ghost use Rattle.pc_diagram.specs.Rests.{size};
ghost use Rattle.pc_store.specs.Sets.{domains_of, IsIdAt, has};

use crate::edges::{Edges, edges_of};
use indexmap::IndexSet;
use pc_base::{NoMemory, Sequence};
use pc_diagram::{MOST_NODES, RawDiagram};
use pc_store::{Id, Store, number};

/// The tables of the diagram of a set that has a word. Each layer has the nodes that the words of the set lead to, in
/// the order in which they are first met, so its tables are those of the canonical diagram.
pub(crate) fn tables_of(store: &Store, set: Id) -> Result<RawDiagram, NoMemory>
    requires set { IsIdAt store.now 0 set }
    requires some { (word : List ℕ) × (has store.now set word ≡ true) }
    ensures domains { IfOk result (λ raw. raw.domains ≡ domains_of store.now) }
    ensures words { IfOk result (λ raw. (word : List ℕ) → has_word raw word ≡ has store.now set word) }
    ensures canonical { IfOk result (λ raw. size (domains_of store.now) (has store.now set) ≤ MOST_NODES → IsCanonical raw) }
{
    let alloc = store.allocator();
    let mut raw = RawDiagram {
        domains: Sequence::new(alloc),
        sizes: Sequence::new(alloc),
        edges: Sequence::new(alloc),
    };
    let mut nodes = IndexSet::new(alloc);
    nodes.insert(set.node())?;
    raw.sizes.push(1)?;
    for layer in 0..store.variables() {
        let Edges { edges, nodes: next } = edges_of(alloc, store, layer, nodes.as_slice())?;
        raw.domains.push(store.domain(layer))?;
        raw.sizes.push(number(next.len())?)?;
        raw.edges.push(edges)?;
        nodes = next;
    }
    Ok(raw)
}
