//! The edges of one layer of a diagram.

ghost use Rattle.std.specs.Prelude.{◌≡◌, ◌<◌, ◌≤◌, ◌+◌, ◌++◌, [], ◌∷◌, ℕ, List, Some, All, length, slice_index, slice_get, IfOk, OnOk};
ghost use Rattle.pc_store.specs.declared.id.Node.{Node};
ghost use Rattle.pc_store.specs.Sets.{domains_of, IsNodeAt};
ghost use Rattle.pc_build.specs.Extracts.{AreEdges, Extracts};

use indexmap::IndexSet;
use pc_base::{NoMemory, Sequence};
use pc_diagram::MOST_VARIABLES;
use pc_store::{Children, Node, Store, number};
use std::alloc::Global;

/// The edges of the nodes of a layer, by node and then by value, and the nodes of the next layer that they lead to, in
/// the order in which they are first met. A node's place is its number.
#[derive(Debug, Drop)]
pub(crate) struct Edges {
    pub edges: Sequence<Option<u32>>,
    pub nodes: IndexSet<Node>,
}

impl Edges {
    /// An edge for each child of a set, in order. The children are of this layer.
    fn add_all(
        &mut self,
        store: &Store,
        layer: u32,
        children: &Children<'_>,
        count: u32,
    ) -> Result<(), NoMemory>
        requires layer { layer ≤ length (domains_of store.now) }
        requires count { length children.now ≡ count }
        requires nodes { (value : ℕ) (child : Node) → slice_get children.now value ≡ Some child → IsNodeAt store.now layer child }
        ensures { OnOk result ((before : List Node) → AreEdges store.now layer before self.old.nodes.keys self.old.edges → AreEdges store.now layer (before ++ children.now) self.new.nodes.keys self.new.edges) }
    {
        for value in 0..count {
            self.add(store, layer, children.node(value))?;
        }
        Ok(())
    }

    /// An edge to a child. A node that isn't there yet goes to the end. No edge leads to the set without words.
    fn add(&mut self, store: &Store, layer: u32, child: Node) -> Result<(), NoMemory>
        requires layer { layer ≤ length (domains_of store.now) }
        requires child { IsNodeAt store.now layer child }
        ensures { OnOk result ((before : List Node) → AreEdges store.now layer before self.old.nodes.keys self.old.edges → AreEdges store.now layer (before ++ child ∷ []) self.new.nodes.keys self.new.edges) }
    {
        if store.same_set(child.at(layer), store.empty(layer)) {
            self.edges.push(None)?;
        } else {
            let (place, _) = self.nodes.insert_full(child)?;
            self.edges.push(Some(number(place)?))?;
        }
        Ok(())
    }
}

/// The edges of these nodes of a layer before the last.
pub(crate) fn edges_of(
    alloc: Global,
    store: &Store,
    layer: u32,
    nodes: &[Node],
) -> Result<Edges, NoMemory>
    requires inner { layer < length (domains_of store.now) }
    requires few { layer < MOST_VARIABLES }
    requires nodes { All (IsNodeAt store.now layer) nodes.now }
    ensures { IfOk result (λ found. Extracts store.now layer nodes.now found.nodes.keys found.edges) }
{
    let mut found = Edges {
        edges: Sequence::new(alloc),
        nodes: IndexSet::new(alloc),
    };
    for node in nodes {
        let children = store.children(layer, *node);
        found.add_all(store, layer + 1, &children, store.domain(layer))?;
    }
    Ok(found)
}
