//! How large sets are.

ghost use Rattle.std.specs.Prelude.{◌≡◌, ◌<◌, [], ◌∷◌, ◌++◌, ◌≤◌, ◌↔◌, ℕ, List, nat_eq, true, IsTrue, length, map, All, IfOk, OnOk};
ghost use Rattle.std.specs.List.{list_any, flat_map};
ghost use Rattle.pc_diagram.specs.Rests.{size};
ghost use Rattle.pc_store.specs.Each.{NamesEach};
ghost use Rattle.pc_store.specs.Layered.{row_of, node_count, node_total, accepts, IsLayered};

use crate::layer::Layer;
use indexmap::IndexSet;
use pc_base::NoMemory;
use std::alloc::Global;

/// The node of each layer without words.
pub(crate) const EMPTY: u32 = 0;

/// The size of the set of a node of the first layer: how many nodes with words are reached from it, itself among them.
pub(crate) fn size_of(alloc: Global, layers: &[Layer], node: u32) -> Result<u64, NoMemory>
    requires layered { IsLayered layers.now }
    requires is_node { node < node_count layers.now }
    ensures { IfOk result (λ n. n ≡ size (map (λ layer. layer.domain) layers.now) (accepts layers.now node)) }
{
    let mut nodes = IndexSet::new(alloc);
    add_each(&mut nodes, &[node])?;
    let mut count = nodes.len() as u64;
    for layer in layers {
        nodes = children_of(alloc, layer, nodes.as_slice())?;
        count = count.checked_add(nodes.len() as u64).ok_or(NoMemory)?;
    }
    Ok(count)
}

/// Whether the size of the set of a node of the first layer is at most so many. Where the layers have no more nodes, none is
/// gone through.
pub(crate) fn is_size_within(
    alloc: Global,
    layers: &[Layer],
    node: u32,
    most: u64,
) -> Result<bool, NoMemory>
    requires layered { IsLayered layers.now }
    requires is_node { node < node_count layers.now }
    ensures { IfOk result (λ within. IsTrue within ↔ (size (map (λ layer. layer.domain) layers.now) (accepts layers.now node) ≤ most)) }
{
    if are_within(layers, most) {
        return Ok(true);
    }
    let size = size_of(alloc, layers, node)?;
    Ok(size <= most)
}

/// Whether the nodes of all layers are at most so many. Past the last layer stand two.
fn are_within(layers: &[Layer], most: u64) -> bool
    ensures { IsTrue result ↔ (node_total layers.now ≤ most) }
{
    let mut left = most;
    for layer in layers {
        let nodes = layer.table.len() as u64;
        if nodes > left {
            return false;
        }
        left -= nodes;
    }
    left >= 2
}

/// The children of nodes, but for the one without words, each once.
fn children_of(alloc: Global, layer: &Layer, nodes: &[u32]) -> Result<IndexSet<u32>, NoMemory>
    requires { All (λ node. node < length layer.now.table) nodes.now }
    ensures { IfOk result (λ children. NamesEach (flat_map (row_of layer.now) nodes.now) children.keys) }
{
    let mut children = IndexSet::new(alloc);
    for node in nodes {
        add_each(&mut children, layer.table.row(*node as usize))?;
    }
    Ok(children)
}

/// Puts nodes into a set, but for the one without words.
fn add_each(set: &mut IndexSet<u32>, nodes: &[u32]) -> Result<(), NoMemory>
    ensures { OnOk result ((before : List ℕ) → NamesEach before set.old.keys → NamesEach (before ++ nodes.now) set.new.keys) }
{
    let mut last = EMPTY;
    for node in nodes {
        add_after(set, last, *node)?;
        last = *node;
    }
    Ok(())
}

/// Puts a node into a set, unless it is the one without words, or one that was put before. That one is found without
/// its hash.
fn add_after(set: &mut IndexSet<u32>, last: u32, node: u32) -> Result<(), NoMemory>
    ensures { OnOk result ((before : List ℕ) → list_any (nat_eq last) (0 ∷ before) ≡ true → NamesEach before set.old.keys → NamesEach (before ++ node ∷ []) set.new.keys) }
{
    if node != last {
        add(set, node)?;
    }
    Ok(())
}

/// Puts a node into a set, unless it is the one without words.
fn add(set: &mut IndexSet<u32>, node: u32) -> Result<(), NoMemory>
    ensures { OnOk result ((before : List ℕ) → NamesEach before set.old.keys → NamesEach (before ++ node ∷ []) set.new.keys) }
{
    if node != EMPTY {
        set.insert(node)?;
    }
    Ok(())
}
