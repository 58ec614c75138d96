//! The store.

ghost use Rattle.std.specs.Prelude.{◌≡◌, ◌<◌, ◌≤◌, ◌+◌, ◌↔◌, ℕ, List, [], ◌∷◌, length, map, take, drop, slice_index, All, true, false, IsTrue, IfOk, OnErr};
ghost use Rattle.pc_diagram.specs.Rests.{size};
ghost use Rattle.pc_diagram.specs.Words.{is_word};

use crate::children::Children;
use crate::id::{Id, Node, write_nodes};
use crate::layer::{Layer, intern_at, new_layers};
use crate::size::{EMPTY, is_size_within, size_of};
use crate::table::Row;
use pc_base::NoMemory;
use pc_diagram::MOST_VARIABLES;
use smallvec::SmallVec;
use std::alloc::Global;
use std::marker::Model;

/// The node of each layer with every word.
const FULL: u32 = 1;

/// Sets of words over the numbers of values of 1 to 64 variables, kept as the nodes of layered decision diagrams. Each
/// node stands once, so ids of one layer are equal exactly where their sets are. The ids handed to a call are this
/// store's own.
#[derive(Debug, Drop)]
pub struct Store {
    layers: Vec<Layer>,

    // The row that is looked up, so that a look-up takes no memory.
    row: Row,
}

impl Model for Store {
    ghost use Rattle.std.specs.Prelude.{List};
    ghost use Rattle.pc_store.specs.declared.layer.Layer.{Layer};

    ghost Value = { List Layer };

    ghost use Rattle.pc_store.specs.Layered.{IsStore};

    ghost view = { λ s. s.layers.items };

    ghost invariant = { λ s. IsStore s.layers.items };
}

impl Store {
    ghost use Rattle.pc_store.specs.declared.id.Id.{Id};
    ghost use Rattle.pc_store.specs.Layered.{IsDomain, new_layer};
    ghost use Rattle.pc_store.specs.Sets.{domains_of, layer_of, IsId, IsIdAt, IsNodeAt, has, leads, AreChildren, SameWords, Keeps};

    /// A store over variables that take so many values, from 1 to 64, in order.
    pub fn new(alloc: Global, domains: &[u32]) -> Result<Store, NoMemory>
        requires some { 0 < length domains.now }
        requires few { length domains.now ≤ MOST_VARIABLES }
        requires sizes { All IsDomain domains.now }
        ensures { IfOk result (λ store. domains_of store ≡ domains.now) }
    {
        Ok(Store {
            layers: new_layers(alloc, domains)?,
            row: SmallVec::new(alloc),
        })
    }

    /// The allocator that the store takes its memory from.
    pub fn allocator(&self) -> Global {
        *self.layers.allocator()
    }

    /// How many variables there are. The layer past the last is the greatest.
    pub fn variables(&self) -> u32
        ensures count { result ≡ length (domains_of self.now) }
        ensures some { 0 < result }
        ensures few { result ≤ MOST_VARIABLES }
    {
        self.layers.len() as u32
    }

    /// How many values the variable of a layer takes.
    pub fn domain(&self, layer: u32) -> u32
        requires { layer < length (domains_of self.now) }
        ensures domain { result ≡ slice_index (domains_of self.now) layer }
        ensures is_domain { IsDomain result }
    {
        self.layers[layer as usize].domain
    }

    /// The set without words, at a layer.
    pub fn empty(&self, layer: u32) -> Id
        requires { layer ≤ length (domains_of self.now) }
        ensures is_id { IsIdAt self.now layer result }
        ensures set { (word : List ℕ) → has self.now result word ≡ false }
    {
        // The proof reads here what holds of every store.
        let _layers = &self.layers;
        Id { layer, node: EMPTY }
    }

    /// The set of all words over the variables from a layer on.
    pub fn full(&self, layer: u32) -> Id
        requires { layer ≤ length (domains_of self.now) }
        ensures is_id { IsIdAt self.now layer result }
        ensures set { (word : List ℕ) → has self.now result word ≡ is_word (drop layer (domains_of self.now)) word }
        // No set of the layer has other words.
        ensures most { (other : Id) → IsIdAt self.now layer other → (word : List ℕ) → has self.now other word ≡ true
            → is_word (drop layer (domains_of self.now)) word ≡ true }
    {
        // The proof reads here what holds of every store.
        let _layers = &self.layers;
        Id { layer, node: FULL }
    }

    /// The set of the empty word alone, past the last variable.
    pub fn full_end(&self) -> Id
        ensures is_id { IsIdAt self.now (length (domains_of self.now)) result }
        ensures set { (word : List ℕ) → IsTrue (has self.now result word) ↔ (word ≡ []) }
        ensures only { (other : Id) → IsIdAt self.now (length (domains_of self.now)) other → (word : List ℕ)
            → has self.now other word ≡ true → word ≡ [] }
    {
        self.full(self.variables())
    }

    /// The set of the words that begin with a value and go on in the set of the child for it. Want of memory leaves the
    /// store as it was; it is also the answer where a layer has 2^32 nodes.
    pub fn node(&mut self, layer: u32, children: &[Id]) -> Result<Id, NoMemory>
        requires inner { layer < length (domains_of self.old) }
        requires width { length children.now ≡ slice_index (domains_of self.old) layer }
        requires below { All (IsIdAt self.old (layer + 1)) children.now }
        ensures is_id { IfOk result (IsIdAt self.new layer) }
        ensures set { IfOk result (λ id. (word : List ℕ) → has self.new id word ≡ leads self.old children.now word) }
        // Equal sets have equal ids.
        ensures only { IfOk result (λ id. (other : Id) → IsIdAt self.new layer other → SameWords self.new other id
            → other ≡ id) }
        ensures keeps { Keeps self.old self.new }
        ensures err { OnErr result (self.new ≡ self.old) }
    {
        write_nodes(&mut self.row, children)?;
        let node = intern_at(&mut self.layers, layer as usize, &self.row)?;
        Ok(Id { layer, node })
    }

    /// The set of what words of this set go on with after a value.
    pub fn child(&self, id: Id, value: u32) -> Id
        requires known { IsId self.now id }
        requires inner { layer_of id < length (domains_of self.now) }
        requires in_range { value < slice_index (domains_of self.now) (layer_of id) }
        ensures is_id { IsIdAt self.now (layer_of id + 1) result }
        ensures set { (word : List ℕ) → has self.now result word ≡ has self.now id (value ∷ word) }
    {
        let row = self.layers[id.layer as usize].table.row(id.node as usize);
        Id {
            layer: id.layer + 1,
            node: row[value as usize],
        }
    }

    /// What words of a set go on with, for all values at once. The set is given by its layer and its node.
    pub fn children(&self, layer: u32, node: Node) -> Children<'_>
        requires known { IsNodeAt self.now layer node }
        requires inner { layer < length (domains_of self.now) }
        ensures { AreChildren self.now layer node result }
    {
        Children::new(self.layers[layer as usize].table.row(node.number as usize))
    }

    /// The size of a set: how many different non-empty rests its beginnings have, from the empty one to whole words. It
    /// is the number of nodes of the set's own diagram, and 0 of the set without words.
    pub fn size(&self, id: Id) -> Result<u64, NoMemory>
        requires { IsId self.now id }
        ensures { IfOk result (λ n. n ≡ size (drop (layer_of id) (domains_of self.now)) (has self.now id)) }
    {
        let (_, layers) = self.layers.as_slice().split_at(id.layer as usize);
        size_of(self.allocator(), layers, id.node)
    }

    /// Whether the size of a set is at most so many. It takes no time by the set where the whole store has no more nodes.
    pub fn is_size_within(&self, id: Id, most: u64) -> Result<bool, NoMemory>
        requires { IsId self.now id }
        ensures { IfOk result (λ within. IsTrue within ↔ (size (drop (layer_of id) (domains_of self.now)) (has self.now id) ≤ most)) }
    {
        let (_, layers) = self.layers.as_slice().split_at(id.layer as usize);
        is_size_within(self.allocator(), layers, id.node, most)
    }

    /// Whether two ids of one layer have the same words.
    pub fn same_set(&self, a: Id, b: Id) -> bool
        requires first { IsId self.now a }
        requires second { IsIdAt self.now (layer_of a) b }
        ensures { IsTrue result ↔ SameWords self.now a b }
    {
        a == b
    }
}
