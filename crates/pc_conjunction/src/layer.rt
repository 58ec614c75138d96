//! One layer of places.

ghost use Rattle.std.specs.Prelude.{◌≡◌, ◌<◌, ◌≤◌, ◌+◌, ◌-◌, [], ℕ, List, length, slice_index, slice_index_or, All, IfOk, OnOk};
ghost use Rattle.pc_store.specs.Sets.{domains_of, IsIdAt};
ghost use Rattle.pc_conjunction.specs.Meets.{IsBelow, ArePairs, MorePairs, GrownLayer, CutLayer};
ghost use Rattle.pc_conjunction.specs.Places.{IsLayer, IsNewLayer};

use crate::column::{add_entries, cut_entries};
use crate::pair::Pair;
use indexmap::IndexSet;
use pc_base::{NoMemory, Sequence};
use pc_diagram::MOST_VARIABLES;
use pc_store::{Id, Store, number};
use std::alloc::Global;
use std::mem;

/// The places of one variable: place 0 without words, place 1 that leads to place 1 after each value at first, and more.
/// There is a column for each value.
#[derive(Debug, Drop)]
pub(crate) struct Layer {
    pub count: u32,
    pub columns: Vec<Sequence<u32>>,
}

impl Layer {
    /// A layer of a variable that takes so many values: place 0, and place 1, which goes on in place 1 after each.
    pub(crate) fn new(alloc: Global, domain: u32) -> Result<Layer, NoMemory>
        ensures { IfOk result (IsNewLayer domain) }
    {
        let mut columns = Vec::with_capacity(alloc, domain as usize)?;
        for _value in 0..domain {
            columns.push(Sequence::from_slice(alloc, &[0, 1])?)?;
        }
        Ok(Layer { count: 2, columns })
    }

    /// Adds a place for each pair. The next layer has so many places, and its pairs are put where they aren't there.
    pub(crate) fn add_pairs(
        &mut self,
        store: &Store,
        layer: u32,
        pairs: &[Pair],
        count: u32,
        next: &mut IndexSet<Pair>,
    ) -> Result<(), NoMemory>
        requires inner { layer < length (domains_of store.now) }
        requires few { length (domains_of store.now) ≤ MOST_VARIABLES }
        requires is_layer { IsLayer count self.old }
        requires width { length self.old.columns.items ≡ slice_index (domains_of store.now) layer }
        requires pairs { ArePairs store.now layer self.old.count pairs.now }
        ensures grown { OnOk result ((layers : List Layer) → IsBelow store.now (layer + 1) count layers → GrownLayer store.now layer layers pairs.now next.new.keys self.old self.new) }
        ensures next { OnOk result (MorePairs store.now (layer + 1) count next.old.keys next.new.keys) }
    {
        for value in 0..store.domain(layer) {
            let none = Sequence::new(store.allocator());
            let mut column = mem::replace(&mut self.columns[value as usize], none);
            let before = column_before(self.columns.as_slice(), value);
            add_entries(&mut column, before, store, layer, value, pairs, count, next)?;
            self.columns[value as usize] = column;
        }
        self.count = self
            .count
            .checked_add(number(pairs.len())?)
            .ok_or(NoMemory)?;
        Ok(())
    }

    /// Leaves each place the words of a set alone. The next layer has so many places, and its pairs are put where they
    /// aren't there.
    pub(crate) fn cut(
        &mut self,
        store: &Store,
        layer: u32,
        set: Id,
        count: u32,
        next: &mut IndexSet<Pair>,
    ) -> Result<(), NoMemory>
        requires inner { layer < length (domains_of store.now) }
        requires few { length (domains_of store.now) ≤ MOST_VARIABLES }
        requires is_layer { IsLayer count self.old }
        requires width { length self.old.columns.items ≡ slice_index (domains_of store.now) layer }
        requires set { IsIdAt store.now layer set }
        ensures cut { OnOk result ((layers : List Layer) → IsBelow store.now (layer + 1) count layers → CutLayer store.now layer layers set next.new.keys self.old self.new) }
        ensures next { OnOk result (MorePairs store.now (layer + 1) count next.old.keys next.new.keys) }
    {
        for value in 0..store.domain(layer) {
            let node = store.child(set, value).node();
            let column = self.columns[value as usize].as_slice();
            let before = column_before(self.columns.as_slice(), value);
            let cut = cut_entries(column, before, store, layer + 1, node, count, next)?;
            self.columns[value as usize] = cut;
        }
        Ok(())
    }
}

/// The column of the value before one. Before the first stands none.
fn column_before(columns: &[Sequence<u32>], value: u32) -> &[u32]
    requires { value ≤ length columns.now }
    ensures first { value ≡ 0 → result.now ≡ [] }
    ensures later { 0 < value → result.now ≡ slice_index_or columns.now (value - 1) [] }
{
    if value == 0 {
        return &[];
    }
    columns[value as usize - 1].as_slice()
}
