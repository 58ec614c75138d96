//! The sets that a list leads to after a value.

ghost use Rattle.std.specs.Prelude.{◌≡◌, ◌<◌, ◌≤◌, ◌+◌, ◌^◌, length, All, OnOk};
ghost use Rattle.pc_store.specs.Sets.{domains_of, IsNodeAt};
ghost use Rattle.pc_apply.specs.Lists.{CountsIn, IsSplit};

use pc_base::NoMemory;
use pc_store::{Children, Node, Store};

/// Sets of one layer: so many have every word, and these have some words and not all.
#[derive(Debug, Drop)]
pub(crate) struct Split {
    pub full: usize,
    pub rest: Vec<Node>,
}

impl Split {
    /// Counts the sets that stand in rows at a value, which are of this layer, and no others.
    pub(crate) fn count(
        &mut self,
        store: &Store,
        layer: u32,
        rows: &[Children<'_>],
        value: u32,
    ) -> Result<(), NoMemory>
        requires layer { layer ≤ length (domains_of store.now) }
        requires width { All (λ row. value < length row) rows.now }
        requires nodes { All (All (IsNodeAt store.now layer)) rows.now }
        ensures { OnOk result (IsSplit store.now layer rows.now value self.new) }
    {
        self.full = 0;
        self.rest.clear();
        for row in rows {
            self.count_in(store, layer, row.node(value))?;
        }
        Ok(())
    }

    /// Counts one more set in.
    fn count_in(&mut self, store: &Store, layer: u32, set: Node) -> Result<(), NoMemory>
        requires layer { layer ≤ length (domains_of store.now) }
        requires room { self.old.full + 1 < 2 ^ 64 }
        requires set { IsNodeAt store.now layer set }
        ensures { OnOk result (CountsIn store.now layer set self.old self.new) }
    {
        if set == store.full(layer).node() {
            self.full += 1;
        } else if set != store.empty(layer).node() {
            self.rest.push(set)?;
        }
        Ok(())
    }
}
