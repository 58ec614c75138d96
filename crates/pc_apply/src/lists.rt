//! The different lists of sets of a layer.

ghost use Rattle.std.specs.Prelude.{◌≡◌, ◌<◌, [], Some, length, slice_get, slice_index_or, IfOk, IfSome, OnOk};
ghost use Rattle.pc_apply.specs.Lists.{IsWith};

use indexmap::IndexSet;
use pc_base::NoMemory;
use pc_store::{Node, number};
use std::alloc::Global;
use std::marker::Model;

/// Lists of sets of one layer in order, none twice.
#[derive(Debug, Drop)]
pub(crate) struct Lists {
    lists: IndexSet<Vec<Node>>,
}

impl Model for Lists {
    ghost use Rattle.std.specs.Prelude.{List, map};
    ghost use Rattle.pc_store.specs.declared.id.Node.{Node};

    ghost Value = { List (List Node) };

    ghost view = { λ l. map (λ list. list.items) l.lists.keys };
}

impl Lists {
    /// No lists.
    pub(crate) fn new(alloc: Global) -> Lists
        ensures { result ≡ [] }
    {
        Lists {
            lists: IndexSet::new(alloc),
        }
    }

    /// How many there are.
    pub(crate) fn len(&self) -> usize
        ensures { result ≡ length self.now }
    {
        self.lists.len()
    }

    /// The list at a place.
    pub(crate) fn list(&self, place: usize) -> &[Node]
        requires { place < length self.now }
        ensures { result.now ≡ slice_index_or self.now place [] }
    {
        self.lists.as_slice()[place].as_slice()
    }

    /// The place of a list, which goes to the end if it isn't there.
    pub(crate) fn place(&mut self, alloc: Global, list: &[Node]) -> Result<u32, NoMemory>
        ensures stands { IfOk result (λ place. slice_get self.new place ≡ Some list.now) }
        ensures lists { OnOk result (IsWith self.old list.now self.new) }
    {
        if let Some(place) = self.place_if_last(list) {
            return number(place);
        }
        let (place, _) = self.lists.insert_full(Vec::from_slice(alloc, list)?)?;
        number(place)
    }

    /// The place of the last list, if it is this one. Most values of a variable lead to the same list.
    fn place_if_last(&self, list: &[Node]) -> Option<usize>
        ensures { IfSome result (λ place. slice_get self.now place ≡ Some list.now) }
    {
        let place = self.len().checked_sub(1)?;
        if self.list(place) == list {
            Some(place)
        } else {
            None
        }
    }
}
