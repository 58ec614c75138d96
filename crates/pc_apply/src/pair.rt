//! Pairs of sets, and what operations ask for of them.

ghost use Rattle.std.specs.Prelude.{◌≡◌, ◌≤◌, length, IfSome};
ghost use Rattle.pc_store.specs.Sets.{domains_of, IsIdAt};
ghost use Rattle.pc_apply.specs.Levels.{Answers};
ghost use Rattle.pc_apply.specs.Pairs.{holds, HasBoth, pairs_at, Makes};

use crate::ends::{all_or_none, has_empty_word};
use pc_store::{Id, Node, Store};

/// Which words of two sets are asked for: those in both, those in either, or those in the first alone.
#[derive(Clone, Copy, Debug)]
pub(crate) enum Operation {
    And,
    Or,
    Without,
}

impl Operation {
    /// Whether it asks for a word that is in the first set or not, and in the second or not.
    fn holds(self, left: bool, right: bool) -> bool
        ensures { result ≡ holds self left right }
    {
        match self {
            Operation::And => left && right,
            Operation::Or => left || right,
            Operation::Without => left && !right,
        }
    }
}

/// Two sets of one layer.
#[derive(Clone, Copy, Debug, PartialEq, Eq, Hash)]
pub(crate) struct Pair {
    pub left: Node,
    pub right: Node,
}

impl Pair {
    /// The set of the words that an operation asks for, where it is known without looking at values.
    pub(crate) fn settled(self, store: &Store, layer: u32, operation: Operation) -> Option<Id>
        requires layer { layer ≤ length (domains_of store.now) }
        requires sets { HasBoth store.now layer self }
        ensures { IfSome result (Answers store.now store.now layer (pairs_at store.now layer operation) self) }
    {
        let left = self.left.at(layer);
        let right = self.right.at(layer);
        match operation {
            Operation::And => both(store, layer, left, right),
            Operation::Or => either(store, layer, left, right),
            Operation::Without => first_alone(store, layer, left, right),
        }
    }

    /// The same past the last variable, where each set has the empty word or none.
    pub(crate) fn at_end(self, store: &Store, operation: Operation) -> Id
        requires { HasBoth store.now (length (domains_of store.now)) self }
        ensures { Answers store.now store.now (length (domains_of store.now)) (pairs_at store.now (length (domains_of store.now)) operation) self result }
    {
        let layer = store.variables();
        let left = has_empty_word(store, self.left.at(layer));
        let right = has_empty_word(store, self.right.at(layer));
        all_or_none(store, layer, operation.holds(left, right))
    }
}

/// The words in both sets, where one of them is that set.
fn both(store: &Store, layer: u32, left: Id, right: Id) -> Option<Id>
    requires layer { layer ≤ length (domains_of store.now) }
    requires left { IsIdAt store.now layer left }
    requires right { IsIdAt store.now layer right }
    ensures { IfSome result (Makes store.now layer Operation.And left right) }
{
    let empty = store.empty(layer);
    let full = store.full(layer);
    if store.same_set(left, right) || store.same_set(left, empty) || store.same_set(right, full) {
        Some(left)
    } else if store.same_set(right, empty) || store.same_set(left, full) {
        Some(right)
    } else {
        None
    }
}

/// The words in either set, where one of them is that set.
fn either(store: &Store, layer: u32, left: Id, right: Id) -> Option<Id>
    requires layer { layer ≤ length (domains_of store.now) }
    requires left { IsIdAt store.now layer left }
    requires right { IsIdAt store.now layer right }
    ensures { IfSome result (Makes store.now layer Operation.Or left right) }
{
    let empty = store.empty(layer);
    let full = store.full(layer);
    if store.same_set(left, right) || store.same_set(left, full) || store.same_set(right, empty) {
        Some(left)
    } else if store.same_set(right, full) || store.same_set(left, empty) {
        Some(right)
    } else {
        None
    }
}

/// The words in the first set alone, where they are that set or none.
fn first_alone(store: &Store, layer: u32, left: Id, right: Id) -> Option<Id>
    requires layer { layer ≤ length (domains_of store.now) }
    requires left { IsIdAt store.now layer left }
    requires right { IsIdAt store.now layer right }
    ensures { IfSome result (Makes store.now layer Operation.Without left right) }
{
    let empty = store.empty(layer);
    if store.same_set(left, empty) || store.same_set(right, empty) {
        Some(left)
    } else if store.same_set(left, right) || store.same_set(right, store.full(layer)) {
        Some(empty)
    } else {
        None
    }
}
