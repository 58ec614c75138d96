//! A list with places that were taken before they are needed.

ghost use Rattle.std.specs.Prelude.{◌≡◌, ◌-◌, ◌+◌, ◌<◌, ◌≤◌, [], ◌∷◌, ◌++◌, length, IfOk, IsOk, OnOk, OnErr, MatchOption};

use crate::memory::NoMemory;
use crate::sequence::Sequence;
use std::alloc::Global;
use std::marker::Model;

/// A list whose contracts also tell how many more items it can take without taking memory. What must not fail later
/// takes its places first, and then pushes into them. Its items become a `Sequence` without taking memory.
#[derive(Debug, Drop)]
pub struct Reserved<T> {
    items: Vec<T>,
}

impl<T> Model for Reserved<T> {
    ghost use Rattle.std.specs.Prelude.{◌-◌, vec_len, vec_capacity};
    ghost use Rattle.pc_base.specs.Reserved.{Places, places_code};

    ghost Value = { Places T };

    ghost coded = { places_code T.code };

    ghost view = { λ r. record { items = r.items.items; reserved = vec_capacity r.items - vec_len r.items } };
}

impl<T> Reserved<T> {
    /// The empty list, with no place. It takes no memory.
    pub fn new(alloc: Global) -> Reserved<T>
        ensures { result ≡ record { items = []; reserved = 0 } }
    {
        Reserved {
            items: Vec::new(alloc),
        }
    }

    /// The empty list, with so many places.
    pub fn with_capacity(alloc: Global, capacity: usize) -> Result<Reserved<T>, NoMemory>
        ensures { IfOk result (λ r. r ≡ record { items = []; reserved = capacity }) }
    {
        Ok(Reserved {
            items: Vec::with_capacity(alloc, capacity)?,
        })
    }

    /// Sees to it that there are so many places. Want of memory leaves all as it was.
    pub fn reserve(&mut self, count: usize) -> Result<(), NoMemory>
        ensures items { self.new.items ≡ self.old.items }
        ensures ok { OnOk result (count ≤ self.new.reserved) }
        ensures kept { self.old.reserved ≤ self.new.reserved }
        ensures succeeds { count ≤ self.old.reserved → IsOk result }
        ensures err { OnErr result (self.new ≡ self.old) }
    {
        self.items.reserve(count)?;
        Ok(())
    }

    /// Puts an item into the first free place.
    pub fn push(&mut self, item: T)
        requires { 0 < self.old.reserved }
        ensures { self.new ≡ record { items = self.old.items ++ item ∷ []; reserved = self.old.reserved - 1 } }
    {
        self.items.push_reserved(item);
    }

    /// Takes the last item off. Its place is free again.
    pub fn pop(&mut self) -> Option<T>
        ensures { MatchOption result ((self.old.items ≡ []) × (self.new ≡ self.old))
            (λ last. (self.old.items ≡ self.new.items ++ last ∷ []) × (self.new.reserved ≡ self.old.reserved + 1)) }
    {
        self.items.pop()
    }

    pub fn as_slice(&self) -> &[T]
        ensures { result.now ≡ self.now.items }
    {
        self.items.as_slice()
    }

    /// The items, without taking memory.
    pub fn into_sequence(self) -> Sequence<T>
        ensures { result ≡ self.items }
    {
        let Reserved { items } = self;
        Sequence::from_vec(items)
    }
}
