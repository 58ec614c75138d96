//! Names that differ, with their positions.

ghost use Rattle.std.specs.Prelude.{◌≡◌, [], ◌∷◌, ◌++◌, not, if◌then◌else◌, length, position, true, false, IfOk, OnErr, MatchOption};
ghost use Rattle.pc_base.specs.Distinct.{all_differ};
ghost use Rattle.std.specs.List.{list_any};
ghost use Rattle.pc_names.specs.Spelling.{same_spelling};

use crate::name::Name;
use indexmap::IndexSet;
use pc_base::NoMemory;
use std::alloc::Global;
use std::marker::Model;

/// Names in order, none twice. The position of a name is found by its hash.
#[derive(Debug, Drop)]
pub struct Names {
    set: IndexSet<Name>,
}

impl Model for Names {
    ghost use Rattle.std.specs.Prelude.{List, ℕ};

    ghost Value = { List (List ℕ) };

    ghost view = { λ n. n.set.keys };
}

impl Names {
    /// No names. It takes no memory until it grows.
    pub fn new(alloc: Global) -> Names
        ensures { result ≡ [] }
    {
        Names {
            set: IndexSet::new(alloc),
        }
    }

    /// The names of a list, or `None` where one stands twice.
    pub fn of(alloc: Global, list: &[Name]) -> Result<Option<Names>, NoMemory>
        ensures { IfOk result (λ found. MatchOption found (all_differ same_spelling list.now ≡ false)
            (λ names. (names ≡ list.now) × (all_differ same_spelling list.now ≡ true))) }
    {
        let mut names = Names::new(alloc);
        for name in list {
            if !names.add(*name)? {
                return Ok(None);
            }
        }
        Ok(Some(names))
    }

    /// Puts a name at the end, unless it is there, and tells whether it was put. Want of memory leaves the names as
    /// they were.
    pub fn add(&mut self, name: Name) -> Result<bool, NoMemory>
        ensures added { IfOk result (λ added. added ≡ not (list_any (same_spelling name) self.old)) }
        ensures names { IfOk result (λ added. self.new ≡ (if added then self.old ++ name ∷ [] else self.old)) }
        ensures err { OnErr result (self.new ≡ self.old) }
    {
        let (_, added) = self.set.insert_full(name)?;
        Ok(added)
    }

    /// The position of a name, counted from 0.
    pub fn position(&self, name: &Name) -> Option<usize>
        ensures { result ≡ position (same_spelling name.now) self.now }
    {
        self.set.get_index_of(name)
    }

    /// How many there are.
    pub fn len(&self) -> usize
        ensures { result ≡ length self.now }
    {
        self.set.len()
    }
}

/// The first position of a name in a list, counted from 0.
pub fn position(names: &[Name], name: &Name) -> Option<usize>
    ensures { result ≡ position (same_spelling name.now) names.now }
{
    names.iter().position(|other| name == other)
}
