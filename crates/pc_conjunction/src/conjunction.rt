//! The conjunction.

ghost use Rattle.std.specs.Prelude.{◌≡◌, ◌<◌, ◌≤◌, ◌&&◌, ℕ, List, length, reverse, All, IfOk};
ghost use Rattle.pc_diagram.specs.Rests.{size};
ghost use Rattle.pc_diagram.specs.Words.{is_word};
ghost use Rattle.pc_store.specs.Layered.{IsDomain};
ghost use Rattle.pc_store.specs.Sets.{domains_of, IsIdAt, has};

use crate::layer::Layer;
use crate::narrow::narrow;
use crate::stored::{Stored, stored_layers};
use pc_base::{NoMemory, Sequence};
use pc_diagram::MOST_VARIABLES;
use pc_store::{Id, Store};
use std::alloc::Global;
use std::marker::Model;

/// The words over the numbers of values of 1 to 64 variables that are in all sets which it was narrowed by. It is kept as
/// layers of places: a place stands for the words that go on from it, and several may stand for the same words.
#[derive(Debug, Drop)]
pub struct Conjunction {
    // The layer of the last variable stands first.
    layers: Sequence<Layer>,
}

impl Model for Conjunction {
    ghost use Rattle.std.specs.Prelude.{List, reverse};
    ghost use Rattle.pc_conjunction.specs.declared.layer.Layer.{Layer};

    ghost Value = { List Layer };

    ghost use Rattle.pc_conjunction.specs.Conjunctions.{IsConjunction};

    ghost view = { λ c. reverse c.layers };

    ghost invariant = { λ c. IsConjunction (reverse c.layers) };
}

impl Conjunction {
    ghost use Rattle.pc_conjunction.specs.Conjunctions.{conjunction_domains, contains};

    /// The words of a set alone.
    pub fn of(store: &Store, set: Id) -> Result<Conjunction, NoMemory>
        requires { IsIdAt store.now 0 set }
        ensures domains { IfOk result (λ all. conjunction_domains all ≡ domains_of store.now) }
        ensures words { IfOk result (λ all. (word : List ℕ) → contains all word ≡ has store.now set word) }
    {
        let domains = domains_of(store)?;
        let all = Conjunction::new(store.allocator(), domains.as_slice())?;
        let narrowed = all.narrowed(store, set)?;
        Ok(narrowed)
    }

    /// All words over variables that take so many values, from 1 to 64, in order.
    fn new(alloc: Global, domains: &[u32]) -> Result<Conjunction, NoMemory>
        requires some { 0 < length domains.now }
        requires few { length domains.now ≤ MOST_VARIABLES }
        requires sizes { All IsDomain domains.now }
        ensures domains { IfOk result (λ all. conjunction_domains all ≡ domains.now) }
        ensures words { IfOk result (λ all. (word : List ℕ) → contains all word ≡ is_word domains.now word) }
    {
        let mut layers = Sequence::with_capacity(alloc, domains.len())?;
        for place in 0..domains.len() {
            let domain = domains[domains.len() - 1 - place];
            layers.push(Layer::new(alloc, domain)?)?;
        }
        Ok(Conjunction { layers })
    }

    /// The words that are in a set too.
    pub fn narrowed(self, store: &Store, set: Id) -> Result<Conjunction, NoMemory>
        requires domains { domains_of store.now ≡ conjunction_domains self }
        requires set { IsIdAt store.now 0 set }
        ensures domains { IfOk result (λ narrowed. conjunction_domains narrowed ≡ conjunction_domains self) }
        ensures words { IfOk result (λ narrowed. (word : List ℕ) → contains narrowed word ≡ (contains self word && has store.now set word)) }
    {
        let Conjunction { mut layers } = self;
        narrow(store, 0, &mut layers, set)?;
        Ok(Conjunction { layers })
    }

    /// A number that the size of the set of its words doesn't pass: how many places there are but those without words.
    pub fn most_nodes(&self) -> u64
        ensures { size (conjunction_domains self.now) (contains self.now) ≤ result }
    {
        let mut most = 1;
        for layer in self.layers.as_slice() {
            most += layer.count as u64 - 1;
        }
        most
    }

    /// The set of its words, in a store of its own.
    pub fn stored(&self, alloc: Global) -> Result<Stored, NoMemory>
        ensures domains { IfOk result (λ stored. domains_of stored.store ≡ conjunction_domains self.now) }
        ensures is_id { IfOk result (λ stored. IsIdAt stored.store 0 stored.set) }
        ensures words { IfOk result (λ stored. (word : List ℕ) → has stored.store stored.set word ≡ contains self.now word) }
    {
        let stored = stored_layers(alloc, self.layers.as_slice())?;
        Ok(stored)
    }
}

/// How many values each variable of a store takes.
fn domains_of(store: &Store) -> Result<Sequence<u32>, NoMemory>
    ensures domains { IfOk result (λ domains. domains ≡ domains_of store.now) }
    ensures some { IfOk result (λ domains. 0 < length domains) }
    ensures few { IfOk result (λ domains. length domains ≤ MOST_VARIABLES) }
    ensures sizes { IfOk result (λ domains. All IsDomain domains) }
{
    let mut domains = Sequence::new(store.allocator());
    for layer in 0..store.variables() {
        domains.push(store.domain(layer))?;
    }
    Ok(domains)
}
