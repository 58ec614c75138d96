//! The conjunction of the rules so far.

ghost use Rattle.std.specs.Prelude.{◌≡◌, ℕ, Bool, List, [], ◌∷◌, true, IfOk};
ghost use Rattle.pc_store.specs.Sets.{domains_of};
ghost use Rattle.pc_conjunction.specs.Conjunctions.{conjunction_domains};
ghost use Rattle.pc_build.specs.Making.{Holds, Made};

use crate::fault::PartFault;
use pc_base::NoMemory;
use pc_conjunction::Conjunction;
use pc_diagram::MOST_NODES;
use pc_store::Store;
use std::alloc::Global;

/// The fewest places that are made again of a store's nodes, unless more nodes than are allowed may stand among them.
const FEWEST: u64 = 4096;

/// The words for which some rules hold, and how many places they may take before they are made again: four times as many as
/// there were then.
#[derive(Debug, Drop)]
pub(crate) struct Joint {
    pub all: Conjunction,
    pub room: u64,
}

impl Joint {
    /// All words over the numbers of values of a store's variables.
    pub(crate) fn new(store: &Store) -> Result<Joint, NoMemory>
        ensures { IfOk result (λ joint. Holds (domains_of store.now) joint.all (λ word. true)) }
    {
        let all = Conjunction::of(store, store.full(0))?;
        Ok(Joint { all, room: FEWEST })
    }

    /// Counts the conjunction as one more part, unless its set is too large. There is no memory for 2^32 parts.
    pub(crate) fn counted(self, alloc: Global, made: &mut u32) -> Result<Joint, PartFault>
        ensures words { (test : List ℕ → Bool) → Holds (conjunction_domains self.all) self.all test → IfOk result (λ joint. Holds (conjunction_domains self.all) joint.all test) }
        ensures made { (test : List ℕ → Bool) → Holds (conjunction_domains self.all) self.all test → Made (conjunction_domains self.all) (test ∷ []) made.old made.new result }
    {
        let part = match made.checked_add(1) {
            Some(part) => part,
            None => return Err(PartFault::NoMemory),
        };
        let most = self.all.most_nodes();
        if most <= MOST_NODES.min(self.room) {
            *made = part;
            return Ok(self);
        }
        let stored = self.all.stored(alloc)?;
        let small = stored.store.is_size_within(stored.set, MOST_NODES)?;
        if !small {
            return Err(PartFault::TooLarge { part });
        }
        let all = Conjunction::of(&stored.store, stored.set)?;
        let room = all.most_nodes().saturating_mul(4).max(FEWEST);
        *made = part;
        Ok(Joint { all, room })
    }
}
