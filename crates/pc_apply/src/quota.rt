//! In how many sets of a list words may lie.

ghost use Rattle.std.specs.Prelude.{◌≡◌, ◌<◌, ◌≤◌, ◌+◌, [], length, IfSome, IfNone, slice_index_or, ◌↔◌, IsTrue};
ghost use Rattle.pc_store.specs.Sets.{domains_of};
ghost use Rattle.pc_apply.specs.Counting.{count_at};
ghost use Rattle.pc_apply.specs.Levels.{Answers};
ghost use Rattle.pc_apply.specs.Lists.{ListsAt};
ghost use Rattle.pc_apply.specs.Quotas.{IsQuotaOf, is_in_quota, quotas_at};

use crate::ends::{all_or_none, has_empty_word};
use crate::lists::Lists;
use crate::step::Step;
use pc_store::{Id, Store};

/// At most so many of the sets of a list, which stands at a place among the lists of its layer. Where no word can be
/// within any more, a state of a product has no quota.
#[derive(Clone, Copy, Debug, PartialEq, Eq, Hash)]
pub(crate) struct Quota {
    pub most: u32,
    pub list: u32,
}

impl Quota {
    /// What is left after a step of the list. It is none where too many sets are full.
    pub(crate) fn after(self, step: Step) -> Option<Quota>
        ensures left { IfSome result (λ left. left.most + step.full ≡ self.most) }
        ensures list { IfSome result (λ left. left.list ≡ step.list) }
        ensures none { IfNone result (self.most < step.full) }
    {
        let left = (self.most as usize).checked_sub(step.full)?;
        Some(Quota {
            most: left as u32,
            list: step.list,
        })
    }

    /// Whether its list is so short that every word is within.
    pub(crate) fn has_room(self, lists: &Lists) -> bool
        requires { self.list < length lists.now }
        ensures { IsTrue result ↔ (length (slice_index_or lists.now self.list []) ≤ self.most) }
    {
        lists.list(self.list as usize).len() <= self.most as usize
    }
}

/// The words within a quota past the last variable, where each set has the empty word or none.
pub(crate) fn quota_at_end(quota: Option<Quota>, store: &Store, lists: &Lists) -> Id
    requires lists { ListsAt store.now (length (domains_of store.now)) lists.now }
    requires quota { IsQuotaOf lists.now quota }
    ensures { Answers store.now store.now (length (domains_of store.now)) (quotas_at store.now (length (domains_of store.now)) lists.now) quota result }
{
    let is_within = is_within_at_end(quota, store, lists);
    all_or_none(store, store.variables(), is_within)
}

/// Whether the empty word is within a quota past the last variable.
fn is_within_at_end(quota: Option<Quota>, store: &Store, lists: &Lists) -> bool
    requires lists { ListsAt store.now (length (domains_of store.now)) lists.now }
    requires quota { IsQuotaOf lists.now quota }
    ensures { result ≡ is_in_quota store.now (length (domains_of store.now)) lists.now quota [] }
{
    match quota {
        Some(quota) => count_at_end(store, lists, quota.list as usize) <= quota.most as usize,
        None => false,
    }
}

/// How many sets of a list have the empty word.
fn count_at_end(store: &Store, lists: &Lists, place: usize) -> usize
    requires lists { ListsAt store.now (length (domains_of store.now)) lists.now }
    requires place { place < length lists.now }
    ensures { result ≡ count_at store.now (length (domains_of store.now)) (slice_index_or lists.now place []) [] }
{
    let end = store.variables();
    let mut count = 0usize;
    for set in lists.list(place) {
        if has_empty_word(store, set.at(end)) {
            count += 1;
        }
    }
    count
}
