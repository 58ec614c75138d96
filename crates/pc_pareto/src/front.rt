//! A front that grows item by item.

ghost use Rattle.std.specs.Prelude.{◌≡◌, List, [], ◌∷◌, ◌++◌, map, OnOk, IfOk, OnErr};
ghost use Rattle.std.specs.List.{list_any};
ghost use Rattle.std.specs.List.Sorted.{IsNonDecreasing};
ghost use Rattle.pc_pareto.specs.declared.front_item.FrontItem.{FrontItem};
ghost use Rattle.pc_pareto.specs.Numbered.{with_rank, count_below};
ghost use Rattle.pc_pareto.specs.Items.{covers, IsFrontOf, IsFrontOfOffered};

use crate::back::Back;
use crate::front_item::FrontItem;
use crate::number::count_below;
use crate::sweep::keep_front;
use pc_base::NoMemory;
use std::alloc::Global;
use std::marker::Model;

/// Items of which no pair is beaten by another's, by first cost. Each offer costs a walk over all of them: the fronts of a
/// diagram are made otherwise.
#[derive(Debug, Drop)]
pub struct Front {
    items: Vec<FrontItem>,
}

impl Model for Front {
    ghost use Rattle.std.specs.Prelude.{List};
    ghost use Rattle.pc_pareto.specs.declared.front_item.FrontItem.{FrontItem};

    ghost Value = { List FrontItem };

    ghost view = { λ f. f.items.items };
}

impl Front {
    /// The front of nothing. It takes no memory until it grows.
    pub fn new(alloc: Global) -> Front
        ensures empty { result ≡ [] }
        ensures front { IsFrontOfOffered [] result }
    {
        Front {
            items: Vec::new(alloc),
        }
    }

    /// The front of items, in no more room than it needs.
    pub(crate) fn of(mut offered: Vec<FrontItem>) -> Result<Front, NoMemory>
        ensures { IfOk result (λ front. IsFrontOf offered.items front) }
    {
        keep_front(&mut offered)?;
        offered.shrink_to_fit();
        Ok(Front { items: offered })
    }

    pub(crate) fn of_items(items: Vec<FrontItem>) -> Front
        ensures { result ≡ items.items }
    {
        Front { items }
    }

    /// The same items.
    pub(crate) fn copied(&self, alloc: Global) -> Result<Front, NoMemory>
        ensures { IfOk result (λ front. front ≡ self.now) }
    {
        Ok(Front {
            items: Vec::from_slice(alloc, self.items.as_slice())?,
        })
    }

    /// The same items, where the rank of each is how many of some ranks in order are less than its own.
    pub(crate) fn with_ranks(&self, alloc: Global, ranks: &[u64]) -> Result<Front, NoMemory>
        requires { IsNonDecreasing ranks.now }
        ensures { IfOk result (λ front. front ≡ map (with_rank (count_below ranks.now)) self.now) }
    {
        let mut items = Vec::with_capacity(alloc, self.items.len())?;
        for item in self.items.as_slice() {
            items.push(FrontItem {
                back: Back {
                    rank: count_below(ranks, item.back.rank),
                    ..item.back
                },
                ..*item
            })?;
        }
        Ok(Front { items })
    }

    /// The items, by first cost.
    pub fn as_slice(&self) -> &[FrontItem]
        ensures { result.now ≡ self.now }
    {
        self.items.as_slice()
    }

    /// Takes one more pair in. Where it is beaten, or has the pair of an item of no greater rank, nothing changes; what it
    /// beats goes. Want of memory leaves the front as it was.
    pub fn offer(&mut self, pair: (i64, i64), back: Back) -> Result<(), NoMemory>
        ensures ok { OnOk result ((offered : List FrontItem) → IsFrontOfOffered offered self.old
            → IsFrontOfOffered (offered ++ record { first = pair.0; second = pair.1; back = back } ∷ []) self.new) }
        ensures err { OnErr result (self.new ≡ self.old) }
    {
        let alloc = *self.items.allocator();
        let mut offered = with_item(alloc, self.items.as_slice(), pair, back)?;
        if last_is_needless(offered.as_slice()) {
            return Ok(());
        }
        keep_front(&mut offered)?;
        self.items = offered;
        Ok(())
    }
}

/// Items and one more at the end.
fn with_item(
    alloc: Global,
    items: &[FrontItem],
    pair: (i64, i64),
    back: Back,
) -> Result<Vec<FrontItem>, NoMemory>
    ensures { IfOk result (λ v. v.items ≡ items.now ++ record { first = pair.0; second = pair.1; back = back } ∷ []) }
{
    let mut offered = Vec::from_slice(alloc, items)?;
    offered.push(FrontItem {
        first: pair.0,
        second: pair.1,
        back,
    })?;
    Ok(offered)
}

/// Whether one of the items before the last makes it needless.
fn last_is_needless(offered: &[FrontItem]) -> bool
    ensures { (items : List FrontItem) (item : FrontItem) → offered.now ≡ items ++ item ∷ []
        → result ≡ list_any (λ kept. covers kept item) items }
{
    match offered.split_last() {
        Some((item, items)) => is_covered(items, item),
        None => false,
    }
}

/// Whether one of the items makes another needless.
fn is_covered(items: &[FrontItem], item: &FrontItem) -> bool
    ensures { result ≡ list_any (λ kept. covers kept item.now) items.now }
{
    items.iter().any(|kept| kept.covers(item))
}
