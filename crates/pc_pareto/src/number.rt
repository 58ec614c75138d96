//! Ranks that are numbered anew.

ghost use Rattle.std.specs.Prelude.{◌≡◌, ◌<◌, ◌≤◌, ◌*◌, ◌+◌, ◌++◌, ◌∷◌, [], ℕ, List, length, map, slice_index_or, Contains, All, IfOk, OnOk, sum_by};
ghost use Rattle.std.specs.List.Sorted.{IsNonDecreasing};
ghost use Rattle.pc_pareto.specs.declared.front_item.FrontItem.{FrontItem};
ghost use Rattle.pc_pareto.specs.declared.limits.TheConstants.{MOST_LABELS, MOST_RANKS};
ghost use Rattle.pc_pareto.specs.Numbered.{with_rank, count_below, IsNumbered};

use crate::front::Front;
use crate::front_item::FrontItem;
use crate::limits::MOST_RANKS;
use pc_base::{NoMemory, Sequence};
use std::alloc::Global;

/// The fronts of a layer and a bound on their ranks, with the ranks numbered anew where the bound is so great that those of
/// the next layer wouldn't fit.
pub(crate) fn numbered(
    alloc: Global,
    stage: Sequence<Front>,
    bound: u64,
) -> Result<(Sequence<Front>, u64), NoMemory>
    requires few { sum_by length stage ≤ MOST_LABELS }
    requires below { (node : ℕ) (x : FrontItem) → Contains (slice_index_or stage node []) x → x.back.rank < bound }
    ensures { IfOk result (λ r. IsNumbered stage r.0 r.1) }
{
    if bound <= MOST_RANKS {
        return Ok((stage, bound));
    }
    numbered_anew(alloc, stage.as_slice())
}

/// The fronts of a layer with the ranks numbered anew, and a bound on these.
pub(crate) fn numbered_anew(
    alloc: Global,
    stage: &[Front],
) -> Result<(Sequence<Front>, u64), NoMemory>
    requires { sum_by length stage.now ≤ MOST_LABELS }
    ensures { IfOk result (λ r. IsNumbered stage.now r.0 r.1) }
{
    let ranks = sorted_ranks(alloc, stage)?;
    let ranks = ranks.as_slice();
    let new = renumbered(alloc, stage, ranks)?;
    Ok((new, ranks.len() as u64 + 1))
}

/// The ranks of all items, in order.
fn sorted_ranks(alloc: Global, stage: &[Front]) -> Result<Vec<u64>, NoMemory>
    ensures count { IfOk result (λ ranks. length ranks.items ≡ sum_by length stage.now) }
    ensures ascending { IfOk result (λ ranks. IsNonDecreasing ranks.items) }
    ensures ranks { IfOk result (λ ranks. (node : ℕ) (x : FrontItem) → Contains (slice_index_or stage.now node []) x → Contains ranks.items x.back.rank) }
{
    let mut ranks = Vec::new(alloc);
    for front in stage {
        push_ranks(&mut ranks, front.as_slice())?;
    }
    ranks.sort_unstable();
    Ok(ranks)
}

fn push_ranks(ranks: &mut Vec<u64>, items: &[FrontItem]) -> Result<(), NoMemory>
    ensures { OnOk result (ranks.new.items ≡ ranks.old.items ++ map (λ item. item.back.rank) items.now) }
{
    for item in items {
        ranks.push(item.back.rank)?;
    }
    Ok(())
}

/// The fronts of a layer, where the rank of each item is how many of some ranks in order are less than its own.
fn renumbered(alloc: Global, stage: &[Front], ranks: &[u64]) -> Result<Sequence<Front>, NoMemory>
    requires { IsNonDecreasing ranks.now }
    ensures { IfOk result (λ new. new ≡ map (map (with_rank (count_below ranks.now))) stage.now) }
{
    let mut fronts = Sequence::with_capacity(alloc, stage.len())?;
    for front in stage {
        fronts.push(front.with_ranks(alloc, ranks)?)?;
    }
    Ok(fronts)
}

/// How many of some ranks in order are less than one.
pub(crate) fn count_below(ranks: &[u64], rank: u64) -> u64
    requires { IsNonDecreasing ranks.now }
    ensures { result ≡ count_below ranks.now rank }
{
    ranks.partition_point(|other| *other < rank) as u64
}
