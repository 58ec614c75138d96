//! The layers of fronts that stay where a choice changes.

ghost use Rattle.std.specs.Prelude.{◌≡◌, ◌<◌, ◌≤◌, ◌+◌, [], length, take, slice_index_or, IfOk, sum_by};
ghost use Rattle.pc_pareto.specs.declared.limits.TheConstants.{MOST_LABELS};
ghost use Rattle.pc_pareto.specs.Kept.{IsKept};

use crate::front::Front;
use crate::number::numbered_anew;
use pc_base::{NoMemory, Sequence};
use std::alloc::Global;

/// The layers up to a distance, the last with its ranks numbered anew; a bound on these; and how many pairs there are, all in
/// all.
pub(crate) fn kept_stages(
    alloc: Global,
    stages: &[Sequence<Front>],
    distance: u32,
) -> Result<(Sequence<Sequence<Front>>, u64, u64), NoMemory>
    requires distance { distance < length stages.now }
    requires few { sum_by (sum_by length) (take (distance + 1) stages.now) ≤ MOST_LABELS }
    requires last { sum_by length (slice_index_or stages.now distance []) ≤ MOST_LABELS }
    ensures { IfOk result (λ r. IsKept stages.now distance r.0 r.1 r.2) }
{
    let total = size_of_all(&stages[..distance as usize + 1]);
    let mut kept = copied_stages(alloc, &stages[..distance as usize])?;
    let (last, limit) = numbered_anew(alloc, stages[distance as usize].as_slice())?;
    kept.push(last)?;
    Ok((kept, limit, total))
}

fn copied_stages(
    alloc: Global,
    stages: &[Sequence<Front>],
) -> Result<Sequence<Sequence<Front>>, NoMemory>
    ensures { IfOk result (λ copies. copies ≡ stages.now) }
{
    let mut copies = Sequence::with_capacity(alloc, stages.len())?;
    for stage in stages {
        copies.push(copied_stage(alloc, stage.as_slice())?)?;
    }
    Ok(copies)
}

fn copied_stage(alloc: Global, stage: &[Front]) -> Result<Sequence<Front>, NoMemory>
    ensures { IfOk result (λ copies. copies ≡ stage.now) }
{
    let mut copies = Sequence::with_capacity(alloc, stage.len())?;
    for front in stage {
        copies.push(front.copied(alloc)?)?;
    }
    Ok(copies)
}

/// How many pairs the fronts of some layers have, all in all.
fn size_of_all(stages: &[Sequence<Front>]) -> u64
    requires { sum_by (sum_by length) stages.now ≤ MOST_LABELS }
    ensures { result ≡ sum_by (sum_by length) stages.now }
{
    let mut total = 0;
    for stage in stages {
        total += size_of(stage.as_slice());
    }
    total
}

/// How many pairs the fronts of a layer have.
fn size_of(stage: &[Front]) -> u64
    requires { sum_by length stage.now ≤ MOST_LABELS }
    ensures { result ≡ sum_by length stage.now }
{
    let mut total = 0;
    for front in stage {
        total += front.as_slice().len() as u64;
    }
    total
}
