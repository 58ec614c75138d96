//! The product of layers for pairs of sets.

ghost use Rattle.std.specs.Prelude.{◌≡◌, ◌<◌, ◌≤◌, ◌+◌, length, IfOk};
ghost use Rattle.pc_store.specs.Sets.{domains_of, Keeps};
ghost use Rattle.pc_apply.specs.Levels.{AllAt, EachAnswers};
ghost use Rattle.pc_apply.specs.Pairs.{HasBoth, pairs_at};

use crate::build::carry_out_all;
use crate::pair::{Operation, Pair};
use crate::pair_level::plan_pairs;
use pc_base::NoMemory;
use pc_store::{Id, Store};
use std::alloc::Global;

/// For each pair of a layer, the set of the words that an operation asks for.
pub(crate) fn sets_of_pairs(
    alloc: Global,
    store: &mut Store,
    layer: u32,
    operation: Operation,
    pairs: &[Pair],
) -> Result<Vec<Id>, NoMemory>
    requires layer { layer ≤ length (domains_of store.old) }
    requires sets { AllAt (HasBoth store.old layer) pairs.now }
    ensures ids { IfOk result (λ ids. EachAnswers store.old store.new layer (pairs_at store.old layer operation) pairs.now ids.items) }
    ensures keeps { Keeps store.old store.new }
{
    if layer == store.variables() {
        return ends_of_pairs(alloc, store, operation, pairs);
    }
    let level = plan_pairs(alloc, store, layer, operation, pairs)?;
    let sets = sets_of_pairs(alloc, store, layer + 1, operation, level.below.as_slice())?;
    carry_out_all(
        alloc,
        store,
        layer,
        level.plans.as_slice(),
        level.targets.as_slice(),
        sets.as_slice(),
    )
}

/// The same past the last variable.
fn ends_of_pairs(
    alloc: Global,
    store: &Store,
    operation: Operation,
    pairs: &[Pair],
) -> Result<Vec<Id>, NoMemory>
    requires { AllAt (HasBoth store.now (length (domains_of store.now))) pairs.now }
    ensures { IfOk result (λ ids. EachAnswers store.now store.now (length (domains_of store.now)) (pairs_at store.now (length (domains_of store.now)) operation) pairs.now ids.items) }
{
    let mut ids = Vec::with_capacity(alloc, pairs.len())?;
    for pair in pairs {
        ids.push(pair.at_end(store, operation))?;
    }
    Ok(ids)
}
