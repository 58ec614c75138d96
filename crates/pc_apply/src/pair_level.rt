//! One layer of a product of pairs.

ghost use Rattle.std.specs.Prelude.{◌≡◌, ◌<◌, ◌+◌, length, slice_index, IfOk, OnOk};
ghost use Rattle.pc_store.specs.Sets.{domains_of};
ghost use Rattle.pc_apply.specs.Levels.{AllAt, LeadsFrom, Fits, EachFits, Planned};
ghost use Rattle.pc_apply.specs.Pairs.{HasBoth, pairs_at};

use crate::pair::{Operation, Pair};
use crate::plan::Plan;
use crate::states::place_near;
use indexmap::IndexSet;
use pc_base::NoMemory;
use pc_diagram::MOST_VARIABLES;
use pc_store::{Store, number};
use std::alloc::Global;

/// How the sets of the pairs of one layer are got from those of the different pairs of the next.
#[derive(Debug, Drop)]
pub(crate) struct PairLevel {
    pub plans: Vec<Plan>,
    pub targets: Vec<u32>,
    pub below: IndexSet<Pair>,
}

/// A plan for each pair of a layer before the last.
pub(crate) fn plan_pairs(
    alloc: Global,
    store: &Store,
    layer: u32,
    operation: Operation,
    pairs: &[Pair],
) -> Result<PairLevel, NoMemory>
    requires inner { layer < length (domains_of store.now) }
    requires few { layer < MOST_VARIABLES }
    requires sets { AllAt (HasBoth store.now layer) pairs.now }
    ensures { IfOk result (λ level. EachFits store.now layer (pairs_at store.now layer operation) (pairs_at store.now (layer + 1) operation) pairs.now level.below.keys level.targets.items level.plans.items) }
{
    let mut plans = Vec::with_capacity(alloc, pairs.len())?;
    let mut targets = Vec::new(alloc);
    let mut below = IndexSet::new(alloc);
    for pair in pairs {
        plans.push(plan_pair(store, layer, operation, *pair, &mut targets, &mut below)?)?;
    }
    Ok(PairLevel {
        plans,
        targets,
        below,
    })
}

/// A plan for one pair. The pairs of what its sets go on with are put below, if they aren't there.
fn plan_pair(
    store: &Store,
    layer: u32,
    operation: Operation,
    pair: Pair,
    targets: &mut Vec<u32>,
    below: &mut IndexSet<Pair>,
) -> Result<Plan, NoMemory>
    requires inner { layer < length (domains_of store.now) }
    requires few { layer < MOST_VARIABLES }
    requires sets { HasBoth store.now layer pair }
    requires below { AllAt (HasBoth store.now (layer + 1)) below.old.keys }
    ensures plan { IfOk result (Fits store.now layer (pairs_at store.now layer operation) (pairs_at store.now (layer + 1) operation) pair below.new.keys targets.new.items) }
    ensures more { OnOk result (Planned (HasBoth store.now (layer + 1)) below.old.keys below.new.keys targets.old.items targets.new.items) }
{
    match pair.settled(store, layer, operation) {
        Some(id) => Ok(Plan::Known(id)),
        None => {
            let first = number(targets.len())?;
            expand_pair(store, layer, pair, targets, below)?;
            Ok(Plan::Node(first))
        }
    }
}

/// A target for each value: the place below of the pair of what the sets go on with.
fn expand_pair(
    store: &Store,
    layer: u32,
    pair: Pair,
    targets: &mut Vec<u32>,
    below: &mut IndexSet<Pair>,
) -> Result<(), NoMemory>
    requires inner { layer < length (domains_of store.now) }
    requires few { layer < MOST_VARIABLES }
    requires sets { HasBoth store.now layer pair }
    requires below { AllAt (HasBoth store.now (layer + 1)) below.old.keys }
    ensures leads { OnOk result ((operation : Operation) → LeadsFrom store.now layer (pairs_at store.now layer operation) (pairs_at store.now (layer + 1) operation) pair below.new.keys targets.new.items (length targets.old.items) (slice_index (domains_of store.now) layer)) }
    ensures more { OnOk result (Planned (HasBoth store.now (layer + 1)) below.old.keys below.new.keys targets.old.items targets.new.items) }
{
    let left = store.children(layer, pair.left);
    let right = store.children(layer, pair.right);
    for value in 0..store.domain(layer) {
        let next = Pair {
            left: left.node(value),
            right: right.node(value),
        };
        let near = targets.last().copied();
        targets.push(place_near(below, near, next)?)?;
    }
    Ok(())
}
