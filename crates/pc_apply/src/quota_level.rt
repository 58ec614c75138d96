//! One layer of the product of quotas.

ghost use Rattle.std.specs.Prelude.{◌≡◌, ◌<◌, ◌+◌, Some, length, slice_index, IfOk, OnOk};
ghost use Rattle.pc_store.specs.Sets.{domains_of};
ghost use Rattle.pc_apply.specs.Levels.{AllAt, LeadsFrom, Fits, EachFits, Planned};
ghost use Rattle.pc_apply.specs.Lists.{HaveSteps};
ghost use Rattle.pc_apply.specs.Quotas.{IsQuotaOf, quotas_at};

use crate::lists::Lists;
use crate::plan::Plan;
use crate::quota::Quota;
use crate::states::place_near;
use crate::step::NextLists;
use indexmap::IndexSet;
use pc_base::NoMemory;
use pc_store::{Store, number};
use std::alloc::Global;

/// How the sets of the quotas of one layer are got from those of the different quotas of the next.
#[derive(Debug, Drop)]
pub(crate) struct QuotaLevel {
    pub plans: Vec<Plan>,
    pub targets: Vec<u32>,
    pub below: IndexSet<Option<Quota>>,
}

/// A plan for each quota of a layer before the last.
pub(crate) fn plan_quotas(
    alloc: Global,
    store: &Store,
    layer: u32,
    lists: &Lists,
    next: &NextLists,
    quotas: &[Option<Quota>],
) -> Result<QuotaLevel, NoMemory>
    requires inner { layer < length (domains_of store.now) }
    requires steps { HaveSteps store.now layer lists.now next.now.lists next.now.steps.items }
    requires quotas { AllAt (IsQuotaOf lists.now) quotas.now }
    ensures { IfOk result (λ level. EachFits store.now layer (quotas_at store.now layer lists.now) (quotas_at store.now (layer + 1) next.now.lists) quotas.now level.below.keys level.targets.items level.plans.items) }
{
    let mut plans = Vec::with_capacity(alloc, quotas.len())?;
    let mut targets = Vec::with_capacity(alloc, quotas.len())?;
    let mut below = IndexSet::with_capacity(alloc, quotas.len() + 1)?;
    for quota in quotas {
        plans.push(plan_quota(store, layer, lists, next, *quota, &mut targets, &mut below)?)?;
    }
    Ok(QuotaLevel {
        plans,
        targets,
        below,
    })
}

/// A plan for one quota. What is left after each value is put below, if it isn't there.
fn plan_quota(
    store: &Store,
    layer: u32,
    lists: &Lists,
    next: &NextLists,
    quota: Option<Quota>,
    targets: &mut Vec<u32>,
    below: &mut IndexSet<Option<Quota>>,
) -> Result<Plan, NoMemory>
    requires inner { layer < length (domains_of store.now) }
    requires steps { HaveSteps store.now layer lists.now next.now.lists next.now.steps.items }
    requires quota { IsQuotaOf lists.now quota }
    requires below { AllAt (IsQuotaOf next.now.lists) below.old.keys }
    ensures plan { IfOk result (Fits store.now layer (quotas_at store.now layer lists.now) (quotas_at store.now (layer + 1) next.now.lists) quota below.new.keys targets.new.items) }
    ensures more { OnOk result (Planned (IsQuotaOf next.now.lists) below.old.keys below.new.keys targets.old.items targets.new.items) }
{
    match quota {
        None => Ok(Plan::Known(store.empty(layer))),
        Some(quota) if quota.has_room(lists) => Ok(Plan::Known(store.full(layer))),
        Some(quota) => {
            let first = number(targets.len())?;
            expand_quota(store, layer, lists, next, quota, targets, below)?;
            Ok(Plan::Node(first))
        }
    }
}

/// A target for each value: the place below of what is left of a quota. The lists are read by the clauses alone.
fn expand_quota(
    store: &Store,
    layer: u32,
    lists: &Lists,
    next: &NextLists,
    quota: Quota,
    targets: &mut Vec<u32>,
    below: &mut IndexSet<Option<Quota>>,
) -> Result<(), NoMemory>
    requires inner { layer < length (domains_of store.now) }
    requires steps { HaveSteps store.now layer lists.now next.now.lists next.now.steps.items }
    requires quota { quota.list < length lists.now }
    requires below { AllAt (IsQuotaOf next.now.lists) below.old.keys }
    ensures leads { OnOk result (LeadsFrom store.now layer (quotas_at store.now layer lists.now) (quotas_at store.now (layer + 1) next.now.lists) (Some quota) below.new.keys targets.new.items (length targets.old.items) (slice_index (domains_of store.now) layer)) }
    ensures more { OnOk result (Planned (IsQuotaOf next.now.lists) below.old.keys below.new.keys targets.old.items targets.new.items) }
{
    let steps = next.steps[quota.list as usize].steps.as_slice();
    for value in 0..store.domain(layer) {
        let left = quota.after(steps[value as usize]);
        let near = targets.last().copied();
        targets.push(place_near(below, near, left)?)?;
    }
    Ok(())
}
