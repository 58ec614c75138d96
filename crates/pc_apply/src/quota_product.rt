//! The product of quotas.

ghost use Rattle.std.specs.Prelude.{◌≡◌, ◌<◌, ◌≤◌, ◌+◌, length, IfOk};
ghost use Rattle.pc_store.specs.Sets.{domains_of, Keeps};
ghost use Rattle.pc_apply.specs.Levels.{AllAt, EachAnswers};
ghost use Rattle.pc_apply.specs.Lists.{ListsAt};
ghost use Rattle.pc_apply.specs.Quotas.{IsQuotaOf, quotas_at};

use crate::build::carry_out_all;
use crate::lists::Lists;
use crate::quota::{Quota, quota_at_end};
use crate::quota_level::plan_quotas;
use crate::step::next_lists;
use pc_base::NoMemory;
use pc_store::{Id, Store};
use std::alloc::Global;

/// For each quota of a layer, the set of the words that are within it.
pub(crate) fn sets_of_quotas(
    alloc: Global,
    store: &mut Store,
    layer: u32,
    lists: &Lists,
    quotas: &[Option<Quota>],
) -> Result<Vec<Id>, NoMemory>
    requires layer { layer ≤ length (domains_of store.old) }
    requires lists { ListsAt store.old layer lists.now }
    requires quotas { AllAt (IsQuotaOf lists.now) quotas.now }
    ensures ids { IfOk result (λ ids. EachAnswers store.old store.new layer (quotas_at store.old layer lists.now) quotas.now ids.items) }
    ensures keeps { Keeps store.old store.new }
{
    if layer == store.variables() {
        return ends_of_quotas(alloc, store, lists, quotas);
    }
    let next = next_lists(alloc, store, layer, lists)?;
    let level = plan_quotas(alloc, store, layer, lists, &next, quotas)?;
    let below = sets_of_quotas(alloc, store, layer + 1, &next.lists, level.below.as_slice())?;
    carry_out_all(
        alloc,
        store,
        layer,
        level.plans.as_slice(),
        level.targets.as_slice(),
        below.as_slice(),
    )
}

/// The same past the last variable.
fn ends_of_quotas(
    alloc: Global,
    store: &Store,
    lists: &Lists,
    quotas: &[Option<Quota>],
) -> Result<Vec<Id>, NoMemory>
    requires lists { ListsAt store.now (length (domains_of store.now)) lists.now }
    requires quotas { AllAt (IsQuotaOf lists.now) quotas.now }
    ensures { IfOk result (λ ids. EachAnswers store.now store.now (length (domains_of store.now)) (quotas_at store.now (length (domains_of store.now)) lists.now) quotas.now ids.items) }
{
    let mut ids = Vec::with_capacity(alloc, quotas.len())?;
    for quota in quotas {
        ids.push(quota_at_end(*quota, store, lists))?;
    }
    Ok(ids)
}
