//! Nodes over those of the next layer.

ghost use Rattle.std.specs.Prelude.{◌≡◌, ◌<◌, ◌+◌, ℕ, length, slice_index, slice_get, Some, All, IfOk, OnOk};
ghost use Rattle.pc_store.specs.Sets.{domains_of, IsIdAt, Keeps};
ghost use Rattle.pc_apply.specs.declared.plan.Plan.{Plan};
ghost use Rattle.pc_apply.specs.Levels.{InRange, Picks, IsOver, CarriedOut, EachCarriedOut};

use crate::plan::Plan;
use pc_base::NoMemory;
use pc_diagram::MOST_VARIABLES;
use pc_store::{Id, Store};
use std::alloc::Global;

/// The set of each plan of a layer, from the sets below.
pub(crate) fn carry_out_all(
    alloc: Global,
    store: &mut Store,
    layer: u32,
    plans: &[Plan],
    targets: &[u32],
    below: &[Id],
) -> Result<Vec<Id>, NoMemory>
    requires inner { layer < length (domains_of store.old) }
    requires few { layer < MOST_VARIABLES }
    requires below { All (IsIdAt store.old (layer + 1)) below.now }
    requires plans { (place : ℕ) (plan : Plan) → slice_get plans.now place ≡ Some plan
        → InRange targets.now (slice_index (domains_of store.old) layer) (length below.now) plan }
    ensures ids { IfOk result (λ ids. EachCarriedOut store.old store.new layer targets.now (slice_index (domains_of store.old) layer) below.now plans.now ids.items) }
    ensures keeps { Keeps store.old store.new }
{
    let mut ids = Vec::with_capacity(alloc, plans.len())?;
    let mut children = Vec::with_capacity(alloc, store.domain(layer) as usize)?;
    for plan in plans {
        ids.push(carry_out(store, layer, *plan, targets, below, &mut children)?)?;
    }
    Ok(ids)
}

/// The set of one plan. The children are room to work in.
fn carry_out(
    store: &mut Store,
    layer: u32,
    plan: Plan,
    targets: &[u32],
    below: &[Id],
    children: &mut Vec<Id>,
) -> Result<Id, NoMemory>
    requires inner { layer < length (domains_of store.old) }
    requires few { layer < MOST_VARIABLES }
    requires below { All (IsIdAt store.old (layer + 1)) below.now }
    requires plan { InRange targets.now (slice_index (domains_of store.old) layer) (length below.now) plan }
    ensures id { IfOk result (CarriedOut store.old store.new layer targets.now (slice_index (domains_of store.old) layer) below.now plan) }
    ensures keeps { Keeps store.old store.new }
{
    match plan {
        Plan::Known(id) => Ok(id),
        Plan::Node(first) => {
            let count = store.domain(layer) as usize;
            let (_, from_first) = targets.split_at(first as usize);
            let (places, _) = from_first.split_at(count);
            node_over(store, layer, places, below, children)
        }
    }
}

/// The node over the sets at these places, one for each value.
fn node_over(
    store: &mut Store,
    layer: u32,
    places: &[u32],
    below: &[Id],
    children: &mut Vec<Id>,
) -> Result<Id, NoMemory>
    requires inner { layer < length (domains_of store.old) }
    requires few { layer < MOST_VARIABLES }
    requires below { All (IsIdAt store.old (layer + 1)) below.now }
    requires width { length places.now ≡ slice_index (domains_of store.old) layer }
    requires in_range { All (λ place. place < length below.now) places.now }
    ensures id { IfOk result (IsOver store.old store.new layer below.now places.now) }
    ensures keeps { Keeps store.old store.new }
{
    pick(children, below, places)?;
    store.node(layer, children.as_slice())
}

/// Picks the ids at these places.
fn pick(ids: &mut Vec<Id>, below: &[Id], places: &[u32]) -> Result<(), NoMemory>
    requires { All (λ place. place < length below.now) places.now }
    ensures { OnOk result (Picks below.now places.now ids.new.items) }
{
    ids.clear();
    for place in places {
        ids.push(below[*place as usize])?;
    }
    Ok(())
}
