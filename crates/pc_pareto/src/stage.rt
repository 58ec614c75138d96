//! The fronts of the nodes of a layer.

ghost use Rattle.std.specs.Prelude.{◌≡◌, ◌≢◌, ◌<◌, ◌≤◌, ◌+◌, ◌++◌, ℕ, [], length, slice_index_or, All, OnOk, IfOk, IfErr};
ghost use Rattle.pc_diagram.specs.Costs.{IsPricePair, pair_at};
ghost use Rattle.pc_diagram.specs.declared.limits.TheConstants.{MOST_VALUES};
ghost use Rattle.pc_pareto.specs.declared.arrival.Arrival.{Arrival};
ghost use Rattle.pc_pareto.specs.declared.limits.TheConstants.{MOST_LABELS, MOST_RANKS};
ghost use Rattle.pc_pareto.specs.Bounds.{IsSmallNode, IsScaleWithin};
ghost use Rattle.pc_pareto.specs.Faults.{IsFaultAt};
ghost use Rattle.pc_pareto.specs.Items.{IsFrontOf, IsReduced};
ghost use Rattle.pc_pareto.specs.Stages.{candidates, AreStageOf, front_size, stage_size};

use crate::arrival::Arrival;
use crate::front::Front;
use crate::front_fault::FrontFault;
use crate::front_item::FrontItem;
use crate::limits::MOST_LABELS;
use crate::run::push_run;
use crate::sweep::keep_front;
use pc_base::{NoMemory, Sequence};
use pc_diagram::{CostPair, Side};
use std::alloc::Global;

/// The fronts of all nodes of a layer. The total counts the pairs of all fronts of the side, this layer's included.
pub(crate) fn next_stage(
    alloc: Global,
    side: Side,
    layer: u32,
    scale: u64,
    row: &[CostPair],
    before: &[Front],
    arrivals: &[Sequence<Arrival>],
    total: &mut u64,
) -> Result<Sequence<Front>, FrontFault>
    requires row { All IsPricePair row.now }
    requires before { All (IsSmallNode MOST_RANKS) before.now }
    requires nodes { All (All (λ arrival. arrival.node < length before.now)) arrivals.now }
    requires values { All (All (λ arrival. arrival.value < MOST_VALUES)) arrivals.now }
    requires scale { IsScaleWithin side scale }
    requires total { total.old ≤ MOST_LABELS }
    ensures stage { IfOk result (AreStageOf side scale row.now before.now arrivals.now) }
    ensures total { OnOk result (total.new ≡ total.old + stage_size side scale row.now before.now arrivals.now) }
    ensures within { OnOk result (total.new ≤ MOST_LABELS) }
    ensures fault { IfErr result (IsFaultAt (λ at_side at_layer. (at_side ≡ side) × (at_layer ≡ layer)
        × (MOST_LABELS < total.old + stage_size side scale row.now before.now arrivals.now))) }
{
    let mut stage = Sequence::with_capacity(alloc, arrivals.len())?;
    for into in arrivals {
        let front = node_front(alloc, side, scale, row, before, into.as_slice())?;
        let size = front.as_slice().len() as u64;
        if size > MOST_LABELS - *total {
            return Err(FrontFault::LabelLimit { side, layer });
        }
        *total += size;
        stage.push(front)?;
    }
    Ok(stage)
}

/// The front of a node, of what comes along the edges into it. Where more than two come, what is beaten goes on the way.
pub(crate) fn node_front(
    alloc: Global,
    side: Side,
    scale: u64,
    row: &[CostPair],
    before: &[Front],
    arrivals: &[Arrival],
) -> Result<Front, NoMemory>
    requires row { All IsPricePair row.now }
    requires before { All (IsSmallNode MOST_RANKS) before.now }
    requires nodes { All (λ arrival. arrival.node < length before.now) arrivals.now }
    requires values { All (λ arrival. arrival.value < MOST_VALUES) arrivals.now }
    requires scale { IsScaleWithin side scale }
    ensures { IfOk result (λ front. IsFrontOf (candidates side scale row.now before.now arrivals.now) front) }
{
    let mut offered = Vec::with_capacity(alloc, room_of(before, arrivals))?;
    let mut most = if arrivals.len() > 2 { 0 } else { usize::MAX };
    for arrival in arrivals {
        let items = before[arrival.node as usize].as_slice();
        push_run(&mut offered, side, scale, row, *arrival, items)?;
        most = reduce(&mut offered, most)?;
    }
    Front::of(offered)
}

/// Leaves of more than so many items their front. Gives how many may be there the next time: twice those that are left.
fn reduce(items: &mut Vec<FrontItem>, most: usize) -> Result<usize, NoMemory>
    ensures { OnOk result (IsReduced items.old.items items.new.items) }
{
    if items.len() <= most {
        return Ok(most);
    }
    keep_front(items)?;
    Ok(items.len().saturating_mul(2))
}

/// How many items come along edges, all in all.
fn room_of(before: &[Front], arrivals: &[Arrival]) -> usize
    requires { All (λ arrival. arrival.node < length before.now) arrivals.now }
{
    let mut room = 0usize;
    for arrival in arrivals {
        room = room.saturating_add(before[arrival.node as usize].as_slice().len());
    }
    room
}
