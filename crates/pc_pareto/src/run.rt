//! The items of a node along an edge.

ghost use Rattle.std.specs.Prelude.{◌≡◌, ◌<◌, ◌≤◌, ◌+◌, ◌++◌, ◌^◌, List, length, All, OnOk, IfOk};
ghost use Rattle.pc_diagram.specs.declared.costs.CostPair.{CostPair};
ghost use Rattle.pc_diagram.specs.Costs.{IsPricePair, pair_at};
ghost use Rattle.pc_diagram.specs.declared.limits.TheConstants.{MOST_VALUES};
ghost use Rattle.pc_pareto.specs.declared.limits.TheConstants.{MOST_LABELS, MOST_RANKS};
ghost use Rattle.pc_pareto.specs.Bounds.{IsSmall, IsSmallNode, IsScaleWithin};
ghost use Rattle.pc_pareto.specs.Stages.{ranked, stepped, run};

use crate::arrival::Arrival;
use crate::back::Back;
use crate::front_item::FrontItem;
use pc_base::NoMemory;
use pc_diagram::{CostPair, Side};

/// Puts the items of a node at the end, along an edge from it.
pub(crate) fn push_run(
    offered: &mut Vec<FrontItem>,
    side: Side,
    scale: u64,
    row: &[CostPair],
    arrival: Arrival,
    items: &[FrontItem],
) -> Result<(), NoMemory>
    requires row { All IsPricePair row.now }
    requires items { IsSmallNode MOST_RANKS items.now }
    requires value { arrival.value < MOST_VALUES }
    requires scale { IsScaleWithin side scale }
    ensures { OnOk result (offered.new.items ≡ offered.old.items ++ run side scale row.now arrival 0 items.now) }
{
    let cost = pair_at(row, arrival.value);
    for (place, item) in items.iter().enumerate() {
        offered.push(stepped(side, scale, &cost, arrival, place as u32, item))?;
    }
    Ok(())
}

/// An item one edge further.
fn stepped(
    side: Side,
    scale: u64,
    cost: &CostPair,
    arrival: Arrival,
    place: u32,
    item: &FrontItem,
) -> FrontItem
    requires cost { IsPricePair cost.now }
    requires item { IsSmall MOST_RANKS item.now }
    requires value { arrival.value < MOST_VALUES }
    requires scale { IsScaleWithin side scale }
    ensures { (row : List CostPair) → pair_at row arrival.value ≡ cost.now
        → result ≡ stepped side scale row arrival place item.now }
{
    FrontItem {
        first: item.first + cost.first,
        second: item.second + cost.second,
        back: Back {
            node: arrival.node,
            value: arrival.value,
            place,
            rank: ranked(side, scale, item.back.rank, arrival.value),
        },
    }
}

/// The costs of a value of a row; nothing where the row has no such value.
fn pair_at(row: &[CostPair], value: u32) -> CostPair
    ensures { result ≡ pair_at row.now value }
{
    match row.get(value as usize) {
        Some(pair) => *pair,
        None => CostPair {
            first: 0,
            second: 0,
        },
    }
}

fn ranked(side: Side, scale: u64, rank: u64, value: u32) -> u64
    requires scale { IsScaleWithin side scale }
    requires rank { rank < MOST_RANKS }
    requires value { value < MOST_VALUES }
    ensures { result ≡ ranked side scale rank value }
{
    match side {
        Side::Heads => rank * scale + u64::from(value),
        Side::Tails => u64::from(value) * scale + rank,
    }
}
