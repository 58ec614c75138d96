//! The least costs of a layer's labels.

ghost use Rattle.std.specs.Prelude.{◌≡◌, ◌<◌, ℕ, length, slice_index_or, [], IfSome};
ghost use Rattle.pc_diagram.specs.Costs.{IsPricePair};
ghost use Rattle.pc_domains.specs.Floors.{IsFloor, can_win, lesser};
ghost use Rattle.pc_domains.specs.Joins.{IsSumPair};
ghost use Rattle.pc_domains.specs.LabelWays.{AreSummedLabels};

use crate::join::is_less;
use crate::label_way::{LabelWay, joined};
use pc_diagram::{CostPair, Ranked, Weight};
use pc_labels::Labels;

/// The least costs of the labels of a layer of so many nodes, if it has any.
pub(crate) fn floor(labels: &Labels, layer: u32, count: u32) -> Option<CostPair>
    requires layer { layer < length labels.now.layers }
    requires summed { AreSummedLabels (length labels.now.layers) layer count labels.now }
    ensures { IfSome result (IsFloor labels.now layer) }
{
    let mut least = Weight::none();
    for node in 0..count {
        least = lesser(least, labels.weight(layer, node));
    }
    match least.ranked() {
        Some(ranked) => Some(ranked.pair),
        None => None,
    }
}

/// The lesser of two weights.
fn lesser(weight: Weight, other: Weight) -> Weight
    ensures { result ≡ lesser weight other }
{
    if other.is_less_than(&weight) {
        other
    } else {
        weight
    }
}

/// Whether a head may lead to a lesser way than the one so far, by the least costs of the tails.
pub(crate) fn can_win(
    head: Weight,
    price: CostPair,
    floor: Option<CostPair>,
    least: Option<LabelWay>,
) -> bool
    requires head { IfSome head (λ r. IsSumPair r.pair) }
    requires price { IsPricePair price }
    requires floor { IfSome floor IsSumPair }
    ensures { result ≡ can_win price head floor least }
{
    match (head.ranked(), floor, least) {
        (None, _, _) => false,
        (Some(head), Some(floor), Some(way)) => is_less(
            &joined(
                head,
                price,
                Ranked {
                    pair: floor,
                    rank: 0,
                },
            ),
            &way.ranked,
        ),
        _ => true,
    }
}
