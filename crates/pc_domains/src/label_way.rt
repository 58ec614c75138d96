//! The least way through an edge of a value, by labels.

ghost use Rattle.std.specs.Prelude.{◌≡◌, ◌<◌, ◌≤◌, ◌+◌, length, slice_index, IfSome, None};
ghost use Rattle.pc_diagram.specs.Costs.{IsPricePair};
ghost use Rattle.pc_diagram.specs.Weight.{plus_pair};
ghost use Rattle.pc_domains.specs.Floors.{IsFloor};
ghost use Rattle.pc_domains.specs.Joins.{IsSumPair};
ghost use Rattle.pc_domains.specs.LabelWays.{AreLinkable, IsLeastLabelWay, lesser_label_way, linked};

use crate::floor::can_win;
use crate::join::{is_less, sum};
use pc_diagram::{CostPair, Diagram, Ranked, Steps, Weight};
use pc_labels::Labels;
use std::sync::ledger::Ledger;

/// A way through an edge: the nodes that the edge leaves and comes to, what its word costs, and the rank of its head.
#[derive(Clone, Copy, Debug)]
pub struct LabelWay {
    pub node: u32,
    pub target: u32,
    pub ranked: Ranked,
}

/// The least way through an edge of a value that costs so much, if there is any. A node isn't looked at whose head with the
/// least costs of the tails, where these are known, is no less than the way so far.
pub fn least_label_way<L: Ledger>(
    diagram: &Diagram,
    heads: &Labels,
    tails: &Labels,
    price: CostPair,
    floor: Option<CostPair>,
    variable: u32,
    value: u32,
    steps: &mut Steps<L>,
) -> Option<LabelWay>
    requires variable { variable < length diagram.now.domains }
    requires value { value < slice_index diagram.now.domains variable }
    requires price { IsPricePair price }
    requires labels { AreLinkable diagram.now variable heads.now tails.now }
    requires floor { IfSome floor (IsFloor tails.now (variable + 1)) }
    ensures way { IsLeastLabelWay diagram.now variable value heads.now tails.now price (slice_index diagram.now.sizes variable) result }
    ensures steps { steps.new ≤ steps.old + slice_index diagram.now.sizes variable }
{
    let mut least: Option<LabelWay> = None;
    for node in 0..diagram.nodes(variable) {
        let head = heads.weight(variable, node);
        if can_win(head, price, floor, least) {
            if let Some(target) = diagram.edge(variable, node, value, steps) {
                let link = linked(head, price, tails.weight(variable + 1, target));
                least = lesser(least, node, target, link);
            }
        }
    }
    least
}

/// What the paths on either side of an edge and a value between them cost, and the rank of the head, if there are both.
fn linked(head: Weight, price: CostPair, tail: Weight) -> Option<Ranked>
    requires head { IfSome head (λ r. IsSumPair r.pair) }
    requires price { IsPricePair price }
    requires tail { IfSome tail (λ r. IsSumPair r.pair) }
    ensures { result ≡ linked price head tail }
{
    match (head.ranked(), tail.ranked()) {
        (Some(head), Some(tail)) => Some(joined(head, price, tail)),
        _ => None,
    }
}

/// The two paths with the value between them.
pub(crate) fn joined(head: Ranked, price: CostPair, tail: Ranked) -> Ranked
    requires head { IsSumPair head.pair }
    requires price { IsPricePair price }
    requires tail { IsSumPair tail.pair }
    ensures { result ≡ record { pair = plus_pair head.pair (plus_pair price tail.pair); rank = head.rank } }
{
    Ranked {
        pair: CostPair {
            first: sum(head.pair.first, price.first, tail.pair.first),
            second: sum(head.pair.second, price.second, tail.pair.second),
        },
        rank: head.rank,
    }
}

/// The lesser of a way and what is linked over another edge.
fn lesser(least: Option<LabelWay>, node: u32, target: u32, link: Option<Ranked>) -> Option<LabelWay>
    ensures some { IfSome link (λ ranked. result ≡ lesser_label_way least (record { node = node; target = target; ranked = ranked })) }
    ensures none { link ≡ None → result ≡ least }
{
    match (least, link) {
        (_, None) => least,
        (Some(way), Some(ranked)) if !is_less(&ranked, &way.ranked) => least,
        (_, Some(ranked)) => Some(LabelWay {
            node,
            target,
            ranked,
        }),
    }
}
