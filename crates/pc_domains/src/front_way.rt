//! The least way through an edge of a value, by fronts.

ghost use Rattle.std.specs.Prelude.{◌≡◌, ◌<◌, ◌≤◌, ◌+◌, length, slice_index};
ghost use Rattle.pc_diagram.specs.Costs.{IsPricePair};
ghost use Rattle.pc_domains.specs.FrontWays.{AreJoinable, IsLeastFrontWay, lesser_way};

use crate::join::{Join, is_less, least_join};
use pc_diagram::{Bounds, CostPair, Diagram, Steps};
use pc_pareto::Fronts;
use std::sync::ledger::Ledger;

/// A way through an edge: the nodes that the edge leaves and comes to, and the join of an item of either one's front.
#[derive(Clone, Copy, Debug)]
pub struct FrontWay {
    pub node: u32,
    pub target: u32,
    pub join: Join,
}

/// The least way through an edge of a value that costs so much, if the bounds allow any.
pub fn least_front_way<L: Ledger>(
    diagram: &Diagram,
    heads: &Fronts,
    tails: &Fronts,
    price: CostPair,
    bounds: &Bounds,
    variable: u32,
    value: u32,
    steps: &mut Steps<L>,
) -> Option<FrontWay>
    requires variable { variable < length diagram.now.domains }
    requires value { value < slice_index diagram.now.domains variable }
    requires price { IsPricePair price }
    requires fronts { AreJoinable diagram.now variable heads.now tails.now }
    ensures way { IsLeastFrontWay diagram.now variable value heads.now tails.now price bounds.now (slice_index diagram.now.sizes variable) result }
    ensures steps { steps.new ≤ steps.old + slice_index diagram.now.sizes variable }
{
    let mut least: Option<FrontWay> = None;
    for node in 0..diagram.nodes(variable) {
        if let Some(target) = diagram.edge(variable, node, value, steps) {
            let join = least_join(
                heads.items(variable, node),
                tails.items(variable + 1, target),
                price,
                bounds,
            );
            least = lesser_way(least, node, target, join);
        }
    }
    least
}

/// The lesser of a way and the least join over another edge.
fn lesser_way(
    least: Option<FrontWay>,
    node: u32,
    target: u32,
    join: Option<Join>,
) -> Option<FrontWay>
    ensures { result ≡ lesser_way least node target join }
{
    match (least, join) {
        (_, None) => least,
        (Some(way), Some(join)) if !is_less(&join.ranked, &way.join.ranked) => least,
        (_, Some(join)) => Some(FrontWay { node, target, join }),
    }
}
