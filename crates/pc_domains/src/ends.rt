//! What is kept of a diagram's nodes from one of its ends.

ghost use Rattle.std.specs.List.{list_any};
ghost use Rattle.std.specs.Prelude.{◌≡◌, ◌<◌, ◌≤◌, ◌+◌, ◌-◌, length, None, IfOk, IfErr, OnOk};
ghost use Rattle.pc_diagram.specs.Bounds.{allows_pair};
ghost use Rattle.pc_diagram.specs.NodePaths.{AreChoicesOf, AreCostsOf};
ghost use Rattle.pc_domains.specs.BoardFaults.{IsEndFault};
ghost use Rattle.pc_domains.specs.Ends.{HasRoot, IsEndOf, WasEndOf, root_is_within};
ghost use Rattle.pc_domains.specs.Floors.{HasSummedLayer, IsEndFloor};
ghost use Rattle.pc_domains.specs.LabelLimits.{end_limit};
ghost use Rattle.pc_pareto.specs.Items.{pair_of};
ghost use Rattle.pc_domains.specs.Slots.{slots_again, slots_before};

use crate::asked::keeps;
use crate::floor::floor;
use pc_diagram::{Bounds, Choices, CostPair, Costs, Diagram, Side, Steps};
use pc_labels::{Labels, heads, tails};
use pc_pareto::{FrontFault, FrontItem, Fronts, front_heads, front_tails};
use std::alloc::Global;
use std::sync::ledger::Ledger;

/// What is kept of the nodes of a diagram from one of its ends.
#[derive(Debug, Drop)]
pub enum Ends {
    /// Of each node its cheapest path.
    Least(Labels),
    /// Of each node the front of the costs of its paths.
    Pairs(Fronts),
}

impl Ends {
    /// What is kept from an end with these choices: fronts where the second cost has a bound, and else labels.
    ///
    /// # Errors
    ///
    /// The limit of the end's fronts, or want of memory.
    pub(crate) fn of<L: Ledger>(
        alloc: Global,
        side: Side,
        diagram: &Diagram,
        costs: &Costs,
        choices: &Choices,
        second: Option<i64>,
        steps: &mut Steps<L>,
    ) -> Result<Ends, FrontFault>
        requires costs { AreCostsOf diagram.now.domains costs.now }
        requires choices { AreChoicesOf diagram.now.domains choices.now }
        ensures end { IfOk result (IsEndOf side diagram.now costs.now choices.now second) }
        ensures within { OnOk result (end_limit side diagram.now costs.now choices.now second ≡ None) }
        ensures fault { IfErr result (IsEndFault (end_limit side diagram.now costs.now choices.now second)) }
        ensures steps { steps.new ≤ steps.old + slots_before diagram.now (length diagram.now.domains) }
    {
        Ok(match (second, side) {
            (None, Side::Heads) => Ends::Least(heads(alloc, diagram, choices, costs, steps)?),
            (None, Side::Tails) => Ends::Least(tails(alloc, diagram, choices, costs, steps)?),
            (Some(_), Side::Heads) => Ends::Pairs(front_heads(
                alloc, diagram, choices, costs, steps,
            )?),
            (Some(_), Side::Tails) => Ends::Pairs(front_tails(
                alloc, diagram, choices, costs, steps,
            )?),
        })
    }

    /// What is kept from this end with these choices, brought forward from what was kept with choices that agree with these at
    /// every variable other than one.
    ///
    /// # Errors
    ///
    /// The limit of the end's fronts, or want of memory.
    pub(crate) fn again<L: Ledger>(
        &self,
        alloc: Global,
        side: Side,
        diagram: &Diagram,
        costs: &Costs,
        choices: &Choices,
        second: Option<i64>,
        variable: u32,
        steps: &mut Steps<L>,
    ) -> Result<Ends, FrontFault>
        requires costs { AreCostsOf diagram.now.domains costs.now }
        requires choices { AreChoicesOf diagram.now.domains choices.now }
        requires variable { variable < length diagram.now.domains }
        requires before { WasEndOf side diagram.now costs.now choices.now second variable self.now }
        ensures end { IfOk result (IsEndOf side diagram.now costs.now choices.now second) }
        ensures within { OnOk result (end_limit side diagram.now costs.now choices.now second ≡ None) }
        ensures fault { IfErr result (IsEndFault (end_limit side diagram.now costs.now choices.now second)) }
        ensures steps { steps.new ≤ steps.old + slots_again side diagram.now variable }
    {
        Ok(match (self, side) {
            (Ends::Least(labels), Side::Heads) => {
                Ends::Least(labels.heads_again(alloc, diagram, choices, costs, variable, steps)?)
            }
            (Ends::Least(labels), Side::Tails) => {
                Ends::Least(labels.tails_again(alloc, diagram, choices, costs, variable, steps)?)
            }
            (Ends::Pairs(fronts), Side::Heads) => {
                Ends::Pairs(fronts.heads_again(alloc, diagram, choices, costs, variable, steps)?)
            }
            (Ends::Pairs(fronts), Side::Tails) => {
                Ends::Pairs(fronts.tails_again(alloc, diagram, choices, costs, variable, steps)?)
            }
        })
    }

    /// The least costs of a layer of so many nodes, where labels are kept and it has any.
    pub(crate) fn floor(&self, layer: u32, count: u32) -> Option<CostPair>
        requires { HasSummedLayer self.now layer count }
        ensures { IsEndFloor self.now layer result }
    {
        match self {
            Ends::Least(labels) => floor(labels, layer, count),
            Ends::Pairs(_) => None,
        }
    }

    /// Whether a path that is kept of the root, of those to the end, is within the bounds.
    pub(crate) fn root_is_within(&self, bounds: &Bounds) -> bool
        requires { HasRoot self.now }
        ensures { result ≡ root_is_within bounds.now self.now }
    {
        match self {
            Ends::Least(labels) => match labels.at(0, 0) {
                Some(label) => keeps(
                    bounds,
                    &CostPair {
                        first: label.first,
                        second: label.second,
                    },
                ),
                None => false,
            },
            Ends::Pairs(fronts) => some_within(fronts.items(0, 0), bounds),
        }
    }
}

/// Whether the costs of some item are within the bounds.
fn some_within(items: &[FrontItem], bounds: &Bounds) -> bool
    ensures { result ≡ list_any (λ item. allows_pair bounds.now (pair_of item)) items.now }
{
    items.iter().any(|item| is_within(item, bounds))
}

/// Whether the costs of an item are within the bounds.
pub(crate) fn is_within(item: &FrontItem, bounds: &Bounds) -> bool
    ensures { result ≡ allows_pair bounds.now (pair_of item.now) }
{
    let pair = CostPair {
        first: item.first,
        second: item.second,
    };
    keeps(bounds, &pair)
}
