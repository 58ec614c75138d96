//! The least of a cost over the words that fit.

ghost use Rattle.std.specs.Prelude.{◌≡◌, ◌+◌, ◌*◌, ◌≤◌, length, None, IfOk, IfErr, OnOk};
ghost use Rattle.pc_diagram.specs.declared.which.Which.TheVariants.{First};
ghost use Rattle.pc_diagram.specs.Costs.{part};
ghost use Rattle.pc_diagram.specs.Diagram.{IsCanonical};
ghost use Rattle.pc_diagram.specs.Fitting.{fitting};
ghost use Rattle.pc_diagram.specs.Least.{least_cost, lesser};
ghost use Rattle.pc_diagram.specs.NodePaths.{AreChoicesOf, AreCostsOf};
ghost use Rattle.pc_diagram.specs.Paths.{words};
ghost use Rattle.pc_domains.specs.BoardFaults.{IsEndFault};
ghost use Rattle.pc_domains.specs.LabelLimits.{label_limit, limit_under};
ghost use Rattle.pc_domains.specs.Least.{IsLeastFault, IsLeastItem, other_bound};
ghost use Rattle.pc_pareto.specs.Items.{pair_of};
ghost use Rattle.pc_domains.specs.Sides.{AreDistinctOf};
ghost use Rattle.pc_domains.specs.Slots.{slots_before};
ghost use Rattle.pc_pareto.specs.declared.limits.TheConstants.{MOST_LABELS};

use crate::asked::{keeps, kept_of};
use crate::board_fault::BoardFault;
use crate::ends::is_within;
use crate::swapped::{swapped_bounds, swapped_costs};
use pc_base::NoMemory;
use pc_diagram::{Bounds, Choices, CostPair, Costs, Diagram, Steps, Which};
use pc_labels::tails;
use pc_pareto::{FrontFault, FrontItem, front_heads, front_tails};
use std::alloc::Global;
use std::sync::ledger::Ledger;

/// The least of a cost over the words of a diagram that agree with the choices and keep the bounds; none where none does.
///
/// # Errors
///
/// Where the other cost has a bound, the limit of the fronts, the heads first; or want of memory.
pub fn least<L: Ledger>(
    alloc: Global,
    diagram: &Diagram,
    costs: &Costs,
    choices: &Choices,
    bounds: &Bounds,
    which: Which,
    steps: &mut Steps<L>,
) -> Result<Option<i64>, BoardFault>
    requires costs { AreCostsOf diagram.now.domains costs.now }
    requires choices { AreChoicesOf diagram.now.domains choices.now }
    ensures least { IfOk result (λ least. least ≡ least_cost which costs.now (fitting costs.now (words diagram.now) choices.now bounds.now)) }
    ensures within { OnOk result (limit_under diagram.now costs.now choices.now (other_bound which bounds.now) ≡ None) }
    ensures fault { IfErr result (IsLeastFault (limit_under diagram.now costs.now choices.now (other_bound which bounds.now))) }
    ensures steps { steps.new ≤ steps.old + 2 * slots_before diagram.now (length diagram.now.domains) }
{
    kept_of(diagram, choices);
    match (which, bounds.first, bounds.second) {
        (Which::First, _, None) => Ok(least_by_labels(
            alloc, diagram, costs, choices, bounds, steps,
        )?),
        (Which::Second, None, _) => {
            let costs = swapped_costs(alloc, costs)?;
            let bounds = swapped_bounds(bounds);
            Ok(least_by_labels(alloc, diagram, &costs, choices, &bounds, steps)?)
        }
        _ => Ok(least_by_fronts(alloc, diagram, costs, choices, bounds, which, steps)?),
    }
}

/// The least first cost, where the second has no bound.
fn least_by_labels<L: Ledger>(
    alloc: Global,
    diagram: &Diagram,
    costs: &Costs,
    choices: &Choices,
    bounds: &Bounds,
    steps: &mut Steps<L>,
) -> Result<Option<i64>, NoMemory>
    requires canonical { IsCanonical diagram.now }
    requires costs { AreCostsOf diagram.now.domains costs.now }
    requires choices { AreDistinctOf diagram.now.domains choices.now }
    requires alone { bounds.now.second ≡ None }
    ensures least { IfOk result (λ least. least ≡ least_cost First costs.now (fitting costs.now (words diagram.now) choices.now bounds.now)) }
    ensures steps { steps.new ≤ steps.old + slots_before diagram.now (length diagram.now.domains) }
{
    let labels = tails(alloc, diagram, choices, costs, steps)?;
    let Some(label) = labels.at(0, 0) else {
        return Ok(None);
    };
    let pair = CostPair {
        first: label.first,
        second: label.second,
    };
    if !keeps(bounds, &pair) {
        return Ok(None);
    }
    Ok(Some(pair.first))
}

/// The least cost, by the fronts of both ends.
fn least_by_fronts<L: Ledger>(
    alloc: Global,
    diagram: &Diagram,
    costs: &Costs,
    choices: &Choices,
    bounds: &Bounds,
    which: Which,
    steps: &mut Steps<L>,
) -> Result<Option<i64>, FrontFault>
    requires canonical { IsCanonical diagram.now }
    requires costs { AreCostsOf diagram.now.domains costs.now }
    requires choices { AreDistinctOf diagram.now.domains choices.now }
    ensures least { IfOk result (λ least. least ≡ least_cost which costs.now (fitting costs.now (words diagram.now) choices.now bounds.now)) }
    ensures within { OnOk result (label_limit MOST_LABELS diagram.now costs.now choices.now ≡ None) }
    ensures fault { IfErr result (IsEndFault (label_limit MOST_LABELS diagram.now costs.now choices.now)) }
    ensures steps { steps.new ≤ steps.old + 2 * slots_before diagram.now (length diagram.now.domains) }
{
    front_heads(alloc, diagram, choices, costs, steps)?;
    let fronts = front_tails(alloc, diagram, choices, costs, steps)?;
    Ok(least_item(fronts.items(0, 0), bounds, which))
}

/// The least cost of the items that the bounds allow, if they allow any.
fn least_item(items: &[FrontItem], bounds: &Bounds, which: Which) -> Option<i64>
    ensures { IsLeastItem bounds.now which items.now (length items.now) result }
{
    let mut least = None;
    for item in items {
        if is_within(item, bounds) {
            least = Some(lesser(cost_of(item, which), least));
        }
    }
    least
}

/// One of the costs of an item.
fn cost_of(item: &FrontItem, which: Which) -> i64
    ensures { result ≡ part which (pair_of item.now) }
{
    match which {
        Which::First => item.first,
        Which::Second => item.second,
    }
}

/// The lesser of a cost and of another, if there is another.
fn lesser(cost: i64, other: Option<i64>) -> i64
    ensures { result ≡ lesser cost other }
{
    match other {
        Some(other) if other < cost => other,
        _ => cost,
    }
}
