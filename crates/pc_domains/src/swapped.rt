//! The two costs changed about.

ghost use Rattle.std.specs.Prelude.{◌≡◌, map, IfOk};
ghost use Rattle.pc_domains.specs.Least.{swapped, swapped_bounds, swapped_costs};

use pc_base::{NoMemory, Sequence};
use pc_diagram::{Bounds, CostPair, Costs};
use std::alloc::Global;

/// Costs whose first is the second of these, and the other way.
pub(crate) fn swapped_costs(alloc: Global, costs: &Costs) -> Result<Costs, NoMemory>
    ensures { IfOk result (λ swapped. swapped ≡ swapped_costs costs.now) }
{
    let mut rows = Costs::new(alloc);
    for row in costs.as_slice() {
        rows.push(swapped_row(alloc, row)?)?;
    }
    Ok(rows)
}

/// Bounds whose first is the second of these, and the other way.
pub(crate) fn swapped_bounds(bounds: &Bounds) -> Bounds
    ensures { result ≡ swapped_bounds bounds.now }
{
    Bounds {
        first: bounds.second,
        second: bounds.first,
    }
}

fn swapped_row(alloc: Global, row: &Sequence<CostPair>) -> Result<Sequence<CostPair>, NoMemory>
    ensures { IfOk result (λ pairs. pairs ≡ map swapped row.now) }
{
    let mut pairs = Sequence::new(alloc);
    for pair in row.as_slice() {
        pairs.push(swapped(pair))?;
    }
    Ok(pairs)
}

fn swapped(pair: &CostPair) -> CostPair
    ensures { result ≡ swapped pair.now }
{
    CostPair {
        first: pair.second,
        second: pair.first,
    }
}
