//! What is asked of values and costs: what a value costs, whether the choices allow it, and whether bounds are kept.

ghost use Rattle.std.specs.Prelude.{◌≡◌, ◌<◌, [], length, slice_index_or, IsTrue};
ghost use Rattle.pc_diagram.specs.Bounds.{allows_pair};
ghost use Rattle.pc_diagram.specs.Choices.{are_distinct, value_of};
ghost use Rattle.pc_diagram.specs.Costs.{IsPriced, IsPricePair};
ghost use Rattle.pc_diagram.specs.Diagram.{IsCanonical};
ghost use Rattle.pc_diagram.specs.NodePaths.{is_allowed};
ghost use Rattle.pc_domains.specs.Sides.{price_of};

use crate::join::allows;
use pc_diagram::{Bounds, Choices, CostPair, Costs, Diagram};

/// The costs of a value.
pub(crate) fn price_of(costs: &Costs, variable: u32, value: u32) -> CostPair
    requires variable { variable < length costs.now }
    requires value { value < length (slice_index_or costs.now variable []) }
    requires priced { IsPriced costs.now }
    ensures is { result ≡ price_of costs.now variable value }
    ensures in_range { IsPricePair result }
{
    costs.as_slice()[variable as usize].as_slice()[value as usize]
}

/// Whether choices allow a value: it is the chosen one, or none is chosen.
pub(crate) fn allows_value(choices: &Choices, variable: u32, value: u32) -> bool
    ensures { result ≡ is_allowed (value_of choices.now variable) value }
{
    match choices.value_of(variable) {
        Some(chosen) => chosen == value,
        None => true,
    }
}

/// Whether costs keep the bounds that are set.
pub(crate) fn keeps(bounds: &Bounds, pair: &CostPair) -> bool
    ensures { result ≡ allows_pair bounds.now pair.now }
{
    allows(bounds.first, pair.first) && allows(bounds.second, pair.second)
}

/// What every diagram and all choices keep, told of these: the diagram is canonical, and no variable is chosen twice. It does
/// nothing at run time.
pub(crate) fn kept_of(diagram: &Diagram, choices: &Choices)
    ensures canonical { IsCanonical diagram.now }
    ensures distinct { IsTrue (are_distinct choices.now) }
{
    let _ = diagram.domains();
    let _ = choices.as_slice();
}
