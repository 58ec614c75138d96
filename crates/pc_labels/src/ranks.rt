//! Ranks of a layer, made small again.

ghost use Rattle.std.specs.Prelude.{◌≡◌, ◌↔◌, ◌*◌, ◌≤◌, ◌<◌, length, IfOk, IsTrue};
ghost use Rattle.pc_diagram.specs.declared.limits.TheConstants.{MOST_VALUES};
ghost use Rattle.pc_diagram.specs.Weight.{rank_count};

use crate::layer::Layer;

/// How many ranks a weight has place for.
const RANKS: u64 = 4_503_599_627_370_496;

/// Whether ranks that are made of those of a layer and of a variable's values would pass the greatest.
pub(crate) fn needs_ranks_anew(layer: &Layer, domain: u32) -> bool
    requires { domain ≤ MOST_VALUES }
    ensures { IsTrue result ↔ (rank_count < layer.now.limit * domain) }
{
    layer.limit() * u64::from(domain) > RANKS
}
