//! Why the fronts of a diagram aren't made.

use pc_base::NoMemory;
use pc_diagram::Side;
use thiserror::Error;

/// Why the fronts of a diagram aren't made.
#[derive(Clone, Copy, Debug, PartialEq, Eq, Error)]
pub enum FrontFault {
    /// The fronts of a side have more than 1,048,576 pairs; the layer is the first, from the side's end, at which they have.
    #[error("label-limit {side} {layer}")]
    LabelLimit { side: Side, layer: u32 },

    #[error("out of memory")]
    NoMemory,
}

impl From<NoMemory> for FrontFault {
    ghost use Rattle.std.specs.Prelude.{◌≡◌};
    ghost use Rattle.pc_pareto.specs.declared.front_fault.FrontFault.TheVariants.{NoMemory};

    ghost from_gives = { λ _ e. e ≡ NoMemory };

    fn from(_error: pc_base::NoMemory) -> FrontFault {
        FrontFault::NoMemory
    }
}
