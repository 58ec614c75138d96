//! Why a board isn't made.

use pc_base::NoMemory;
use pc_diagram::Side;
use pc_pareto::FrontFault;
use thiserror::Error;

/// Why a board isn't made.
#[derive(Clone, Copy, Debug, PartialEq, Eq, Error)]
pub enum BoardFault {
    /// A bound that asks for fronts is set, and the fronts of a side have more than 1,048,576 pairs; the layer is the first, from
    /// the side's end, at which they have. The heads come first.
    #[error("label-limit {side} {layer}")]
    LabelLimit { side: Side, layer: u32 },

    /// No word of the diagram agrees with the choices and keeps the bounds.
    #[error("no word fits")]
    NoFit,

    #[error("out of memory")]
    NoMemory,
}

impl From<NoMemory> for BoardFault {
    ghost use Rattle.std.specs.Prelude.{◌≡◌};
    ghost use Rattle.pc_domains.specs.declared.board_fault.BoardFault.TheVariants.{NoMemory};

    ghost from_gives = { λ _ e. e ≡ NoMemory };

    fn from(_error: pc_base::NoMemory) -> BoardFault {
        BoardFault::NoMemory
    }
}

impl From<FrontFault> for BoardFault {
    ghost use Rattle.std.specs.Prelude.{◌≡◌};
    ghost use Rattle.pc_domains.specs.BoardFaults.{fault_of_front};

    ghost from_gives = { λ fault e. e ≡ fault_of_front fault };

    fn from(fault: FrontFault) -> BoardFault {
        match fault {
            FrontFault::LabelLimit { side, layer } => BoardFault::LabelLimit { side, layer },
            FrontFault::NoMemory => BoardFault::NoMemory,
        }
    }
}
