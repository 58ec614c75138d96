//! Why a source isn't cut into lines any further.

use pc_base::NoMemory;
use thiserror::Error;

/// The first three are told again by each later call.
#[derive(Clone, Copy, Debug, PartialEq, Eq, Error)]
pub enum LineFault {
    /// A read failed.
    #[error("a read failed")]
    ReadFault,
    /// The next line has more bytes than the line limit, of those up to the total limit.
    #[error("a line is too long")]
    LineTooLong,
    /// The next line with its line feed or end goes past the total limit.
    #[error("the input is too long")]
    TotalTooLong,
    /// No memory was left. Nothing was lost.
    #[error("out of memory")]
    NoMemory,
}

impl From<NoMemory> for LineFault {
    ghost use Rattle.std.specs.Prelude.{◌≡◌};
    ghost use Rattle.pc_io.specs.declared.line_fault.LineFault.TheVariants.{NoMemory as no_memory};

    ghost from_gives = { λ _ fault. fault ≡ no_memory };

    fn from(_error: NoMemory) -> LineFault {
        LineFault::NoMemory
    }
}
