//! Why no text is read.

use pc_base::NoMemory;
use pc_io::LineFault;
use thiserror::Error;

/// The source couldn't be cut into the lines of a text, or memory ran out.
#[derive(Clone, Copy, Debug, PartialEq, Eq, Error)]
pub enum BodyFault {
    #[error("no line was read")]
    Line(LineFault),
    #[error("out of memory")]
    NoMemory,
}

impl From<LineFault> for BodyFault {
    ghost use Rattle.std.specs.Prelude.{◌≡◌};
    ghost use Rattle.pc_conn.specs.declared.body_fault.BodyFault.TheVariants.{Line};

    ghost from_gives = { λ line fault. fault ≡ Line line };

    fn from(fault: LineFault) -> BodyFault {
        BodyFault::Line(fault)
    }
}

impl From<NoMemory> for BodyFault {
    ghost use Rattle.std.specs.Prelude.{◌≡◌};
    ghost use Rattle.pc_conn.specs.declared.body_fault.BodyFault.TheVariants.{NoMemory as no_memory};

    ghost from_gives = { λ _ fault. fault ≡ no_memory };

    fn from(_error: NoMemory) -> BodyFault {
        BodyFault::NoMemory
    }
}
