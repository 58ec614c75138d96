//! Why a file isn't compiled.

use pc_base::NoMemory;
use thiserror::Error;

/// Why the set of a rule or of one of its parts wasn't made.
#[derive(Clone, Copy, Debug, PartialEq, Eq, Error)]
pub(crate) enum PartFault {
    /// The set of the part with this number, counted from 1, has more nodes than are allowed.
    #[error("the set of part {part} is too large")]
    TooLarge { part: u32 },
    #[error("out of memory")]
    NoMemory,
}

impl From<NoMemory> for PartFault {
    ghost use Rattle.std.specs.Prelude.{◌≡◌};
    ghost use Rattle.pc_build.specs.declared.fault.PartFault.TheVariants.{NoMemory};

    ghost from_gives = { λ _ e. e ≡ NoMemory };

    fn from(_error: NoMemory) -> PartFault {
        PartFault::NoMemory
    }
}

/// Why a file isn't compiled.
#[derive(Clone, Copy, Debug, PartialEq, Eq, Error)]
pub enum BuildFault {
    /// The set of this part of this rule is the first with more than 262,144 nodes. Both are counted from 1. After the
    /// parts of a rule comes one more: the words for which it and all rules before it hold.
    #[error("the set of part {part} of rule {rule} is too large")]
    NodeLimit { rule: u32, part: u32 },
    #[error("no product obeys all rules")]
    NoProduct,
    #[error("out of memory")]
    NoMemory,
}

impl From<NoMemory> for BuildFault {
    ghost use Rattle.std.specs.Prelude.{◌≡◌};
    ghost use Rattle.pc_build.specs.declared.fault.BuildFault.TheVariants.{NoMemory};

    ghost from_gives = { λ _ e. e ≡ NoMemory };

    fn from(_error: NoMemory) -> BuildFault {
        BuildFault::NoMemory
    }
}
