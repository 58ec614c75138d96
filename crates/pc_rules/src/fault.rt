//! Why a rule isn't read.

ghost use Rattle.std.specs.Prelude.{◌≡◌};

use crate::kind::Kind;
use pc_base::NoMemory;
use std::alloc::{AllocError, AllocFailed};
use thiserror::Error;

/// Why no rule is read.
#[derive(Debug, Drop, Error)]
pub enum RuleFault {
    /// The first fault of the rule's text is of this kind.
    #[error("fault of kind {}", .0.word())]
    Fault(Kind),
    #[error("out of memory")]
    NoMemory,
}

/// The fault of tokens that are no rule.
pub fn refused() -> RuleFault
    ensures { result ≡ RuleFault.Fault Kind.Rule }
{
    RuleFault::Fault(Kind::Rule)
}

impl From<NoMemory> for RuleFault {
    ghost use Rattle.std.specs.Prelude.{◌≡◌};
    ghost use Rattle.pc_rules.specs.declared.fault.RuleFault.TheVariants.{NoMemory};

    ghost from_gives = { λ _ fault. fault ≡ NoMemory };

    fn from(_error: pc_base::NoMemory) -> RuleFault {
        RuleFault::NoMemory
    }
}

impl From<AllocError> for RuleFault {
    ghost use Rattle.std.specs.Prelude.{◌≡◌};
    ghost use Rattle.pc_rules.specs.declared.fault.RuleFault.TheVariants.{NoMemory};

    ghost from_gives = { λ _ fault. fault ≡ NoMemory };

    fn from(_error: AllocError) -> RuleFault {
        RuleFault::NoMemory
    }
}

impl<T: Drop> From<AllocFailed<T>> for RuleFault {
    ghost use Rattle.std.specs.Prelude.{◌≡◌};
    ghost use Rattle.pc_rules.specs.declared.fault.RuleFault.TheVariants.{NoMemory};

    ghost from_gives = { λ _ fault. fault ≡ NoMemory };

    fn from(_error: AllocFailed<T>) -> RuleFault {
        RuleFault::NoMemory
    }
}
