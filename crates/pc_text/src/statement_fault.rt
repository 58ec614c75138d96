//! Why a statement isn't taken.

use pc_base::NoMemory;
use pc_rules::{Kind, RuleFault};

/// Why a statement isn't taken.
#[derive(Clone, Copy, Debug)]
pub enum StatementFault {
    /// Its first fault is of this kind.
    Fault(Kind),
    NoMemory,
}

impl From<NoMemory> for StatementFault {
    ghost use Rattle.std.specs.Prelude.{◌≡◌};
    ghost use Rattle.pc_text.specs.declared.statement_fault.StatementFault.TheVariants.{NoMemory};

    ghost from_gives = { λ _ fault. fault ≡ NoMemory };

    fn from(_error: pc_base::NoMemory) -> StatementFault {
        StatementFault::NoMemory
    }
}

impl From<RuleFault> for StatementFault {
    ghost use Rattle.std.specs.Prelude.{◌≡◌};
    ghost use Rattle.pc_text.specs.Told.{of_rule};

    ghost from_gives = { λ rule fault. fault ≡ of_rule rule };

    fn from(fault: RuleFault) -> StatementFault {
        match fault {
            RuleFault::Fault(kind) => StatementFault::Fault(kind),
            RuleFault::NoMemory => StatementFault::NoMemory,
        }
    }
}
