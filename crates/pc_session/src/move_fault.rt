//! Why what a session asks doesn't move to another version.

use pc_base::NoMemory;
use pc_calls::Outcome;
use pc_domains::BoardFault;

/// Why what a session asks doesn't move to another version.
#[derive(Clone, Copy, Debug)]
pub(crate) enum MoveFault {
    /// The first refusal that stands.
    Refused(Outcome),
    NoMemory,
}

impl From<NoMemory> for MoveFault {
    ghost use Rattle.std.specs.Prelude.{◌≡◌};
    ghost use Rattle.pc_session.specs.declared.move_fault.MoveFault.TheVariants.{NoMemory};

    ghost from_gives = { λ _ e. e ≡ NoMemory };

    fn from(_error: pc_base::NoMemory) -> MoveFault {
        MoveFault::NoMemory
    }
}

impl From<Outcome> for MoveFault {
    ghost use Rattle.std.specs.Prelude.{◌≡◌};
    ghost use Rattle.pc_session.specs.declared.move_fault.MoveFault.TheVariants.{Refused};

    ghost from_gives = { λ refusal e. e ≡ Refused refusal };

    fn from(refusal: Outcome) -> MoveFault {
        MoveFault::Refused(refusal)
    }
}

impl From<BoardFault> for MoveFault {
    ghost use Rattle.std.specs.Prelude.{◌≡◌};
    ghost use Rattle.pc_session.specs.Moving.{fault_of_board};

    ghost from_gives = { λ fault e. e ≡ fault_of_board fault };

    fn from(fault: BoardFault) -> MoveFault {
        match fault {
            BoardFault::LabelLimit { side, layer } => {
                MoveFault::Refused(Outcome::LabelLimit { side, layer })
            }
            BoardFault::NoFit => MoveFault::Refused(Outcome::Conflict),
            BoardFault::NoMemory => MoveFault::NoMemory,
        }
    }
}
