//! What a session is asked to change.

ghost use Rattle.std.specs.Prelude.{◌≡◌};
ghost use Rattle.pc_book.specs.Change.{change_call};

use pc_calls::Call;
use pc_names::Name;

/// What a call changes of what a session asks.
#[derive(Clone, Copy, Debug)]
pub enum Change {
    /// Chooses a value for a variable.
    Choose { variable: Name, value: Name },
    /// Takes back the choice of a variable.
    Retract { variable: Name },
    /// Bounds a cost.
    Bound { cost: Name, most: i64 },
    /// Takes back the bound of a cost.
    Unbound { cost: Name },
}

impl Change {
    /// The call that asks for this change of the session of a number.
    pub fn call(&self, session: u64) -> Call
        ensures { result ≡ change_call session self.now }
    {
        match *self {
            Change::Choose { variable, value } => Call::Choose {
                session,
                variable,
                value,
            },
            Change::Retract { variable } => Call::Retract { session, variable },
            Change::Bound { cost, most } => Call::Bound {
                session,
                cost,
                most,
            },
            Change::Unbound { cost } => Call::Unbound { session, cost },
        }
    }
}
