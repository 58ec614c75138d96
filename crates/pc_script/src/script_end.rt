//! How a script ends.

use pc_base::NoMemory;
use pc_conn::BodyFault;
use pc_io::{Failed, LineFault};

/// Why a script was read no further.
#[derive(Clone, Copy, Debug, PartialEq, Eq)]
pub enum ScriptEnd {
    /// The input was read to its end, and all of it was answered.
    Ended,
    /// A read failed.
    ReadFault,
    /// A write failed.
    WriteFault,
    /// A line has more than 65,536 bytes, or all lines have more than 16,777,216.
    TooLong,
    /// No memory was left.
    NoMemory,
}

impl From<NoMemory> for ScriptEnd {
    ghost use Rattle.std.specs.Prelude.{◌≡◌};
    ghost use Rattle.pc_script.specs.declared.script_end.ScriptEnd.TheVariants.{NoMemory as no_memory};

    ghost from_gives = { λ _ end. end ≡ no_memory };

    fn from(_error: NoMemory) -> ScriptEnd {
        ScriptEnd::NoMemory
    }
}

impl From<Failed> for ScriptEnd {
    ghost use Rattle.std.specs.Prelude.{◌≡◌};
    ghost use Rattle.pc_script.specs.declared.script_end.ScriptEnd.TheVariants.{WriteFault};

    ghost from_gives = { λ _ end. end ≡ WriteFault };

    fn from(_error: Failed) -> ScriptEnd {
        ScriptEnd::WriteFault
    }
}

impl From<LineFault> for ScriptEnd {
    ghost use Rattle.std.specs.Prelude.{◌≡◌};
    ghost use Rattle.pc_script.specs.EndBy.{end_by};

    ghost from_gives = { λ fault end. end ≡ end_by fault };

    fn from(fault: LineFault) -> ScriptEnd {
        match fault {
            LineFault::ReadFault => ScriptEnd::ReadFault,
            LineFault::LineTooLong | LineFault::TotalTooLong => ScriptEnd::TooLong,
            LineFault::NoMemory => ScriptEnd::NoMemory,
        }
    }
}

impl From<BodyFault> for ScriptEnd {
    ghost use Rattle.std.specs.Prelude.{◌≡◌};
    ghost use Rattle.pc_script.specs.EndBy.{end_by_body};

    ghost from_gives = { λ fault end. end ≡ end_by_body fault };

    fn from(fault: BodyFault) -> ScriptEnd {
        match fault {
            BodyFault::Line(fault) => ScriptEnd::from(fault),
            BodyFault::NoMemory => ScriptEnd::NoMemory,
        }
    }
}
