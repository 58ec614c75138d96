//! Why a text is no product file.

use pc_rules::Kind;
use pc_base::NoMemory;
use thiserror::Error;

/// Why no file is read.
#[derive(Clone, Copy, Debug, PartialEq, Eq, Error)]
pub enum TextFault {
    /// The first fault: the number of its line, counted from 1, and its kind.
    #[error("line {line}: {}", .kind.word())]
    At { line: u64, kind: Kind },
    #[error("out of memory")]
    NoMemory,
}

impl From<NoMemory> for TextFault {
    ghost use Rattle.std.specs.Prelude.{◌≡◌};
    ghost use Rattle.pc_text.specs.declared.text_fault.TextFault.TheVariants.{NoMemory};

    ghost from_gives = { λ _ e. e ≡ NoMemory };

    fn from(_error: pc_base::NoMemory) -> TextFault {
        TextFault::NoMemory
    }
}
