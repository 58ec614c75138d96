//! The answers to lines that stand for no call.

ghost use Rattle.std.specs.Prelude.{◌≡◌, ◌++◌, OnOk};
ghost use Rattle.pc_conn.specs.Answers.{bad_text, fault_text};

use pc_base::{NoMemory, Text};
use pc_text::Kind;

/// Puts `bad COLUMN` and a line `.` at the end of a text.
pub fn push_bad(text: &mut Text, column: u64) -> Result<(), NoMemory>
    ensures { OnOk result (text.new ≡ text.old ++ bad_text column) }
{
    text.extend_from_slice(b"bad ")?;
    text.push_unsigned(column)?;
    text.extend_from_slice(b"\n.\n")
}

/// Puts `text LINE KIND` and a line `.` at the end of a text.
pub fn push_fault(text: &mut Text, line: u64, kind: Kind) -> Result<(), NoMemory>
    ensures { OnOk result (text.new ≡ text.old ++ fault_text line kind) }
{
    text.extend_from_slice(b"text ")?;
    text.push_unsigned(line)?;
    text.push(b' ')?;
    text.extend_from_slice(kind.word().as_bytes())?;
    text.extend_from_slice(b"\n.\n")
}
