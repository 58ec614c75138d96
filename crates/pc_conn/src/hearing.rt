//! Hearing what a line says.

ghost use Rattle.std.specs.Prelude.{◌≡◌, length};
ghost use Rattle.pc_calls.specs.declared.line_call.LineCall.TheVariants.{Whole};
ghost use Rattle.pc_calls.specs.CallWords.{spellings, call_words, IsSayable};
ghost use Rattle.pc_calls.specs.LineWords.{words_from};
ghost use Rattle.pc_conn.specs.Items.{IfCall, heard};

use crate::item::{Announced, Heard, Item};
use pc_base::Line;
use pc_calls::{LineCall, read_call};

/// What the words of a line say from a byte on.
pub fn hear(line: &Line, from: u64) -> Heard
    ensures heard { result ≡ heard line.now from }
    ensures said { IfCall result (λ call. IsSayable (Whole call) × (spellings (words_from line.now from) ≡ call_words (Whole call))) }
{
    match read_call(line, from) {
        Ok(LineCall::Whole(call)) => Heard::Item(Item::Call(call)),
        Ok(LineCall::PublishHead { base, lines }) => Heard::Publish(Announced {
            base,
            lines,
            end_column: line.as_slice().len() as u64 + 1,
        }),
        Err(wrong) => Heard::Item(Item::Bad {
            column: wrong.column,
        }),
    }
}
