//! A source read to its end.

ghost use Rattle.std.specs.Prelude.{◌≡◌, ◌≢◌, ◌≤◌, ◌++◌, false, None, Some, Ok, Err, IfOk, IfSome, OnOk, OnErr};
ghost use Rattle.std.specs.Io.KnownBytes.{IsAtEnd, prepend_known};
ghost use Rattle.pc_base.specs.Rose.{Rose};
ghost use Rattle.pc_io.specs.Limits.{broken_limit, text_within};
ghost use Rattle.pc_io.specs.NextLine.{is_from_outside, taken};

use crate::line_fault::LineFault;
use crate::lines::Lines;
use crate::source::Source;
use pc_base::{Line, NoMemory, Text};
use std::alloc::Global;

/// Puts a line back at the end of a text, with its line feed unless it was the last and had none.
fn append_line(text: &mut Text, line: &Line, is_last: bool) -> Result<(), NoMemory>
    ensures { OnOk result (text.new ≡ text.old ++ taken (Ok (Some line.now)) is_last) }
{
    text.extend_from_slice(line.as_slice())?;
    if !is_last {
        text.push(b'\n')?;
    }
    Ok(())
}

/// All bytes of a source, if its lines have at most `line_limit` bytes, and all of it at most `total_limit`.
pub fn whole_text<S: Source>(
    alloc: Global,
    source: &mut S,
    line_limit: u64,
    total_limit: u64,
) -> Result<Text, LineFault>
    // The source was read to its end, and gave the text.
    ensures read { IfOk result (λ text. S.rest source.old ≡ prepend_known text (S.rest source.new)) }
    ensures at_end { OnOk result (IsAtEnd (S.rest source.new)) }
    ensures within { IfOk result (λ text. broken_limit line_limit total_limit text ≡ None) }

    // The bytes call for each answer but a read fault and want of memory.
    ensures exact { is_from_outside result ≡ false → IfSome (S.rest source.old) (λ b.
        result ≡ text_within line_limit total_limit b) }
    ensures failed { result ≡ Err LineFault.ReadFault → Rose (S.read_faults source.old) (S.read_faults source.new) }

    ensures faultless { result ≢ Err LineFault.ReadFault → S.read_faults source.new ≡ S.read_faults source.old }
    ensures counted { S.read_faults source.old ≤ S.read_faults source.new }
    ensures aside { S.read_aside source.new ≡ S.read_aside source.old }
{
    let mut lines = Lines::new(alloc, line_limit, total_limit)?;
    let mut text = Text::new(alloc);
    while let Some(line) = lines.next(source)? {
        append_line(&mut text, &line, lines.has_ended())?;
    }
    Ok(text)
}
