//! A diagram's text, read from a source.

ghost use Rattle.std.specs.Prelude.{◌≡◌, ◌≢◌, ◌<◌, ◌≤◌, ◌^◌, false, None, Err, IfOk, IfSome};
ghost use Rattle.pc_base.specs.Rose.{Rose};
ghost use Rattle.pc_io.specs.NextLine.{is_from_outside};
ghost use Rattle.pc_dump.specs.Reading.{IsReadOf, Reads};

use crate::dump::Dump;
use crate::reader::Reader;
use pc_io::{LineFault, Lines, Source};
use std::alloc::Global;

/// What the lines of a source are, read to its end. Only the tables and one line are held, and the time is in step with
/// the bytes.
pub fn read_dump<S: Source>(
    alloc: Global,
    source: &mut S,
    line_limit: u64,
    total_limit: u64,
) -> Result<Dump, LineFault>
    requires { total_limit < 2 ^ 62 }

    // The source was read to its end, and gave a text within the limits, whose lines are these.
    ensures read { IfOk result (λ dump. Reads line_limit total_limit dump (S.rest source.old) (S.rest source.new)) }

    // The bytes call for each answer but a read fault and want of memory.
    ensures exact { is_from_outside result ≡ false → IfSome (S.rest source.old) (IsReadOf line_limit total_limit result) }
    ensures failed { result ≡ Err LineFault.ReadFault → Rose (S.read_faults source.old) (S.read_faults source.new) }

    ensures faultless { result ≢ Err LineFault.ReadFault → S.read_faults source.new ≡ S.read_faults source.old }
    ensures counted { S.read_faults source.old ≤ S.read_faults source.new }
    ensures aside { S.read_aside source.new ≡ S.read_aside source.old }
{
    let mut lines = Lines::new(alloc, line_limit, total_limit)?;
    let mut reader = Reader::new(alloc);
    while let Some(line) = lines.next(source)? {
        reader.take(alloc, line.as_slice())?;
    }
    Ok(reader.finish())
}
