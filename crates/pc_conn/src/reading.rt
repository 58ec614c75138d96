//! Reading the text that follows a publish.

ghost use Rattle.std.specs.Prelude.{◌≡◌, ◌≢◌, ◌≤◌, ◌<◌, false, [], None, IsTrue, IfSome, OnOk, Ok, Err};
ghost use Rattle.std.specs.Io.KnownBytes.{IsAtEnd};
ghost use Rattle.pc_base.specs.Rose.{Rose};
ghost use Rattle.pc_io.specs.declared.line_fault.LineFault.TheVariants.{ReadFault};
ghost use Rattle.pc_conn.specs.declared.body.Body.TheVariants.{Cut};
ghost use Rattle.pc_conn.specs.declared.body_fault.BodyFault.TheVariants.{Line};
ghost use Rattle.pc_conn.specs.Reading.{ReadsBody, fault_kept};

use crate::body::Body;
use crate::body_fault::BodyFault;
use crate::body_text::body_of;
use pc_base::Text;
use pc_io::{Lines, Source};
use std::alloc::Global;

/// The text of the next `count` lines, each with a line feed: the file that it spells, or its first fault. Where the
/// input ends before, it is cut. The lines that were taken stay taken, whatever is answered.
pub fn read_body<S: Source>(
    alloc: Global,
    lines: &mut Lines,
    source: &mut S,
    count: u64,
) -> Result<Body, BodyFault>
    requires at_end { IsTrue lines.old.ended → IsAtEnd (S.rest source.old) }
    ensures read { ReadsBody count result
        (record { cutter = lines.old; rest = S.rest source.old })
        (record { cutter = lines.new; rest = S.rest source.new }) }
    ensures failed { lines.old.fault ≡ None → result ≡ Err (Line ReadFault)
        → Rose (S.read_faults source.old) (S.read_faults source.new) }
    ensures at_end { IsTrue lines.new.ended → IsAtEnd (S.rest source.new) }
    ensures none_kept { (IsTrue lines.old.ended → lines.old.kept ≡ [])
        → OnOk result (IsTrue lines.new.ended → lines.new.kept ≡ []) }
    // Its fault, but for want of memory, is told again by each later call.
    ensures told { lines.old.fault ≡ None → lines.new.fault ≡ fault_kept result }
    // A fault that was told before is told again, unless there is no line to ask for.
    ensures again { IfSome lines.old.fault (λ fault. 0 < count → lines.old.ended ≡ false
        → (result ≡ Err (Line fault)) × (lines.new ≡ lines.old) × (source.new ≡ source.old)) }
    ensures within { lines.old.given ≤ lines.old.total_limit → lines.new.given ≤ lines.new.total_limit }
    // Where the input has ended nothing is taken.
    ensures stays_ended { IsTrue lines.old.ended → IsTrue lines.new.ended }
    ensures calm { IsTrue lines.old.ended → lines.new.given ≡ lines.old.given }
    ensures faultless { result ≢ Err (Line ReadFault) → S.read_faults source.new ≡ S.read_faults source.old }
    ensures counted { S.read_faults source.old ≤ S.read_faults source.new }
    ensures aside { S.read_aside source.new ≡ S.read_aside source.old }
{
    let mut text = Text::new(alloc);
    let mut taken = 0;
    while taken < count {
        if lines.has_ended() {
            return Ok(Body::Cut);
        }
        let Some(line) = lines.next(source)? else {
            return Ok(Body::Cut);
        };
        text.extend_from_slice(line.as_slice())?;
        text.push(b'\n')?;
        taken += 1;
    }
    Ok(body_of(alloc, text.as_slice())?)
}
