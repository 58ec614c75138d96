//! Reading on to the end of a line.

ghost use Rattle.std.specs.Prelude.{◌≡◌, ◌≢◌, ◌≤◌, ◌+◌, ◌<◌, ◌↔◌, ◌||◌, true, [], length, Ok, IfOk, IsTrue};
ghost use Rattle.std.specs.List.{list_any};
ghost use Rattle.std.specs.Io.KnownBytes.{IsAtEnd, prepend_known};
ghost use Rattle.pc_base.specs.Rose.{Rose};
ghost use Rattle.pc_io.specs.Held.{held};
ghost use Rattle.pc_base.specs.Lines.{HasNoFeed, is_feed};
ghost use Rattle.pc_io.specs.Reached.{Reaches};

use crate::pending::Pending;
use crate::source::Source;
use pc_base::NoMemory;

/// Where the reading of a line stopped.
#[derive(Clone, Copy, Debug, PartialEq, Eq)]
pub enum Reached {
    /// At the line feed, which is the next byte ahead.
    LineFeed,
    /// At the end of the source.
    End,
    /// The line has more bytes than asked for.
    Limit,
    /// A read failed.
    Fault,
}

/// Whether the part and so many bytes after it are more than `most`.
fn is_past(pending: &Pending, ahead: usize, most: u64) -> bool
    ensures { IsTrue result ↔ (most < length pending.now.part + ahead) }
{
    match most.checked_sub(pending.part_len() as u64) {
        Some(room) => room < ahead as u64,
        None => true,
    }
}

/// Reads until the part is the next line, if it has at most `most` bytes.
pub fn read_line<S: Source>(
    pending: &mut Pending,
    source: &mut S,
    most: u64,
) -> Result<Reached, NoMemory>
    requires no_feed { HasNoFeed pending.old.part }
    requires ended { IsTrue pending.old.ended → pending.old.ahead ≡ [] }
    requires at_end { IsTrue pending.old.ended → IsAtEnd (S.rest source.old) }

    ensures reached { IfOk result (λ reached. Reaches reached most pending.new) }
    ensures failed { result ≡ Ok Reached.Fault → Rose (S.read_faults source.old) (S.read_faults source.new) }
    ensures stream { prepend_known (held pending.old) (S.rest source.old)
        ≡ prepend_known (held pending.new) (S.rest source.new) }

    ensures no_feed { HasNoFeed pending.new.part }
    ensures ended { IsTrue pending.new.ended → pending.new.ahead ≡ [] }
    ensures at_end { IsTrue pending.new.ended → IsAtEnd (S.rest source.new) }

    // It reads only where no line feed is held and the end wasn't given.
    ensures unread { (list_any is_feed (held pending.old) || pending.old.ended) ≡ true
        → (source.new ≡ source.old) × (held pending.new ≡ held pending.old) × (pending.new.ended ≡ pending.old.ended) }
    // A read that failed is told at once.
    ensures faultless { result ≢ Ok Reached.Fault → S.read_faults source.new ≡ S.read_faults source.old }
    ensures counted { S.read_faults source.old ≤ S.read_faults source.new }
    ensures aside { S.read_aside source.new ≡ S.read_aside source.old }
{
    loop {
        let ahead = pending.line_bytes_ahead();
        if is_past(pending, ahead, most) {
            return Ok(Reached::Limit);
        }
        pending.keep(ahead)?;
        if !pending.is_ahead_empty() {
            return Ok(Reached::LineFeed);
        }
        if pending.has_ended() {
            return Ok(Reached::End);
        }
        let Ok(()) = pending.fill(source) else {
            return Ok(Reached::Fault);
        };
    }
}
