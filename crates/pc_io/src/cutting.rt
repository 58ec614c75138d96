//! Cutting the next line off a stream.

ghost use Rattle.std.specs.Prelude.{◌≡◌, ◌≢◌, ◌≤◌, ◌<◌, ◌||◌, ◌++◌, ℕ, List, false, true, [], length, IfOk, OnOk, Ok, Err, IsTrue};
ghost use Rattle.std.specs.List.{list_any};
ghost use Rattle.std.specs.Io.KnownBytes.{IsAtEnd, prepend_known};
ghost use Rattle.pc_base.specs.Rose.{Rose};
ghost use Rattle.pc_io.specs.Held.{held};
ghost use Rattle.pc_base.specs.Lines.{HasNoFeed, is_feed};
ghost use Rattle.pc_io.specs.NextLine.{IfLine, answer_to, is_from_outside, taken};

use crate::line_fault::LineFault;
use crate::pending::Pending;
use crate::reading::{Reached, read_line};
use crate::source::Source;
use pc_base::Line;
use std::alloc::Global;

/// The fault of a line that goes past the lower of the two limits.
fn limit_fault(line_limit: u64, left: u64) -> LineFault
    ensures long { line_limit < left → result ≡ LineFault.LineTooLong }
    ensures over { left ≤ line_limit → result ≡ LineFault.TotalTooLong }
{
    if line_limit < left {
        LineFault::LineTooLong
    } else {
        LineFault::TotalTooLong
    }
}

/// Cuts the next line off, with so many bytes left to give.
pub fn cut_line<S: Source>(
    pending: &mut Pending,
    source: &mut S,
    alloc: Global,
    line_limit: u64,
    left: u64,
) -> Result<Option<Line>, LineFault>
    requires no_feed { HasNoFeed pending.old.part }
    requires ended { IsTrue pending.old.ended → pending.old.ahead ≡ [] }
    requires at_end { IsTrue pending.old.ended → IsAtEnd (S.rest source.old) }

    ensures stream { prepend_known (held pending.old) (S.rest source.old)
        ≡ prepend_known (taken result pending.new.ended ++ held pending.new) (S.rest source.new) }
    // Whatever comes after the bytes that were read, they call for this answer.
    ensures exact { is_from_outside result ≡ false → (more : List ℕ) → (IsTrue pending.new.ended → more ≡ [])
        → result ≡ answer_to line_limit left (taken result pending.new.ended ++ held pending.new ++ more) }

    ensures line { IfLine result (λ line. HasNoFeed line × (length line ≤ line_limit)) }
    ensures rises { IfLine result (λ line. 0 < length (taken result pending.new.ended)) }
    ensures within { length (taken result pending.new.ended) ≤ left }
    ensures none { result ≡ Ok None → IsTrue pending.new.ended }
    ensures last { OnOk result (IsTrue pending.new.ended → held pending.new ≡ []) }

    ensures failed { result ≡ Err LineFault.ReadFault → Rose (S.read_faults source.old) (S.read_faults source.new) }
    ensures none_kept { result ≡ Err LineFault.ReadFault → HasNoFeed (held pending.new) }

    ensures no_feed { HasNoFeed pending.new.part }
    ensures ended { IsTrue pending.new.ended → pending.new.ahead ≡ [] }
    ensures at_end { IsTrue pending.new.ended → IsAtEnd (S.rest source.new) }

    ensures unread { (list_any is_feed (held pending.old) || pending.old.ended) ≡ true
        → (source.new ≡ source.old) × (pending.new.ended ≡ pending.old.ended)
        × (held pending.old ≡ taken result pending.new.ended ++ held pending.new) }
    ensures faultless { result ≢ Err LineFault.ReadFault → S.read_faults source.new ≡ S.read_faults source.old }
    ensures counted { S.read_faults source.old ≤ S.read_faults source.new }
    ensures aside { S.read_aside source.new ≡ S.read_aside source.old }
{
    match read_line(pending, source, line_limit.min(left))? {
        Reached::LineFeed => {
            if (pending.part_len() as u64) < left {
                Ok(Some(pending.give_line(alloc)))
            } else {
                Err(LineFault::TotalTooLong)
            }
        }
        Reached::End => Ok(pending.give_last(alloc)),
        Reached::Limit => Err(limit_fault(line_limit, left)),
        Reached::Fault => Err(LineFault::ReadFault),
    }
}
