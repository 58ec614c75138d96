//! A source cut into lines.

ghost use Rattle.std.specs.Prelude.{◌≡◌, ◌≢◌, ◌≤◌, ◌<◌, ◌+◌, ◌^◌, ◌||◌, ◌∷◌, ◌++◌, false, true, [], length, None, Some, Ok, Err, IfOk, IfSome, OnOk, IsTrue};
ghost use Rattle.std.specs.List.{list_any};
ghost use Rattle.std.specs.Option.{option_map};
ghost use Rattle.std.specs.Io.KnownBytes.{IsAtEnd, prepend_known};
ghost use Rattle.pc_base.specs.Rose.{Rose};
ghost use Rattle.pc_io.specs.Cutter.{left_to_give, stream};
ghost use Rattle.pc_base.specs.Lines.{HasNoFeed, is_feed, lines};
ghost use Rattle.pc_io.specs.NextLine.{IfLine, answer_to, fault_left, is_from_outside, lasting, taken};

use crate::cutting::cut_line;
use crate::line_fault::LineFault;
use crate::pending::Pending;
use crate::source::Source;
use pc_base::{Line, NoMemory};
use std::alloc::Global;
use std::marker::Model;

/// The most bytes of a line of what the program reads, without its line feed.
pub const MOST_LINE_BYTES: u64 = 65_536;

/// Cuts a source into lines. It holds no source: each call is to be given the same one.
///
/// A line is the bytes up to the next line feed, without it, or those after the last line feed if there are any. A
/// carriage return is an ordinary byte. A line has at most the line limit of bytes, and all lines with their line
/// feeds have at most the total limit.
#[derive(Debug, Drop)]
pub struct Lines {
    alloc: Global,
    line_limit: u64,
    total_limit: u64,
    pending: Pending,
    given: u64,
    fault: Option<LineFault>,
}

impl Model for Lines {
    ghost use Rattle.std.specs.Prelude.{◌≡◌, ◌≤◌, [], Some, IsTrue, option_and_then};
    ghost use Rattle.pc_io.specs.Cutter.{Cutter};
    ghost use Rattle.pc_io.specs.Held.{held};
    ghost use Rattle.pc_base.specs.Lines.{HasNoFeed};
    ghost use Rattle.pc_io.specs.NextLine.{lasting};
    ghost use Rattle.pc_io.specs.declared.line_fault.LineFault.TheVariants.{ReadFault};

    ghost Value = { Cutter };

    ghost view = { λ l. record {
      line_limit = l.line_limit;
      total_limit = l.total_limit;
      kept = held l.pending;
      given = l.given;
      ended = l.pending.ended;
      fault = l.fault;
    } };

    ghost invariant = { λ l. (l.given ≤ l.total_limit) × HasNoFeed l.pending.part × (IsTrue l.pending.ended → l.pending.ahead ≡ [])
        × (l.fault ≡ Some ReadFault → HasNoFeed (held l.pending)) × (option_and_then lasting l.fault ≡ l.fault) };
}

/// The fault that each later call is to tell again.
fn lasting_fault(fault: LineFault) -> Option<LineFault>
    ensures { result ≡ lasting fault }
{
    match fault {
        LineFault::NoMemory => None,
        told => Some(told),
    }
}

/// How many bytes a line took: its own, and its line feed unless the source has ended.
fn bytes_taken(line: &Line, ended: bool) -> u64
    requires { length (taken (Ok (Some line.now)) ended) < 2 ^ 64 }
    ensures { result ≡ length (taken (Ok (Some line.now)) ended) }
{
    let bytes = line.len() as u64;
    if ended { bytes } else { bytes + 1 }
}

impl Lines {
    /// Nothing is read yet. The limits are numbers of bytes.
    pub fn new(alloc: Global, line_limit: u64, total_limit: u64) -> Result<Lines, NoMemory>
        ensures { IfOk result (λ l. l ≡ record {
          line_limit = line_limit;
          total_limit = total_limit;
          kept = [];
          given = 0;
          ended = false;
          fault = None;
        }) }
    {
        Ok(Lines {
            alloc,
            line_limit,
            total_limit,
            pending: Pending::new(alloc)?,
            given: 0,
            fault: None,
        })
    }

    /// Whether the source has given its end. A line that was given after that had no line feed.
    pub fn has_ended(&self) -> bool
        ensures { result ≡ self.now.ended }
    {
        self.pending.has_ended()
    }

    /// The next line, or None at the end. Each fault but want of memory is told again by each later call, which
    /// reads nothing.
    pub fn next<S: Source>(&mut self, source: &mut S) -> Result<Option<Line>, LineFault>
        // The source is the one that gave its end.
        requires { IsTrue self.old.ended → IsAtEnd (S.rest source.old) }

        // What is answered is taken off the stream, and nothing else is.
        ensures stream { stream self.old (S.rest source.old)
            ≡ prepend_known (taken result self.new.ended) (stream self.new (S.rest source.new)) }
        ensures given { self.new.given ≡ self.old.given + length (taken result self.new.ended) }
        ensures in_order { IfLine result (λ line. option_map lines (stream self.old (S.rest source.old))
            ≡ option_map (λ later. line ∷ lines later) (stream self.new (S.rest source.new))) }

        // A line is within the limits.
        ensures line { IfLine result (λ line. HasNoFeed line × (length line ≤ self.old.line_limit)) }
        ensures rises { IfLine result (λ line. self.old.given < self.new.given) }
        ensures within { self.new.given ≤ self.new.total_limit }
        ensures limits { (self.new.line_limit ≡ self.old.line_limit) × (self.new.total_limit ≡ self.old.total_limit) }

        // The end comes with nothing left.
        ensures none { result ≡ Ok None → IsTrue self.new.ended }
        ensures last { OnOk result (IsTrue self.new.ended → self.new.kept ≡ []) }
        ensures at_end { IsTrue self.new.ended → IsAtEnd (S.rest source.new) }
        ensures stays_ended { IsTrue self.old.ended → IsTrue self.new.ended }

        // The stream calls for each answer that doesn't come from outside, and so do the bytes seen of it.
        ensures exact { self.old.fault ≡ None → is_from_outside result ≡ false → IfSome (stream self.old (S.rest source.old)) (λ b.
            result ≡ answer_to self.old.line_limit (left_to_give self.old) b) }
        ensures shown { self.old.fault ≡ None → is_from_outside result ≡ false
            → result ≡ answer_to self.old.line_limit (left_to_give self.old) (taken result self.new.ended ++ self.new.kept) }
        ensures failed { self.old.fault ≡ None → result ≡ Err LineFault.ReadFault
            → Rose (S.read_faults source.old) (S.read_faults source.new) }

        // A fault is told again.
        ensures told { self.new.fault ≡ fault_left result }
        ensures again { IfSome self.old.fault (λ fault.
            (result ≡ Err fault) × (self.new ≡ self.old) × (source.new ≡ source.old)) }

        // It reads only where no line feed is kept and the end wasn't given, and a read that failed is told at once.
        ensures none_kept { result ≡ Err LineFault.ReadFault → HasNoFeed self.new.kept }
        ensures unread { (list_any is_feed self.old.kept || self.old.ended) ≡ true
            → (source.new ≡ source.old) × (self.old.kept ≡ taken result self.new.ended ++ self.new.kept) }
        ensures faultless { result ≢ Err LineFault.ReadFault → S.read_faults source.new ≡ S.read_faults source.old }
        ensures counted { S.read_faults source.old ≤ S.read_faults source.new }
        ensures aside { S.read_aside source.new ≡ S.read_aside source.old }
    {
        if let Some(fault) = self.fault {
            return Err(fault);
        }
        let left = self.total_limit - self.given;
        match cut_line(&mut self.pending, source, self.alloc, self.line_limit, left) {
            Ok(Some(line)) => {
                self.given += bytes_taken(&line, self.pending.has_ended());
                Ok(Some(line))
            }
            Ok(None) => Ok(None),
            Err(fault) => {
                self.fault = lasting_fault(fault);
                Err(fault)
            }
        }
    }
}
