//! Writing through std.

ghost use Rattle.std.specs.Prelude.{◌≡◌, ◌+◌, ◌-◌, ◌^◌, ◌<◌, ◌≤◌, None, length, min, take, IfOk, OnOk, OnErr};
ghost use Rattle.std.specs.Io.KnownBytes.{Appends};
ghost use Rattle.pc_io.specs.StdEnds.{AppendsPart};

use crate::failed::Failed;
use crate::sink::Sink;
use std::io::Write;
use std::marker::Model;

/// A writer of std. As a sink it tells no bytes. Contracts see what the writer holds, where it tells that, and the
/// number of its faults, which stops at 2^64 - 1.
///
/// Each write is flushed, so that bytes taken are never left in a buffer. Hand in an unbuffered writer: callers
/// write few large pieces. Where the flush fails the writer may hold bytes of the piece, and the write is a fault.
#[derive(Drop)]
pub struct StdSink<W: Write> {
    writer: W,
    faults: u64,
}

impl<W: Write> Model for StdSink<W> {
    ghost use Rattle.pc_io.specs.StdEnds.{Outlet};

    ghost Value = { Outlet };

    ghost view = { λ s. record { contents = W.contents s.writer; faults = s.faults } };
}

impl<W: Write> StdSink<W> {
    /// The writer, with no fault yet.
    pub fn new(writer: W) -> StdSink<W>
        ensures { result ≡ record { contents = W.contents writer; faults = 0 } }
    {
        StdSink { writer, faults: 0 }
    }
}

/// Writes from the front of `from` and flushes. Taking nothing of a piece that isn't empty is a fault.
fn write_through<W: Write>(writer: &mut W, from: &[u8]) -> Result<usize, Failed>
    ensures bound { IfOk result (λ n. n ≤ length from.now) }
    ensures some { IfOk result (λ n. 0 < length from.now → 0 < n) }
    ensures appends { IfOk result (λ n. Appends (W.contents writer.old) (W.contents writer.new) (take n from.now)) }
    ensures part { OnErr result (AppendsPart (W.contents writer.old) (W.contents writer.new) from.now) }
{
    match writer.write(from) {
        Ok(count) if count > 0 || from.is_empty() => match writer.flush() {
            Ok(()) => Ok(count),
            Err(_) => Err(Failed),
        },
        _ => Err(Failed),
    }
}

impl<W: Write> Sink for StdSink<W> {
    ghost written = { λ _. None };

    ghost write_faults = { λ s. s.faults };

    fn write(&mut self, from: &[u8]) -> Result<usize, Failed>
        ensures bound { IfOk result (λ n. n ≤ length from.now) }
        ensures some { IfOk result (λ n. 0 < length from.now → 0 < n) }
        // The bytes that are taken are put after those that the writer holds.
        ensures appends { IfOk result (λ n. Appends self.old.contents self.new.contents (take n from.now)) }
        ensures part { OnErr result (AppendsPart self.old.contents self.new.contents from.now) }
        // A fault is counted once, and nothing else is.
        ensures failed { OnErr result (self.new.faults ≡ min (self.old.faults + 1) (2 ^ 64 - 1)) }
        ensures faultless { OnOk result (self.new.faults ≡ self.old.faults) }
        ensures counted { self.old.faults ≤ self.new.faults }
    {
        let result = write_through(&mut self.writer, from);
        if result.is_err() {
            self.faults = self.faults.saturating_add(1);
        }
        result
    }
}
