//! Reading through std.

ghost use Rattle.std.specs.Prelude.{◌≡◌, ◌+◌, ◌-◌, ◌^◌, ◌≤◌, None, length, min, IfOk, OnOk, OnErr};
ghost use Rattle.std.specs.Io.KnownBytes.{ReadConsumes};

use crate::failed::Failed;
use crate::source::Source;
use std::io::Read;
use std::marker::Model;

/// A reader of std. As a source it tells no bytes. Contracts see what the reader has left, where it tells that, and
/// the number of its faults, which stops at 2^64 - 1. A read that was interrupted is a fault too.
#[derive(Drop)]
pub struct StdSource<R: Read> {
    reader: R,
    faults: u64,
}

impl<R: Read> Model for StdSource<R> {
    ghost use Rattle.pc_io.specs.StdEnds.{Inlet};

    ghost Value = { Inlet };

    ghost view = { λ s. record { remaining = R.remaining s.reader; faults = s.faults } };
}

impl<R: Read> StdSource<R> {
    /// The reader, with no fault yet.
    pub fn new(reader: R) -> StdSource<R>
        ensures { result ≡ record { remaining = R.remaining reader; faults = 0 } }
    {
        StdSource { reader, faults: 0 }
    }
}

impl<R: Read> Source for StdSource<R> {
    ghost rest = { λ _. None };

    ghost read_faults = { λ s. s.faults };

    fn read(&mut self, into: &mut [u8]) -> Result<usize, Failed>
        ensures bound { IfOk result (λ n. n ≤ length into.new) }
        // The bytes that are given are the reader's next, and none only at its end; a fault takes none.
        ensures consumes { ReadConsumes self.old.remaining self.new.remaining result into.new }
        // A fault is counted once, and nothing else is.
        ensures failed { OnErr result (self.new.faults ≡ min (self.old.faults + 1) (2 ^ 64 - 1)) }
        ensures faultless { OnOk result (self.new.faults ≡ self.old.faults) }
        ensures counted { self.old.faults ≤ self.new.faults }
    {
        match self.reader.read(into) {
            Ok(count) => Ok(count),
            Err(_) => {
                self.faults = self.faults.saturating_add(1);
                Err(Failed)
            }
        }
    }
}
