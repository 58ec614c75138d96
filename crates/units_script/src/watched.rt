//! Ends in memory, of which the source sees how many bytes the sink holds.

use pc_io::{Failed, MemorySink, MemorySource, Sink, Source};
use std::cell::Cell;
use std::rc::Rc;

/// A source in memory that notes at each read how many bytes the sink holds.
#[derive(Drop)]
pub struct WatchedSource {
    inner: MemorySource,
    held: Rc<Cell<u64>>,
    seen: Vec<u64>,
}

impl WatchedSource {
    pub fn new(inner: MemorySource, held: Rc<Cell<u64>>, seen: Vec<u64>) -> WatchedSource {
        WatchedSource { inner, held, seen }
    }

    /// How many bytes the sink held at each read.
    pub fn seen(&self) -> &[u64] {
        self.seen.as_slice()
    }
}

impl Source for WatchedSource {
    ghost use Rattle.std.specs.Prelude.{Some};
    ghost use Rattle.pc_io.specs.Calls.{failed_calls};

    ghost rest = { λ s. Some s.inner.left };

    ghost read_faults = { λ s. failed_calls s.inner.calls };

    fn read(&mut self, into: &mut [u8]) -> Result<usize, Failed> {
        // Where no memory is left, a read is not noted, and the output shows it.
        let _ = self.seen.push(self.held.get());
        self.inner.read(into)
    }
}

/// A sink in memory that tells how many bytes it holds.
#[derive(Drop)]
pub struct WatchedSink {
    inner: MemorySink,
    held: Rc<Cell<u64>>,
}

impl WatchedSink {
    pub fn new(inner: MemorySink, held: Rc<Cell<u64>>) -> WatchedSink {
        WatchedSink { inner, held }
    }

    /// How many bytes it holds.
    pub fn written(&self) -> usize {
        self.inner.written().len()
    }
}

impl Sink for WatchedSink {
    ghost use Rattle.std.specs.Prelude.{Some};
    ghost use Rattle.pc_io.specs.Memory.{failed_writes};

    ghost written = { λ s. Some s.inner.bytes };

    ghost write_faults = { λ s. failed_writes s.inner };

    fn write(&mut self, from: &[u8]) -> Result<usize, Failed> {
        let taken = self.inner.write(from)?;
        self.held.set(self.inner.written().len() as u64);
        Ok(taken)
    }
}
