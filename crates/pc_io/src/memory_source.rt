//! A source in memory.

ghost use Rattle.std.specs.Prelude.{◌≡◌, ◌<◌, ◌≤◌, ◌++◌, [], Some, length, take, min, IfOk, OnOk, OnErr, is_err};
ghost use Rattle.pc_base.specs.Rose.{Rose};
ghost use Rattle.pc_io.specs.Calls.{after_call, failed_calls, fails_next};

use crate::calls::PlannedCalls;
use crate::failed::Failed;
use crate::source::Source;
use std::marker::Model;

/// Bytes in memory, read in pieces of a size at most, with calls that fail.
#[derive(Debug, Drop)]
pub struct MemorySource {
    bytes: Vec<u8>,
    taken: usize,
    most: usize,
    calls: PlannedCalls,
}

impl Model for MemorySource {
    ghost use Rattle.std.specs.Prelude.{◌<◌, ◌≤◌, drop, length};
    ghost use Rattle.pc_io.specs.Memory.{Supply};

    ghost Value = { Supply };

    ghost view = { λ s. record { left = drop s.taken s.bytes.items; most = s.most; calls = s.calls } };

    ghost invariant = { λ s. (s.taken ≤ length s.bytes.items) × (0 < s.most) };
}

impl MemorySource {
    /// Gives these bytes, at most `most` a read. The reads of the numbers `failing`, counted from 0, fail.
    pub fn new(bytes: Vec<u8>, most: usize, failing: Vec<u64>) -> MemorySource
        requires { 0 < most }
        ensures { result ≡ record {
          left = bytes.items;
          most = most;
          calls = record { failing = failing.items; made = 0 };
        } }
    {
        MemorySource {
            bytes,
            taken: 0,
            most,
            calls: PlannedCalls::new(failing),
        }
    }

    /// How many reads there were.
    pub fn reads(&self) -> u64
        ensures { result ≡ self.now.calls.made }
    {
        self.calls.made()
    }
}

impl Source for MemorySource {
    ghost rest = { λ s. Some s.left };

    ghost read_faults = { λ s. failed_calls s.calls };

    fn read(&mut self, into: &mut [u8]) -> Result<usize, Failed>
        ensures bound { IfOk result (λ n. n ≤ length into.new) }
        ensures bytes { IfOk result (λ n. self.old.left ≡ take n into.new ++ self.new.left) }
        ensures end { IfOk result (λ n. n ≡ 0 → 0 < length into.new → self.new.left ≡ []) }
        // A read gives as many bytes as it may.
        ensures count { IfOk result (λ n. n ≡ min (min self.old.most (length into.new)) (length self.old.left)) }

        ensures failed { OnErr result (Rose (failed_calls self.old.calls) (failed_calls self.new.calls)) }
        ensures kept { OnErr result (self.new.left ≡ self.old.left) }

        ensures faultless { OnOk result (failed_calls self.new.calls ≡ failed_calls self.old.calls) }
        ensures counted { failed_calls self.old.calls ≤ failed_calls self.new.calls }

        // It fails exactly as planned.
        ensures planned { is_err result ≡ fails_next self.old.calls }
        ensures calls { self.new.calls ≡ after_call self.old.calls }
        ensures most { self.new.most ≡ self.old.most }
    {
        if self.calls.next_fails() {
            return Err(Failed);
        }
        let left = &self.bytes[self.taken..];
        let count = self.most.min(into.len()).min(left.len());
        into[..count].copy_from_slice(&left[..count]);
        self.taken += count;
        Ok(count)
    }
}
