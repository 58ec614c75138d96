//! A sink in memory.

ghost use Rattle.std.specs.Prelude.{◌≡◌, ◌+◌, ◌-◌, ◌<◌, ◌≤◌, ◌++◌, [], Some, length, take, min, nat_lt, nat_le, ◌&&◌, ◌||◌, IfOk, OnOk, OnErr, is_err};
ghost use Rattle.pc_base.specs.Rose.{Rose};
ghost use Rattle.pc_io.specs.Calls.{after_call, failed_calls, fails_next};
ghost use Rattle.pc_io.specs.Memory.{failed_writes};

use crate::calls::PlannedCalls;
use crate::failed::Failed;
use crate::sink::Sink;
use pc_base::NoMemory;
use std::alloc::Global;
use std::marker::Model;

/// Room in memory for bytes, with calls that fail. A write to a full one fails too.
#[derive(Debug, Drop)]
pub struct MemorySink {
    room: Vec<u8>,
    taken: usize,
    calls: PlannedCalls,
    refused: u64,
}

impl Model for MemorySink {
    ghost use Rattle.std.specs.Prelude.{◌≤◌, length, take};
    ghost use Rattle.pc_io.specs.Memory.{Intake};

    ghost Value = { Intake };

    ghost view = { λ s. record { bytes = take s.taken s.room.items; capacity = length s.room.items; calls = s.calls; refused = s.refused } };

    ghost invariant = { λ s. s.taken ≤ length s.room.items };
}

impl MemorySink {
    /// Takes the room at once. The writes of the numbers `failing`, counted from 0, fail.
    pub fn new(alloc: Global, capacity: usize, failing: Vec<u64>) -> Result<MemorySink, NoMemory>
        ensures { IfOk result (λ s. s ≡ record {
          bytes = [];
          capacity = capacity;
          calls = record { failing = failing.items; made = 0 };
          refused = 0;
        }) }
    {
        Ok(MemorySink {
            room: vec![in alloc; 0; capacity]?,
            taken: 0,
            calls: PlannedCalls::new(failing),
            refused: 0,
        })
    }

    /// The bytes taken so far.
    pub fn written(&self) -> &[u8]
        ensures { result.now ≡ self.now.bytes }
    {
        &self.room[..self.taken]
    }
}

impl Sink for MemorySink {
    ghost written = { λ s. Some s.bytes };

    ghost write_faults = { failed_writes };

    fn write(&mut self, from: &[u8]) -> Result<usize, Failed>
        ensures bound { IfOk result (λ n. n ≤ length from.now) }
        ensures some { IfOk result (λ n. 0 < length from.now → 0 < n) }
        ensures bytes { IfOk result (λ n. self.new.bytes ≡ self.old.bytes ++ take n from.now) }
        // A write takes as many bytes as there is room for.
        ensures count { IfOk result (λ n. n ≡ min (length from.now) (self.old.capacity - length self.old.bytes)) }

        ensures failed { OnErr result (Rose (failed_writes self.old) (failed_writes self.new)) }
        ensures kept { OnErr result (self.new.bytes ≡ self.old.bytes) }

        // A fault is counted at most once, and nothing else is.
        ensures once { OnErr result (failed_writes self.new ≤ failed_writes self.old + 1) }
        ensures faultless { OnOk result (failed_writes self.new ≡ failed_writes self.old) }
        ensures counted { failed_writes self.old ≤ failed_writes self.new }

        // It fails exactly as planned, and where there is no room for a byte.
        ensures planned { is_err result
            ≡ (fails_next self.old.calls || (nat_lt 0 (length from.now) && nat_le self.old.capacity (length self.old.bytes))) }
        ensures calls { self.new.calls ≡ after_call self.old.calls }
        ensures capacity { self.new.capacity ≡ self.old.capacity }
    {
        if self.calls.next_fails() {
            return Err(Failed);
        }
        let room = self.room.len() - self.taken;
        if room == 0 && !from.is_empty() {
            self.refused = self.refused.saturating_add(1);
            return Err(Failed);
        }
        let count = from.len().min(room);
        let end = self.taken + count;
        self.room[self.taken..end].copy_from_slice(&from[..count]);
        self.taken = end;
        Ok(count)
    }
}
