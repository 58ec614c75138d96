//! Calls that are to fail.

ghost use Rattle.std.specs.Prelude.{◌≡◌, ◌+◌, if◌then◌else◌};
ghost use Rattle.pc_io.specs.Calls.{after_call, failed_calls, fails_next};

use std::marker::Model;

/// Which calls of an end in memory fail, and how many were made.
#[derive(Debug, Drop)]
pub struct PlannedCalls {
    failing: Vec<u64>,
    made: u64,
}

impl Model for PlannedCalls {
    ghost use Rattle.pc_io.specs.Calls.{Calls};

    ghost Value = { Calls };

    ghost view = { λ c. record { failing = c.failing.items; made = c.made } };
}

impl PlannedCalls {
    /// No call yet. The calls of these numbers, counted from 0, are to fail.
    pub fn new(failing: Vec<u64>) -> PlannedCalls
        ensures { result ≡ record { failing = failing.items; made = 0 } }
    {
        PlannedCalls { failing, made: 0 }
    }

    /// How many calls were made.
    pub fn made(&self) -> u64
        ensures { result ≡ self.now.made }
    {
        self.made
    }

    /// Counts a call, and tells whether it is to fail.
    pub fn next_fails(&mut self) -> bool
        ensures fails { result ≡ fails_next self.old }
        ensures after { self.new ≡ after_call self.old }
        ensures counted { failed_calls self.new ≡ failed_calls self.old + (if result then 1 else 0) }
    {
        if self.made == u64::MAX {
            return false;
        }
        let fails = self.failing.contains(&self.made);
        self.made += 1;
        fails
    }
}
