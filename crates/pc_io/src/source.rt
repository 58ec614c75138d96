//! Where bytes come from.

ghost use Rattle.std.specs.Prelude.{◌≡◌, ℕ, ◌<◌, ◌≤◌, List, length, take, Option, IfOk, OnOk, OnErr};
ghost use Rattle.std.specs.Io.KnownBytes.{IsAtEnd, prepend_known};
ghost use Rattle.pc_base.specs.Rose.{Rose};
ghost use Rattle.pc_io.specs.Aside.{Aside, no_aside};

use crate::failed::Failed;

/// An end that gives bytes.
pub trait Source {
    // The bytes still to come, where they are told.
    ghost rest: { Self → Option (List ℕ) };

    // How many faults there were.
    ghost read_faults: { Self → ℕ };

    // What a read leaves as it is.
    ghost read_aside: { Self → Aside } = { λ _. no_aside };

    /// Puts the next bytes at the front of `into` and gives their number. 0 into a slice that isn't empty is the
    /// end.
    fn read(&mut self, into: &mut [u8]) -> Result<usize, Failed>
        ensures bound { IfOk result (λ n. n ≤ length into.new) }
        ensures bytes { IfOk result (λ n. rest self.old ≡ prepend_known (take n into.new) (rest self.new)) }
        ensures end { IfOk result (λ n. n ≡ 0 → 0 < length into.new → IsAtEnd (rest self.new)) }

        ensures failed { OnErr result (Rose (read_faults self.old) (read_faults self.new)) }
        ensures kept { OnErr result (rest self.new ≡ rest self.old) }

        // The count rises at no other answer.
        ensures faultless { OnOk result (read_faults self.new ≡ read_faults self.old) }
        ensures counted { read_faults self.old ≤ read_faults self.new }
        ensures aside { read_aside self.new ≡ read_aside self.old };
}

impl<S: Source> Source for &mut S {
    ghost rest = { λ s. S.rest s.now };

    ghost read_faults = { λ s. S.read_faults s.now };

    ghost read_aside = { λ s. S.read_aside s.now };

    fn read(&mut self, into: &mut [u8]) -> Result<usize, Failed> {
        Source::read(&mut **self, into)
    }
}
