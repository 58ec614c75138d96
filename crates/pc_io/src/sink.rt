//! Where bytes go.

ghost use Rattle.std.specs.Prelude.{◌≡◌, ℕ, ◌<◌, ◌≤◌, List, length, take, Option, IfOk, OnOk, OnErr};
ghost use Rattle.std.specs.Io.KnownBytes.{append_known};
ghost use Rattle.pc_base.specs.Rose.{Rose};
ghost use Rattle.pc_io.specs.Aside.{Aside, no_aside};

use crate::failed::Failed;

/// An end that takes bytes.
pub trait Sink {
    // All the bytes that it has taken, where they are told.
    ghost written: { Self → Option (List ℕ) };

    // How many faults there were.
    ghost write_faults: { Self → ℕ };

    // What a write leaves as it is.
    ghost write_aside: { Self → Aside } = { λ _. no_aside };

    /// Takes bytes from the front of `from` and gives their number, at least 1 where there is a byte.
    fn write(&mut self, from: &[u8]) -> Result<usize, Failed>
        ensures bound { IfOk result (λ n. n ≤ length from.now) }
        ensures some { IfOk result (λ n. 0 < length from.now → 0 < n) }
        ensures bytes { IfOk result (λ n. written self.new ≡ append_known (written self.old) (take n from.now)) }

        ensures failed { OnErr result (Rose (write_faults self.old) (write_faults self.new)) }
        ensures kept { OnErr result (written self.new ≡ written self.old) }

        // The count rises at no other answer.
        ensures faultless { OnOk result (write_faults self.new ≡ write_faults self.old) }
        ensures counted { write_faults self.old ≤ write_faults self.new }
        ensures aside { write_aside self.new ≡ write_aside self.old };
}

impl<K: Sink> Sink for &mut K {
    ghost written = { λ k. K.written k.now };

    ghost write_faults = { λ k. K.write_faults k.now };

    ghost write_aside = { λ k. K.write_aside k.now };

    fn write(&mut self, from: &[u8]) -> Result<usize, Failed> {
        Sink::write(&mut **self, from)
    }
}
