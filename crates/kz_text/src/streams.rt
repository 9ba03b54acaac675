//! Sources and sinks. A file or a terminal tells nothing of its bytes; a value in memory tells them.
ghost use Rattle.std.specs.Prelude.{◌≡◌, ◌+◌, ◌<◌, ◌≤◌, ℕ, Bool, List, Option, length, take, IfOk, OnErr, IsOk, IsTrue};
ghost use Rattle.std.specs.Io.{ReadsAtMost};
ghost use Rattle.std.specs.Io.KnownBytes.{ReadConsumes, Appends};
ghost use Rattle.kz_text.specs.Streams.{Rose, AppendsFront};

/// A read or a write that failed.
#[derive(Clone, Copy, Debug, PartialEq, Eq)]
pub struct Failed;

/// What bytes are read from. It counts its faults, up to `u64::MAX`.
pub trait Source {
    // The rest of its bytes, where it tells them.
    ghost rest: { Self → Option (List ℕ) };

    // How many faults it has counted.
    ghost faults: { Self → ℕ };

    // Whether it never fails.
    ghost is_sure: { Self → Bool };

    /// Reads the next bytes to the front of `into`, and gives their number: 0 only at the end.
    fn read(&mut self, into: &mut [u8]) -> Result<usize, Failed>
        requires { 0 < length into.old }

        // The bytes left the front of the rest. After a failure the rest is as before.
        ensures bound { ReadsAtMost result into.new }
        ensures bytes { ReadConsumes (rest self.old) (rest self.new) result into.new }

        ensures later { faults self.old ≤ faults self.new }
        ensures cause { OnErr result (Rose (faults self.old) (faults self.new)) }

        ensures sure_stays { is_sure self.new ≡ is_sure self.old }
        ensures sure { IsTrue (is_sure self.old) → IsOk result × (faults self.new ≡ faults self.old) };
}

/// What bytes are written to. It counts its faults, up to `u64::MAX`.
pub trait Sink {
    // The bytes that it took, where it tells them.
    ghost taken: { Self → Option (List ℕ) };

    // How many faults it has counted.
    ghost faults: { Self → ℕ };

    // How many bytes more it is sure to take.
    ghost sure_room: { Self → ℕ };

    /// Writes some of the first bytes of `from`, and gives their number, which is not 0.
    fn write(&mut self, from: &[u8]) -> Result<usize, Failed>
        requires { 0 < length from.now }

        ensures some { IfOk result (λ n. 0 < n) }
        ensures bound { IfOk result (λ n. n ≤ length from.now) }
        ensures ok { IfOk result (λ n. Appends (taken self.old) (taken self.new) (take n from.now)) }
        ensures err { OnErr result (AppendsFront (taken self.old) (taken self.new) from.now) }

        ensures later { faults self.old ≤ faults self.new }
        ensures cause { OnErr result (Rose (faults self.old) (faults self.new)) }

        ensures sure { length from.now ≤ sure_room self.old → IsOk result × (faults self.new ≡ faults self.old) }
        ensures room { length from.now ≤ sure_room self.old →
            IfOk result (λ n. sure_room self.old ≤ sure_room self.new + n) };
}
