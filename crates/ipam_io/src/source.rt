//! Where bytes come from.
ghost use Rattle.std.specs.Prelude.{◌≡◌, ℕ, ◌<◌, ◌≤◌, List, Option, take, length, IfOk, OnOk, OnErr};
ghost use Rattle.std.specs.Io.KnownBytes.{prepend_known, IsAtEnd};
ghost use Rattle.ipam_io.specs.Counts.{Rose};

/// A read or a write that failed. The count of faults of its source or sink rose.
#[derive(Clone, Copy, Debug, PartialEq, Eq)]
pub struct Failed;

/// What bytes are read from, in order and each once.
pub trait Source {
    /// The bytes that reads will give from here on, where the source tells them.
    ghost left: { Self → Option (List ℕ) };

    /// How many reads failed.
    ghost read_faults: { Self → ℕ };

    /// What a read leaves alone.
    ghost read_rest: { Self → (Option (List ℕ) × ℕ) };

    /// Reads into the front of `into`, and returns how many bytes it put there. The bytes of
    /// `into` past that number, or after a failure all of them, are any bytes.
    ///
    /// `Ok(0)` is the end, and a read after a `Failed` goes on where the one before it began.
    fn read(&mut self, into: &mut [u8]) -> Result<usize, Failed>
        requires { 0 < length into.old }
        ensures bound { IfOk result (λ n. n ≤ length into.new) }
        ensures bytes { IfOk result (λ n. left self.old
            ≡ prepend_known (take n into.new) (left self.new)) }
        ensures end { IfOk result (λ n. n ≡ 0 → IsAtEnd (left self.old)) }
        ensures kept { OnErr result (left self.new ≡ left self.old) }

        ensures fault { OnErr result (Rose (read_faults self.old) (read_faults self.new)) }
        ensures no_fault { OnOk result (read_faults self.new ≡ read_faults self.old) }
        ensures never_falls { read_faults self.old ≤ read_faults self.new }

        ensures rest { read_rest self.new ≡ read_rest self.old };
}
