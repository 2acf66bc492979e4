//! Where bytes go.
ghost use Rattle.std.specs.Prelude.{◌≡◌, ℕ, ◌≤◌, List, Option, OnOk, OnErr};
ghost use Rattle.std.specs.Io.KnownBytes.{append_known};
ghost use Rattle.ipam_io.specs.Counts.{Rose};
ghost use Rattle.ipam_io.specs.Streams.{AppendsPrefix};

use super::source::Failed;

/// What bytes are written to, in order and each once.
pub trait Sink {
    /// The bytes written so far, where the sink tells them.
    ghost written: { Self → Option (List ℕ) };

    /// How many writes failed.
    ghost write_faults: { Self → ℕ };

    /// What a write leaves alone.
    ghost write_rest: { Self → (Option (List ℕ) × ℕ) };

    /// Writes the whole piece. A write that fails may have written a front part of it.
    fn write(&mut self, piece: &[u8]) -> Result<(), Failed>
        ensures bytes { OnOk result (written self.new ≡ append_known (written self.old) piece.now) }
        ensures part { OnErr result (AppendsPrefix (written self.old) (written self.new) piece.now) }

        ensures fault { OnErr result (Rose (write_faults self.old) (write_faults self.new)) }
        ensures no_fault { OnOk result (write_faults self.new ≡ write_faults self.old) }
        ensures never_falls { write_faults self.old ≤ write_faults self.new }

        ensures rest { write_rest self.new ≡ write_rest self.old };
}
