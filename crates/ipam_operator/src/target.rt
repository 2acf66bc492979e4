ghost use Rattle.std.specs.Prelude.{◌≡◌, OnOk};
ghost use Rattle.ipam_io.specs.Counts.{Rose};
ghost use Rattle.ipam_keeper.specs.Keeping.{OnFailed, UnlessFailed};

use ipam_keeper::{KeepFault, Keeper};

/// A keeper of a new database, which is closed once all rows are in it and sure.
pub trait Target: Keeper {
    /// It was closed.
    ghost closed: { Self → Type 0 };

    /// Lets the database go. The rows stay, and those that are sure stay so.
    fn close(&mut self) -> Result<(), KeepFault>
        ensures closed { OnOk result (closed self.new) }
        ensures same_rows { Self.rows self.new ≡ Self.rows self.old }
        ensures same_settled { Self.settled self.new ≡ Self.settled self.old }
        ensures fault { OnFailed result (Rose (Self.faults self.old) (Self.faults self.new)) }
        ensures no_fault { UnlessFailed result (Self.faults self.new ≡ Self.faults self.old) };
}
