//! The faults of a keeper.
ghost use Rattle.std.specs.Prelude.{◌≡◌, ◌≤◌};
ghost use Rattle.ipam_io.specs.Counts.{next_count};
ghost use Rattle.ipam_keeper.specs.Keeping.{OnFailed, UnlessFailed};
ghost use Rattle.ipam_sqlite.specs.Answers.{answer_of};

use crate::fault::{StorageFault, Trouble};
use ipam_keeper::KeepFault;

/// How many calls of a keeper failed, and why the last one of them did.
pub(crate) struct Tally {
    pub(crate) faults: u64,
    pub(crate) why: Option<StorageFault>,
}

impl Tally {
    /// Counts an answer that is a fault, and keeps why.
    pub(crate) fn counted<T>(&mut self, answer: Result<T, Trouble>) -> Result<T, KeepFault>
        ensures answer { result ≡ answer_of answer }
        ensures fault { OnFailed result (self.new.faults ≡ next_count self.old.faults) }
        ensures no_fault { UnlessFailed result (self.new.faults ≡ self.old.faults) }
        ensures never_falls { self.old.faults ≤ self.new.faults }
    {
        match answer {
            Ok(value) => Ok(value),
            Err(Trouble::Memory) => Err(KeepFault::Memory),
            Err(Trouble::Fault(fault)) => {
                self.why = Some(fault);
                self.faults = self.faults.saturating_add(1);
                Err(KeepFault::Failed)
            }
        }
    }
}
