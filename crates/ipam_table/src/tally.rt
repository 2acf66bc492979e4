//! The faults of a keeper.
ghost use Rattle.std.specs.Prelude.{◌≡◌, ◌≤◌};
ghost use Rattle.ipam_io.specs.Counts.{next_count};
ghost use Rattle.ipam_keeper.specs.Keeping.{OnFailed, UnlessFailed};
ghost use Rattle.ipam_table.specs.Faults.{answer_of};

use crate::fault::TableFault;
use ipam_keeper::KeepFault;

/// How many calls of a keeper failed, and why the last one of them did.
pub(crate) struct Tally<C> {
    pub(crate) faults: u64,
    pub(crate) why: Option<C>,
}

impl<C: Copy> Tally<C> {
    /// Counts an answer that is a failure, and keeps why.
    pub(crate) fn counted<V>(&mut self, answer: Result<V, TableFault<C>>) -> Result<V, KeepFault>
        ensures answer { result ≡ answer_of answer }
        ensures fault { OnFailed result (self.new.faults ≡ next_count self.old.faults) }
        ensures no_fault { UnlessFailed result (self.new.faults ≡ self.old.faults) }
        ensures never_falls { self.old.faults ≤ self.new.faults }
    {
        match answer {
            Ok(value) => Ok(value),
            Err(TableFault::Memory) => Err(KeepFault::Memory),
            Err(TableFault::Failed(cause)) => {
                self.why = Some(cause);
                self.faults = self.faults.saturating_add(1);
                Err(KeepFault::Failed)
            }
        }
    }
}
