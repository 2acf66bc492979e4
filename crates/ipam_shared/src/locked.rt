// The kept cluster as the value of a lock.
ghost use Rattle.ipam_model.specs.History.{slot_of_entry};
ghost use Rattle.ipam_shared.specs.Sure.{HeldFor};
ghost use Rattle.ipam_shared.specs.Origins.{base_opened};

use crate::kept::Kept;
use crate::opened::Opened;
use ipam_keeper::Keeper;
use ipam_model::Entry;
use turn_lock::Booked;

/// What lies under the lock.
#[derive(Drop)]
pub(crate) struct Locked<D> {
    pub(crate) kept: Kept<D>,
}

impl<D: Keeper> Booked for Locked<D> {
    type Origin = Opened;

    type Entry = Entry;

    ghost by = { slot_of_entry };

    ghost start = { λ locked. record { store = locked.kept.cluster.store; first = locked.kept.cluster.entries } };

    ghost first = { λ opened. opened.first };

    ghost stands = { λ locked opened history. HeldFor D.rows D.settled locked.kept (base_opened opened) history };

    fn entries(&self) -> u64 {
        self.kept.cluster().entries()
    }
}
