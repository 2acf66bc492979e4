// What may be looked at in a turn.
ghost use Rattle.ipam_model.specs.Consistent.{IsConsistent};
ghost use Rattle.ipam_records.specs.Datastore.{Datastore};

use ipam_store::Store;

/// A look at a datastore, which changes nothing.
pub trait Look {
    /// What it tells.
    type Told;

    /// What it tells of a datastore.
    ghost tells: { Self → Datastore → Self.Told → Type 0 };

    /// Looks.
    fn look(self, store: &Store) -> Self::Told
        requires consistent { IsConsistent store.now.store }
        ensures told { tells self store.now.store result };
}
