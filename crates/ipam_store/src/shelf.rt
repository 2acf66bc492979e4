ghost use Rattle.std.specs.Prelude.{◌≡◌};
ghost use Rattle.ipam_records.specs.KeyOrder.{is_of_kind};
ghost use Rattle.ipam_records.specs.KeyRef.{owned_key};
ghost use Rattle.ipam_records.specs.declared.key.Kind.TheVariants as kind;
ghost use Rattle.ipam_store.specs.Shelf.{shelf_of};

use ipam_records::KeyRef;

/// The list of rows that a key belongs to.
#[derive(Clone, Copy)]
pub(crate) enum Shelf {
    /// The configuration, the pools and the reservations, of which there is one record each.
    Singles,
    Blocks,
    Affinities,
    Handles,
}

impl Shelf {
    pub(crate) fn of(key: &KeyRef<'_>) -> Shelf
        ensures { result ≡ shelf_of (owned_key key.now) }
    {
        match key {
            KeyRef::Config | KeyRef::Pools | KeyRef::Reservations => Shelf::Singles,
            KeyRef::Block(_) => Shelf::Blocks,
            KeyRef::Affinity(..) => Shelf::Affinities,
            KeyRef::Handle(_) => Shelf::Handles,
        }
    }
}

/// Whether it is the key of a block.
pub(crate) fn is_block(key: &KeyRef<'_>) -> bool
    ensures { result ≡ is_of_kind kind.Block (owned_key key.now) }
{
    matches!(key, KeyRef::Block(_))
}
