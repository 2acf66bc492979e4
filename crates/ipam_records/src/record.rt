ghost use Rattle.std.specs.Prelude.{◌≡◌, IfOk};

use crate::key::Key;
use crate::key_ref::KeyRef;
use ipam_block::{Affinity, Block, Handle};
use ipam_pool::{PoolTable, Reservation};
use ipam_record_text::Config;
use ipam_text::Seq;
use std::alloc::{AllocError, Global};

/// What the datastore keeps under a key.
pub enum Record {
    /// How addresses are given out.
    Config(Config),
    /// The table of all pools.
    Pools(PoolTable),
    /// All reservations.
    Reservations(Seq<Reservation>),
    /// A block: its node if any, and its addresses, held or free.
    Block(Block),
    /// The affinity of a node to a block, with its state.
    Affinity(Affinity),
    /// A handle, with its count for each block.
    Handle(Handle),
}

impl Drop for Record {
    fn drop(self) {
        match self {
            Record::Config(_)
            | Record::Pools(_)
            | Record::Reservations(_)
            | Record::Block(_)
            | Record::Affinity(_)
            | Record::Handle(_) => {}
        }
    }
}

impl Record {
    ghost use Rattle.ipam_records.specs.Key.{key_of};

    /// The key that the record is found by.
    pub fn key(&self, alloc: Global) -> Result<Key, AllocError>
        ensures { IfOk result (λ key. key ≡ key_of self.now) }
    {
        KeyRef::of_record(self).to_key(alloc)
    }
}

impl Clone for Record {
    ghost is_clone = { λ old new. new ≡ old };

    fn clone(&self) -> Result<Record, AllocError> {
        match self {
            Record::Config(config) => Ok(Record::Config(*config)),
            Record::Pools(pools) => Ok(Record::Pools(pools.clone()?)),
            Record::Reservations(reservations) => {
                Ok(Record::Reservations(copied_reservations(reservations)?))
            }
            Record::Block(block) => Ok(Record::Block(block.clone()?)),
            Record::Affinity(affinity) => Ok(Record::Affinity(affinity.clone()?)),
            Record::Handle(handle) => Ok(Record::Handle(handle.clone()?)),
        }
    }
}

fn copied_reservations(reservations: &Seq<Reservation>) -> Result<Seq<Reservation>, AllocError>
    ensures { IfOk result (λ copy. copy ≡ reservations.now) }
{
    reservations.clone()
}
