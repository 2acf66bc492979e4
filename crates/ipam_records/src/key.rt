ghost use Rattle.std.specs.Prelude.{◌≡◌};

use ipam_addr::Cidr;
use ipam_text::Text;
use std::alloc::AllocError;

/// What a record is found by.
pub enum Key {
    /// The configuration, of which there is one record at most.
    Config,
    /// The table of all pools, which is one record.
    Pools,
    /// The list of all reservations, which is one record.
    Reservations,
    /// The block of this CIDR.
    Block(Cidr),
    /// The affinity of this node to the block of this CIDR.
    Affinity(Text, Cidr),
    /// The handle of this id.
    Handle(Text),
}

impl Drop for Key {
    fn drop(self) {
        match self {
            Key::Config
            | Key::Pools
            | Key::Reservations
            | Key::Block(_)
            | Key::Affinity(_, _)
            | Key::Handle(_) => {}
        }
    }
}

impl Clone for Key {
    ghost is_clone = { λ old new. new ≡ old };

    fn clone(&self) -> Result<Key, AllocError> {
        match self {
            Key::Config => Ok(Key::Config),
            Key::Pools => Ok(Key::Pools),
            Key::Reservations => Ok(Key::Reservations),
            Key::Block(cidr) => Ok(Key::Block(*cidr)),
            Key::Affinity(node, cidr) => Ok(Key::Affinity(node.clone()?, *cidr)),
            Key::Handle(id) => Ok(Key::Handle(id.clone()?)),
        }
    }
}

/// The records that are listed together.
#[derive(Clone, Copy)]
pub enum Kind {
    /// Blocks, listed by family, base and prefix.
    Block,
    /// Affinities, listed by node and then by block.
    Affinity,
    /// Handles, listed by id.
    Handle,
}
