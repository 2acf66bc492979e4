ghost use Rattle.std.specs.Prelude.{◌≡◌};

use ipam_text::{Seq, Text};
use std::alloc::{AllocError, Global};
use std::marker::Model;
use std::sync::Arc;

/// What is kept of an assignment beside its address: the handle that it is recorded to, and pairs
/// of a key and a value, the keys ascending by their bytes and distinct.
#[derive(Debug)]
pub struct Attributes {
    /// The id of the handle. In a sound record it has 1 to 507 bytes.
    pub handle: Text,
    /// The pairs. A sound record has at most 8. Each key has 1 to 63 bytes there, and each value at
    /// most 253.
    pub secondary: Seq<(Text, Text)>,
}

impl Drop for Attributes {
    fn drop(self) {
        let Attributes {
            handle: _,
            secondary: _,
        } = self;
    }
}

impl Clone for Attributes {
    ghost is_clone = { λ old new. new ≡ old };

    fn clone(&self) -> Result<Attributes, AllocError> {
        let handle = self.handle.clone()?;
        let secondary = self.secondary.clone()?;
        Ok(Attributes { handle, secondary })
    }
}

/// Attributes that copies share: the first copy takes memory of its own, and those made of a copy take
/// none but a count.
pub struct SharedAttributes {
    kept: Kept,
}

#[derive(Drop)]
pub(crate) enum Kept {
    /// Not copied yet, with the allocator for the first copy.
    Own(Attributes, Global),
    Shared(Arc<Attributes>),
}

impl Drop for SharedAttributes {
    fn drop(self) {
        let SharedAttributes { kept: _ } = self;
    }
}

impl Model for SharedAttributes {
    ghost use Rattle.ipam_block.specs.Kept.{attributes_kept};
    ghost use Rattle.ipam_block.specs.declared.allocation.Attributes.{Attributes};

    ghost Value = { Attributes };

    ghost view = { λ s. attributes_kept s.kept };
}

impl SharedAttributes {
    /// Shares the attributes, with nothing copied. Takes no memory.
    pub fn of(alloc: Global, attributes: Attributes) -> SharedAttributes
        ensures { result ≡ attributes }
    {
        SharedAttributes {
            kept: Kept::Own(attributes, alloc),
        }
    }

    /// The attributes, borrowed.
    pub fn get(&self) -> &Attributes
        ensures { result.now ≡ self.now }
    {
        match &self.kept {
            Kept::Own(attributes, _) => attributes,
            Kept::Shared(shared) => shared,
        }
    }
}

impl Clone for SharedAttributes {
    ghost is_clone = { λ old new. new ≡ old };

    fn clone(&self) -> Result<SharedAttributes, AllocError> {
        let shared = match &self.kept {
            Kept::Own(attributes, alloc) => Arc::new(*alloc, attributes.clone()?)?,
            Kept::Shared(shared) => Arc::try_clone(shared)?,
        };
        Ok(SharedAttributes {
            kept: Kept::Shared(shared),
        })
    }
}

/// One held address of a block: its ordinal, counted from the block's first address as 0, and the
/// stamp of its assignment, by which a later assignment of the same address differs from it.
pub struct Allocation {
    /// The number of the address in the block. In a block it is at most 4,095.
    pub ordinal: u16,
    /// The handle that holds the address, and the pairs kept with it.
    pub attributes: SharedAttributes,
    /// The sequence number of the block when the allocation was made. In a block it is at least 1,
    /// and at most the block's present sequence number.
    pub stamp: u64,
}

impl Drop for Allocation {
    fn drop(self) {
        let Allocation {
            ordinal: _,
            attributes: _,
            stamp: _,
        } = self;
    }
}

impl Clone for Allocation {
    ghost is_clone = { λ old new. new ≡ old };

    fn clone(&self) -> Result<Allocation, AllocError> {
        let attributes = self.attributes.clone()?;
        Ok(Allocation {
            ordinal: self.ordinal,
            attributes,
            stamp: self.stamp,
        })
    }
}

/// The ordinal that was asked for is held. The attributes come back to the caller.
#[derive(Debug, Drop)]
pub struct Held {
    /// The attributes that the caller gave, unchanged.
    pub attributes: Attributes,
}

/// Why parts make no block.
#[derive(Clone, Copy, Debug, PartialEq, Eq)]
pub enum PartsFault {
    /// An ordinal is not exactly once among those held and queued, those held do not ascend, or a
    /// stamp is 0 or above the sequence number.
    Unsound,
    /// There was no memory.
    Memory,
}
