ghost use Rattle.std.specs.Prelude.{◌≡◌, ◌<◌, ◌-◌, IfOk};
ghost use Rattle.ipam_addr.specs.Width.{cidr_size};
ghost use Rattle.ipam_model.specs.Counting.{free};
ghost use Rattle.ipam_model.specs.Remove.{leak_of, freeing_owner};
ghost use Rattle.ipam_parts.specs.Freeing.{freeing_rest};

use ipam_addr::{Addr, Cidr};
use ipam_block::{Allocation, Block};
use ipam_model::{Item, Left};
use ipam_parts::{Freeing, Picks};
use ipam_text::Text;
use std::alloc::AllocError;
use std::marker::Model;

/// An address that may be collected, with the handle and the stamp that it is recorded with, and
/// the block that it lies in.
#[derive(Drop)]
pub struct Suspect {
    address: Addr,
    handle: Text,
    stamp: u64,
    block: Cidr,
}

impl Model for Suspect {
    ghost use Rattle.std.specs.Prelude.{◌-◌, ◌<◌, ◌^◌};
    ghost use Rattle.ipam_model.specs.Remove.{Leak};

    ghost Value = { Leak };

    ghost view = { λ s. record {
      owner = record { address = s.address; handle = s.handle; stamp = s.stamp };
      block = s.block;
    } };

    ghost invariant = { λ s. s.address.number - s.block.base < 2 ^ 16 };
}

impl Suspect {
    /// The suspect that holds an address of the block.
    pub(crate) fn of(block: &Block, allocation: &Allocation) -> Result<Suspect, AllocError>
        requires { allocation.now.ordinal < cidr_size block.now.cidr }
        ensures { IfOk result (λ s. s ≡ leak_of block.now.cidr allocation.now) }
    {
        let handle = allocation.attributes.get().handle.clone()?;
        let address = block.address(allocation.ordinal);
        let block = block.cidr();
        Ok(Suspect {
            address,
            handle,
            stamp: allocation.stamp,
            block,
        })
    }

    pub(crate) fn address(&self) -> Addr
        ensures { result ≡ self.now.owner.address }
    {
        self.address
    }

    /// The block that it was found in.
    pub(crate) fn block(&self) -> Cidr
        ensures { result ≡ self.now.block }
    {
        self.block
    }

    pub(crate) fn handle(&self) -> &str
        ensures { result.now ≡ self.now.owner.handle }
    {
        self.handle.as_str()
    }

    pub(crate) fn stamp(&self) -> u64
        ensures { result ≡ self.now.owner.stamp }
    {
        self.stamp
    }

    /// Where the address lies in its block.
    fn ordinal(&self) -> u16
        ensures { result ≡ self.now.owner.address.number - self.now.block.base }
    {
        self.address.number.saturating_sub(self.block.base().number) as u16
    }

    /// The freeing of the address.
    pub(crate) fn freeing(&self, left: Left) -> Freeing
        ensures { freeing_rest self.now.owner.handle result ≡ free (freeing_owner self.now.owner self.now.block) left }
    {
        let ordinal = self.ordinal();
        let stamp = self.stamp;
        Freeing::new(self.block, Picks::Stamped { ordinal, stamp }, left)
    }

    /// The item of the address: its handle, its stamp and whether it was freed.
    pub(crate) fn into_item(self, freed: bool) -> Item
        ensures address { result.address ≡ self.owner.address }
        ensures handle { result.handle ≡ self.owner.handle }
        ensures stamp { result.stamp ≡ self.owner.stamp }
        ensures freed { result.freed ≡ freed }
    {
        Item {
            address: self.address,
            handle: self.handle,
            stamp: self.stamp,
            freed,
        }
    }
}

impl Clone for Suspect {
    ghost is_clone = { λ old new. new ≡ old };

    fn clone(&self) -> Result<Suspect, AllocError> {
        let handle = self.handle.clone()?;
        Ok(Suspect {
            address: self.address,
            handle,
            stamp: self.stamp,
            block: self.block,
        })
    }
}
