ghost use Rattle.std.specs.Prelude.{◌≡◌, ◌-◌, ◌<◌, ◌≤◌};
ghost use Rattle.ipam_addr.specs.Holding.{Holds};
ghost use Rattle.ipam_addr.specs.Slots.{HasSlots};
ghost use Rattle.ipam_addr.specs.Width.{cidr_size};
ghost use Rattle.ipam_block.specs.declared.limits.TheConstants.{ADDRESSES_MAX};
ghost use Rattle.ipam_block.specs.Operations.{ordinal_address};
ghost use Rattle.ipam_assign.specs.Place.{place_in};

use ipam_addr::{Addr, Cidr, slot, slot_number};
use ipam_block::Block;
use std::marker::Model;

/// An address, and the slot that holds it.
#[derive(Clone, Copy)]
pub struct Place {
    cidr: Cidr,
    address: Addr,
}

impl Model for Place {
    ghost use Rattle.std.specs.Prelude.{◌≤◌};
    ghost use Rattle.ipam_addr.specs.Holding.{Holds};
    ghost use Rattle.ipam_addr.specs.Width.{cidr_size};
    ghost use Rattle.ipam_block.specs.declared.limits.TheConstants.{ADDRESSES_MAX};
    ghost use Rattle.ipam_assign.specs.PlaceShape.{PlaceValue};

    ghost Value = { PlaceValue };

    ghost view = { λ p. record { cidr = p.cidr; address = p.address } };

    ghost invariant = { λ p. (cidr_size p.cidr ≤ ADDRESSES_MAX) × Holds p.cidr p.address };

    ghost inverse = { λ p. record { cidr = p.cidr; address = p.address } };
}

impl Place {
    /// The slot of the pool that holds the address. None exactly where the pool doesn't hold it.
    pub fn of(pool: Cidr, size: u8, address: Addr) -> Option<Place>
        requires { HasSlots pool size }
        ensures { result ≡ place_in pool size address }
    {
        let number = slot_number(pool, size, address)?;
        Some(Place {
            cidr: slot(pool, size, number),
            address,
        })
    }

    /// The place of an ordinal of a block.
    pub fn in_block(block: &Block, ordinal: u16) -> Place
        requires { ordinal < cidr_size block.now.cidr }
        ensures { result ≡ record { cidr = block.now.cidr; address = ordinal_address block.now.cidr ordinal } }
    {
        Place {
            cidr: block.cidr(),
            address: block.address(ordinal),
        }
    }

    pub fn cidr(&self) -> Cidr
        ensures value { result ≡ self.now.cidr }
        ensures small { cidr_size result ≤ ADDRESSES_MAX }
    {
        self.cidr
    }

    pub fn address(&self) -> Addr
        ensures { result ≡ self.now.address }
    {
        self.address
    }

    /// The address's ordinal in its slot.
    pub fn ordinal(&self) -> u16
        ensures value { result ≡ self.now.address.number - self.now.cidr.base }
        ensures within { result < cidr_size self.now.cidr }
    {
        (self.address.number - self.cidr.base().number) as u16
    }
}
