ghost use Rattle.std.specs.Prelude.{◌≡◌, ℕ};

use std::marker::Model;

/// The version of the Internet Protocol that an address belongs to.
#[derive(Clone, Copy, Debug, PartialEq, Eq, PartialOrd, Ord)]
pub enum Family {
    /// IPv4, whose addresses have 32 bits.
    V4,
    /// IPv6, whose addresses have 128 bits.
    V6,
}

impl Family {
    ghost use Rattle.ipam_addr.specs.Width.{width};

    /// How many bits an address has.
    pub fn width(self) -> u8
        ensures { result ≡ width self }
    {
        match self {
            Family::V4 => 32,
            Family::V6 => 128,
        }
    }
}

/// An address, as its family and its bits read as one number, the first bit the most significant.
#[derive(Clone, Copy, Debug, PartialEq, Eq, PartialOrd, Ord)]
pub struct Addr {
    /// The version of the Internet Protocol.
    pub family: Family,
    /// The bits as a number: below 2^32 for IPv4, below 2^128 for IPv6.
    pub number: u128,
}

impl Model for Addr {
    ghost use Rattle.ipam_addr.specs.Shape.{AddrValue};

    ghost Value = { AddrValue };

    ghost use Rattle.ipam_addr.specs.Width.{IsAddress};

    ghost view = { λ a. record { family = a.family; number = a.number } };

    ghost invariant = { λ a. IsAddress (record { family = a.family; number = a.number }) };

    ghost inverse = { λ a. record { family = a.family; number = a.number } };
}
