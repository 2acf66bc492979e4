ghost use Rattle.std.specs.Prelude.{◌≡◌, ℕ, ◌+◌, ◌≤◌, ◌<◌, ◌-◌, ◌^◌, ◌*◌, ◌%◌, IsTrue, ◌↔◌};
ghost use Rattle.ipam_addr.specs.Shape.{AddrValue, CidrValue};
ghost use Rattle.ipam_addr.specs.Width.{width, IsAddress, IsCidr, cidr_size};
ghost use Rattle.ipam_addr.specs.Holding.{first_address, Holds, holds_address, Overlap, ShareAddress, cidrs_overlap};

use crate::address::{Addr, Family};
use std::error::Error;
use std::fmt;
use std::marker::Model;

/// Why a text or a pair of numbers is no address or CIDR.
#[derive(Clone, Copy, Debug, PartialEq, Eq)]
pub enum AddrFault {
    /// The text has not the form of an address, or of an address, `/` and a number.
    Text = 1,
    /// The prefix is longer than an address of the family.
    Prefix = 2,
    /// A bit after the prefix is set.
    HostBits = 3,
}

impl fmt::Display for AddrFault {
    ghost use Rattle.std.specs.Prelude.{Some};
    ghost use Rattle.ipam_addr.specs.Made.{fault_text};

    ghost output = { λ fault. Some (fault_text fault) };

    fn fmt<W: fmt::Write>(&self, f: &mut fmt::Formatter<W>) -> fmt::Result {
        f.write_str(match self {
            AddrFault::Text => "invalid address or CIDR syntax",
            AddrFault::Prefix => "prefix longer than an address",
            AddrFault::HostBits => "bits set behind the prefix",
        })
    }
}

impl Error for AddrFault {}

/// All addresses that begin with the same bits, as RFC 4632 writes them.
#[derive(Clone, Copy, Debug, PartialEq, Eq, PartialOrd, Ord)]
pub struct Cidr {
    family: Family,
    base: u128,
    prefix: u8,
}

impl Model for Cidr {
    ghost use Rattle.ipam_addr.specs.Shape.{CidrValue};

    ghost Value = { CidrValue };

    ghost use Rattle.ipam_addr.specs.Width.{IsCidr};

    ghost view = { λ c. record { family = c.family; base = c.base; prefix = c.prefix } };

    ghost invariant = { λ c. IsCidr (record { family = c.family; base = c.base; prefix = c.prefix }) };

    ghost inverse = { λ c. record { family = c.family; base = c.base; prefix = c.prefix } };
}

impl Cidr {
    pub(crate) fn new(base: Addr, prefix: u8) -> Cidr
        requires { IsCidr (record { family = base.family; base = base.number; prefix = prefix }) }
        ensures { result ≡ record { family = base.family; base = base.number; prefix = prefix } }
    {
        Cidr {
            family: base.family,
            base: base.number,
            prefix,
        }
    }

    /// The family of its addresses.
    pub fn family(&self) -> Family
        ensures { result ≡ self.now.family }
    {
        self.family
    }

    /// How many leading bits its addresses share: at most 32 in IPv4, and 128 in IPv6.
    pub fn prefix(&self) -> u8
        ensures value { result ≡ self.now.prefix }
        ensures sound { IsCidr self.now }
    {
        self.prefix
    }

    /// The first address.
    pub fn base(&self) -> Addr
        ensures value { result ≡ first_address self.now }
        ensures sound { IsCidr self.now }
        ensures own { Holds self.now result }
    {
        Addr {
            family: self.family,
            number: self.base,
        }
    }

    /// The last address.
    pub fn last(&self) -> Addr
        ensures family { result.family ≡ self.now.family }
        ensures value { result.number ≡ self.now.base + cidr_size self.now - 1 }
        ensures sound { IsCidr self.now }
        ensures own { Holds self.now result }
    {
        Addr {
            family: self.family,
            number: self.base + low_bits(self.family.width() - self.prefix),
        }
    }

    /// Whether the address is one of its addresses.
    pub fn contains(&self, addr: Addr) -> bool
        ensures exact { IsTrue result ↔ Holds self.now addr }
        ensures value { result ≡ holds_address self.now addr }
    {
        addr.family == self.family && self.base <= addr.number && addr.number <= self.last().number
    }

    /// Whether some address lies in both.
    pub fn overlaps(&self, other: &Cidr) -> bool
        ensures exact { IsTrue result ↔ Overlap self.now other.now }
        ensures shared { IsTrue result ↔ ShareAddress self.now other.now }
        ensures value { result ≡ cidrs_overlap self.now other.now }
    {
        self.family == other.family
            && other.base <= self.last().number
            && self.base <= other.last().number
    }
}

/// The number whose lowest `count` bits are set, and no others.
pub(crate) fn low_bits(count: u8) -> u128
    requires { count ≤ 128 }
    ensures { result ≡ 2 ^ count - 1 }
{
    if count < 128 {
        (1 << count) - 1
    } else {
        u128::MAX
    }
}
