ghost use Rattle.std.specs.Prelude.{◌≡◌, ◌≤◌, ◌↔◌, length, IsOk, IfOk};
ghost use Rattle.ipam_pool.specs.declared.reservations.TheConstants.{MOST_CIDRS};

use ipam_addr::Cidr;
use ipam_text::{Seq, Text};
use std::alloc::AllocError;
use std::error::Error;
use std::fmt;
use std::marker::Model;

/// The most CIDRs of a reservation.
pub const MOST_CIDRS: usize = 64;

/// The most reservations that stand side by side.
pub const MOST_RESERVATIONS: usize = 256;

/// CIDRs that are reserved under one name.
pub struct Reservation {
    name: Text,
    cidrs: Seq<Cidr>,
}

impl Drop for Reservation {
    fn drop(self) {
        let Reservation { name: _, cidrs: _ } = self;
    }
}

impl Model for Reservation {
    ghost use Rattle.std.specs.Prelude.{◌≤◌, length};
    ghost use Rattle.ipam_pool.specs.declared.reservations.TheConstants.{MOST_CIDRS};
    ghost use Rattle.ipam_pool.specs.Shape.{ReservationValue};

    ghost Value = { ReservationValue };

    ghost view = { λ r. record { name = r.name; cidrs = r.cidrs } };

    ghost invariant = { λ r. length r.cidrs ≤ MOST_CIDRS };
}

/// A reservation has at most 64 CIDRs.
#[derive(Clone, Copy, Debug, PartialEq, Eq)]
pub struct TooManyCidrs;

impl fmt::Display for TooManyCidrs {
    ghost use Rattle.std.specs.Prelude.{Some};
    ghost use Rattle.ipam_pool.specs.ReservePrinted.{too_many_text};

    ghost output = { λ _. Some too_many_text };

    fn fmt<W: fmt::Write>(&self, f: &mut fmt::Formatter<W>) -> fmt::Result {
        f.write_str("too many CIDRs in a reservation")
    }
}

impl Error for TooManyCidrs {}

impl Reservation {
    /// The reservation of these CIDRs, where they are at most 64. Takes no memory.
    pub fn new(name: Text, cidrs: Seq<Cidr>) -> Result<Reservation, TooManyCidrs>
        ensures few { IsOk result ↔ (length cidrs ≤ MOST_CIDRS) }
        ensures ok { IfOk result (λ r. r ≡ record { name = name; cidrs = cidrs }) }
    {
        if cidrs.len() > MOST_CIDRS {
            return Err(TooManyCidrs);
        }
        Ok(Reservation { name, cidrs })
    }

    /// The name of the reservation.
    pub fn name(&self) -> &str
        ensures { result.now ≡ self.now.name }
    {
        self.name.as_str()
    }

    /// The reserved CIDRs, at most 64, in the order in which they were given.
    pub fn cidrs(&self) -> &[Cidr]
        ensures value { result.now ≡ self.now.cidrs }
        ensures few { length result.now ≤ MOST_CIDRS }
    {
        self.cidrs.as_slice()
    }
}

impl Clone for Reservation {
    ghost is_clone = { λ old new. new ≡ old };

    fn clone(&self) -> Result<Reservation, AllocError> {
        let name = self.name.clone()?;
        let cidrs = self.cidrs.clone()?;
        Ok(Reservation { name, cidrs })
    }
}
