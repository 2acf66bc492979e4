ghost use Rattle.std.specs.Prelude.{◌≡◌, ◌-◌, ◌<◌, ℕ, List};
ghost use Rattle.ipam_addr.specs.Width.{cidr_size};
ghost use Rattle.ipam_block.specs.Operations.{ordinal_address};
ghost use Rattle.ipam_model.specs.Counting.{free, freeing_one};
ghost use Rattle.ipam_parts.specs.Freeing.{freeing_rest};
ghost use Rattle.ipam_assign.specs.Grant.{gift_in};

use crate::place::Place;
use crate::spare::Spare;
use ipam_block::Block;
use ipam_model::{AddAnswer, Assigned, Given, Left, Scan};
use ipam_parts::{Freeing, Picks};

/// Where an address is assigned, and the moments of the reads by which it was picked.
#[derive(Clone, Copy)]
pub struct Spot {
    scan: Scan,
    place: Place,
}

/// An address that was given: where, and by which write of the block.
#[derive(Clone, Copy)]
pub struct Grant {
    spot: Spot,
    done: Assigned,
}

/// What the rounds of a family come to.
#[derive(Drop)]
pub enum Obtained {
    /// The address, with memory to tell of it.
    Gave(Grant, Spare),
    /// There is no address, and this is the answer.
    Refused(AddAnswer),
}

impl Spot {
    /// The spot of an ordinal of the block.
    pub(crate) fn of(scan: Scan, block: &Block, ordinal: u16) -> Spot
        requires { ordinal < cidr_size block.now.cidr }
        ensures scan { result.scan ≡ scan }
        ensures place { result.place ≡ record { cidr = block.now.cidr; address = ordinal_address block.now.cidr ordinal } }
    {
        Spot {
            scan,
            place: Place::in_block(block, ordinal),
        }
    }
}

impl Grant {
    pub(crate) fn of(spot: Spot, done: Assigned) -> Grant
        ensures { gift_in result ≡ gift_in (record { spot = spot; done = done }) }
    {
        Grant { spot, done }
    }

    /// The address, with the moments of the reads that led to it and of the write that
    /// recorded it.
    pub(crate) fn given(&self) -> Given
        ensures { result ≡ (gift_in self.now).given }
    {
        let scan = self.spot.scan;
        Given {
            address: self.spot.place.address(),
            c: scan.c,
            p: scan.p,
            r: scan.r,
            f: scan.f,
            b: scan.b,
            w: self.done.moment,
        }
    }

    /// The address is freed again, where it is still held with the stamp.
    pub(crate) fn freeing(&self, left: Left) -> Freeing
        ensures { (id : List ℕ) → freeing_rest id result
            ≡ free (freeing_one id (gift_in self.now).block ((gift_in self.now).given.address.number - (gift_in self.now).block.base) (gift_in self.now).stamp) left }
    {
        let picks = Picks::Stamped {
            ordinal: self.spot.place.ordinal(),
            stamp: self.done.stamp,
        };
        Freeing::new(self.spot.place.cidr(), picks, left)
    }
}
