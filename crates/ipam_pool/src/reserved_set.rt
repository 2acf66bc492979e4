ghost use Rattle.std.specs.Prelude.{◌≡◌, ◌↔◌, IsTrue, IsNone, IfOk, IfSome};
ghost use Rattle.ipam_addr.specs.Shape.{AddrValue};
ghost use Rattle.ipam_addr.specs.Slots.{HasSlots};
ghost use Rattle.ipam_pool.specs.Spans.{IsMerged};
ghost use Rattle.ipam_pool.specs.Union.{is_in_union, IsInUnion};

use crate::reservations::Reservation;
use crate::spans::{Span, first_gap, union_of};
use ipam_addr::{Addr, Cidr, Family, Spared, last_slot, slot, slot_number};
use std::alloc::{AllocError, Global};
use std::marker::Model;

/// The set of all addresses that reservations hold.
pub struct Reserved {
    v4: Vec<Span>,
    v6: Vec<Span>,
}

impl Drop for Reserved {
    fn drop(self) {
        let Reserved { v4: _, v6: _ } = self;
    }
}

impl Model for Reserved {
    ghost use Rattle.ipam_pool.specs.Spans.{ReservedValue, IsMerged};

    ghost Value = { ReservedValue };

    ghost view = { λ r. record { v4 = r.v4.items; v6 = r.v6.items } };

    ghost invariant = { λ r. IsMerged r.v4.items × IsMerged r.v6.items };
}

impl Reserved {
    ghost use Rattle.ipam_pool.specs.Spans.{spans_of, is_reserved_by};
    ghost use Rattle.ipam_pool.specs.Free.{IsFull, IsFirstFree, IsNextSlot, AreFullFrom};

    /// All addresses of all CIDRs of the reservations.
    pub fn of(alloc: Global, list: &[Reservation]) -> Result<Reserved, AllocError>
        ensures union { IfOk result (λ r. (a : AddrValue)
            → is_reserved_by r a ≡ is_in_union list.now a) }
        ensures exact { IfOk result (λ r. (a : AddrValue)
            → IsTrue (is_reserved_by r a) ↔ IsInUnion list.now a) }
    {
        let v4 = union_of(alloc, list, Family::V4)?;
        let v6 = union_of(alloc, list, Family::V6)?;
        Ok(Reserved { v4, v6 })
    }

    /// The least address of the CIDR that is not reserved. Takes no memory.
    pub fn first_free_in(&self, cidr: Cidr) -> Option<Addr>
        ensures first { IfSome result (IsFirstFree self.now cidr) }
        ensures full { IsNone result ↔ IsFull self.now cidr }
    {
        let base = cidr.base();
        let spans = self.spans(base.family);
        let number = first_gap(spans, base.number, cidr.last().number)?;
        Some(Addr {
            family: base.family,
            number,
        })
    }

    /// The number of the pool's first slot, from slot `from` on, that has an address which is not
    /// reserved. Takes no memory.
    pub fn next_slot_with_room(&self, pool: Cidr, size: u8, from: u128) -> Option<u128>
        requires { HasSlots pool size }
        ensures next { IfSome result (IsNextSlot self.now pool size from) }
        ensures full { IsNone result ↔ AreFullFrom self.now pool size from }
    {
        if from > last_slot(pool, size) {
            return None;
        }
        let start = slot(pool, size, from).base();
        let spans = self.spans(start.family);
        let number = first_gap(spans, start.number, pool.last().number)?;
        let addr = Addr {
            family: start.family,
            number,
        };
        slot_number(pool, size, addr)
    }

    fn spans(&self, family: Family) -> &[Span]
        ensures value { result.now ≡ spans_of self.now family }
        ensures merged { IsMerged result.now }
    {
        match family {
            Family::V4 => self.v4.as_slice(),
            Family::V6 => self.v6.as_slice(),
        }
    }
}

impl Spared for Reserved {
    ghost use Rattle.ipam_pool.specs.Spans.{is_reserved_by};

    ghost reserved = { is_reserved_by };

    fn is_reserved(&self, addr: Addr) -> bool {
        let spans = self.spans(addr.family);
        first_gap(spans, addr.number, addr.number).is_none()
    }
}
