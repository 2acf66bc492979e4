ghost use Rattle.std.specs.Prelude.{◌≡◌, ◌+◌, ◌≤◌, false, IfSome, IsNone, ℕ};
ghost use Rattle.ipam_addr.specs.Slots.{last_slot_of};
ghost use Rattle.ipam_pool.specs.Slots.{is_slot_of};
ghost use Rattle.ipam_pool.specs.Spans.{is_reserved_by};
ghost use Rattle.ipam_pool.specs.Free.{IsNextSlot, AreFullFrom};
ghost use Rattle.ipam_records.specs.Listing.{rows_of};
ghost use Rattle.ipam_choice.specs.Picked.{found_in};
ghost use Rattle.ipam_choice.specs.Sight.{IsSlotted, block_under};
ghost use Rattle.ipam_choice.specs.Scanned.{IsFirstBare, is_bare_slot};

use crate::ahead::Ahead;
use crate::picked::Listed;
use ipam_addr::{Cidr, last_slot, slot};
use ipam_pool::{Pool, Reserved};
use ipam_records::{Listing, Record};
use std::cmp::Ordering;

/// Whether the CIDR is one of the pool's slots.
pub(crate) fn is_slot(pool: &Pool, cidr: Cidr) -> bool
    ensures { result ≡ is_slot_of pool.now cidr }
{
    cidr.prefix() == pool.size && pool.cidr.contains(cidr.base())
}

/// The block of this CIDR, where there is one. Takes no memory.
pub(crate) fn listed_at<'a>(blocks: &Listing<'a>, cidr: Cidr) -> Option<Listed<'a>>
    ensures { found_in result ≡ block_under (rows_of blocks.now) cidr }
{
    match blocks.find(cidr) {
        Some((revision, Record::Block(block))) => Some(Listed { revision, block }),
        _ => None,
    }
}

/// The number of the pool's first slot without a block that has an address which is not reserved.
/// Goes along the slots with such an address and the blocks side by side. Takes no memory.
pub(crate) fn next_bare(pool: &Pool, blocks: &Listing, reserved: &Reserved) -> Option<u128>
    requires { IsSlotted pool.now }
    ensures found { IfSome result (IsFirstBare (is_reserved_by reserved.now) (rows_of blocks.now) pool.now) }
    ensures none { IsNone result → (k : ℕ) → k ≤ last_slot_of pool.now.cidr pool.now.size
        → is_bare_slot (is_reserved_by reserved.now) (rows_of blocks.now) pool.now k ≡ false }
{
    let mut ahead = Ahead::of(blocks, slot(pool.cidr, pool.size, 0));
    let mut number = reserved.next_slot_with_room(pool.cidr, pool.size, 0)?;
    while let Some(cidr) = ahead.next_block() {
        match cidr.cmp(&slot(pool.cidr, pool.size, number)) {
            Ordering::Less => {}
            Ordering::Equal => number = next_with_room(pool, reserved, number)?,
            Ordering::Greater => return Some(number),
        }
    }
    Some(number)
}

// The number of the first slot after this one that has an address which is not reserved.
fn next_with_room(pool: &Pool, reserved: &Reserved, number: u128) -> Option<u128>
    requires slotted { IsSlotted pool.now }
    requires within { number ≤ last_slot_of pool.now.cidr pool.now.size }
    ensures next { IfSome result (IsNextSlot reserved.now pool.now.cidr pool.now.size (number + 1)) }
    ensures full { IsNone result → AreFullFrom reserved.now pool.now.cidr pool.now.size (number + 1) }
{
    if number == last_slot(pool.cidr, pool.size) {
        return None;
    }
    reserved.next_slot_with_room(pool.cidr, pool.size, number + 1)
}
