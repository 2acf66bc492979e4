ghost use Rattle.std.specs.Prelude.{◌≡◌, ◌≤◌, ℕ, IfOk, IfErr};
ghost use Rattle.std.specs.declared.cmp.Ordering.TheVariants.{Less, Greater};
ghost use Rattle.std.specs.List.Sorted.{IsStrictlySortedBy};
ghost use Rattle.ipam_addr.specs.Shape.{CidrValue};
ghost use Rattle.ipam_addr.specs.Slots.{last_slot_of, slot_of};
ghost use Rattle.ipam_block.specs.Order.{cidr_cmp};
ghost use Rattle.ipam_records.specs.Places.{IsFoundAt, IsGapAt};
ghost use Rattle.ipam_choice.specs.First.{Has};
ghost use Rattle.ipam_choice.specs.Sight.{IsSlotted};

use ipam_addr::{Cidr, last_slot, slot};
use ipam_pool::Pool;

/// The blocks among which all slots of the pool are. Takes no memory.
pub(crate) fn part_in<'a>(pool: &Pool, blocks: &'a [Cidr]) -> &'a [Cidr]
    requires slotted { IsSlotted pool.now }
    requires ascending { IsStrictlySortedBy cidr_cmp blocks.now }
    ensures ascending { IsStrictlySortedBy cidr_cmp result.now }
    ensures kept { (k : ℕ) → k ≤ last_slot_of pool.now.cidr pool.now.size
        → Has (slot_of pool.now.cidr pool.now.size k) blocks.now
        → Has (slot_of pool.now.cidr pool.now.size k) result.now }
{
    let first = slot(pool.cidr, pool.size, 0);
    let last = slot(pool.cidr, pool.size, last_slot(pool.cidr, pool.size));
    part_to(part_from(blocks, first), last)
}

// The blocks from this one on.
fn part_from(blocks: &[Cidr], first: Cidr) -> &[Cidr]
    requires { IsStrictlySortedBy cidr_cmp blocks.now }
    ensures ascending { IsStrictlySortedBy cidr_cmp result.now }
    ensures kept { (cidr : CidrValue) → Has cidr blocks.now → (cidr_cmp cidr first ≡ Less → ⊥)
        → Has cidr result.now }
{
    match place_of(blocks, first) {
        Ok(place) => &blocks[place..],
        Err(place) => &blocks[place..],
    }
}

// The blocks up to this one.
fn part_to(blocks: &[Cidr], last: Cidr) -> &[Cidr]
    requires { IsStrictlySortedBy cidr_cmp blocks.now }
    ensures ascending { IsStrictlySortedBy cidr_cmp result.now }
    ensures kept { (cidr : CidrValue) → Has cidr blocks.now → (cidr_cmp cidr last ≡ Greater → ⊥)
        → Has cidr result.now }
{
    match place_of(blocks, last) {
        Ok(place) => &blocks[..place + 1],
        Err(place) => &blocks[..place],
    }
}

// Where the block is, or where it would go.
fn place_of(blocks: &[Cidr], cidr: Cidr) -> Result<usize, usize>
    requires { IsStrictlySortedBy cidr_cmp blocks.now }
    ensures found { IfOk result (IsFoundAt (λ other. cidr_cmp other cidr) blocks.now) }
    ensures absent { IfErr result (IsGapAt (λ other. cidr_cmp other cidr) blocks.now) }
{
    blocks.binary_search_by(|other| other.cmp(&cidr))
}
