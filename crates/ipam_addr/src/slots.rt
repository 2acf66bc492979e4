ghost use Rattle.std.specs.Prelude.{◌≡◌, ℕ, ◌≤◌, ◌↔◌, IsTrue, IsNone, IfSome};
ghost use Rattle.ipam_addr.specs.Width.{IsCidr};
ghost use Rattle.ipam_addr.specs.Holding.{Holds, LiesIn};
ghost use Rattle.ipam_addr.specs.Slots.{AllowsSize, HasSlots, last_slot_of, slot_of, slot_number_of, IsApart, IsOnlySlot};

use crate::address::{Addr, Family};
use crate::cidrs::{Cidr, low_bits};

/// Whether slots may have this size, which is the prefix of a slot: 20 to 32 in IPv4, and 116 to
/// 128 in IPv6.
pub fn allows_size(family: Family, size: u8) -> bool
    ensures { IsTrue result ↔ AllowsSize family size }
{
    match family {
        Family::V4 => 20 <= size && size <= 32,
        Family::V6 => 116 <= size && size <= 128,
    }
}

/// The number of the pool's last slot of this size.
pub fn last_slot(pool: Cidr, size: u8) -> u128
    requires { HasSlots pool size }
    ensures { result ≡ last_slot_of pool size }
{
    low_bits(size - pool.prefix())
}

/// The pool's slot of this size and number.
pub fn slot(pool: Cidr, size: u8, k: u128) -> Cidr
    requires size { HasSlots pool size }
    requires number { k ≤ last_slot_of pool size }
    ensures value { result ≡ slot_of pool size k }
    ensures sound { IsCidr result }
    ensures within { LiesIn result pool }
    ensures apart { IsApart pool size k }
{
    let base = pool.base();
    let offset = k << (base.family.width() - size);
    let first = Addr {
        family: base.family,
        number: base.number + offset,
    };
    Cidr::new(first, size)
}

/// The number of the pool's slot of this size that has the address, or `None` where the pool has
/// not the address.
pub fn slot_number(pool: Cidr, size: u8, addr: Addr) -> Option<u128>
    requires { HasSlots pool size }
    ensures value { result ≡ slot_number_of pool size addr }
    ensures outside { IsNone result ↔ ¬ (Holds pool addr) }
    ensures within { IfSome result (λ k. k ≤ last_slot_of pool size) }
    ensures slot { IfSome result (λ k. Holds (slot_of pool size k) addr) }
    ensures only { IfSome result (λ k. IsOnlySlot pool size addr k) }
{
    if pool.contains(addr) {
        let offset = addr.number - pool.base().number;
        Some(offset >> (addr.family.width() - size))
    } else {
        None
    }
}
