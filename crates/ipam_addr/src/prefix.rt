ghost use Rattle.std.specs.Prelude.{◌≡◌, ◌≢◌, ◌<◌, ◌≤◌, ◌%◌, ◌↔◌};
ghost use Rattle.ipam_addr.specs.Width.{width, size_of};
ghost use Rattle.ipam_addr.specs.Made.{made_cidr};

use crate::address::Addr;
use crate::cidrs::{AddrFault, Cidr, low_bits};

/// The CIDR of all addresses that share the first `prefix` bits of `addr`, whose other bits are 0.
///
/// Fails with `Prefix` where the family's addresses have fewer bits, and else with `HostBits`
/// where a bit after the prefix is set.
pub fn cidr(addr: Addr, prefix: u8) -> Result<Cidr, AddrFault>
    ensures value { result ≡ made_cidr addr prefix }
    ensures prefix { (result ≡ Err AddrFault.Prefix) ↔ (width addr.family < prefix) }
    ensures host_bits { (result ≡ Err AddrFault.HostBits)
        ↔ ((prefix ≤ width addr.family) × (addr.number % size_of addr.family prefix ≢ 0)) }
{
    if prefix > addr.family.width() {
        return Err(AddrFault::Prefix);
    }
    if host_bits(addr, prefix) != 0 {
        return Err(AddrFault::HostBits);
    }
    Ok(Cidr::new(addr, prefix))
}

// The bits of the address after its first `prefix`.
fn host_bits(addr: Addr, prefix: u8) -> u128
    requires { prefix ≤ width addr.family }
    ensures { result ≡ addr.number % size_of addr.family prefix }
{
    addr.number & low_bits(addr.family.width() - prefix)
}
