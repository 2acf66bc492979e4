ghost use Rattle.std.specs.Prelude.{◌≡◌, Bool};
ghost use Rattle.ipam_addr.specs.Shape.{AddrValue};

use crate::address::Addr;

/// A set of addresses that are not to be given out, told by a test, which takes no memory.
pub trait Spared {
    ghost reserved: { Self → AddrValue → Bool };

    /// Whether the address is one of the set.
    fn is_reserved(&self, addr: Addr) -> bool
        ensures { result ≡ reserved self.now addr };
}
