use ipam_addr::Cidr;

/// Which address an ADD takes, or what it does to come to one.
#[derive(Clone, Copy)]
pub enum Choice {
    /// This ordinal of the node's own block.
    Use(Cidr, u16),
    /// The slot is first to be claimed.
    Claim(Cidr),
    /// This ordinal of another node's block, or of a block without affinity.
    Borrow(Cidr, u16),
    /// There is no candidate.
    Nothing,
    /// The name at this place matches no enabled pool of the family.
    NoPool(usize),
}
