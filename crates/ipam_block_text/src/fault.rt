use ipam_addr::Cidr;

/// Why a text is not that of a block.
#[derive(Clone, Copy, Debug, PartialEq, Eq)]
pub enum BodyFault {
    /// It is not canonical JSON with exactly the members of a block, or a text or a number in it is
    /// out of its limits.
    Form,
    /// Its members do not make a block, or not in the one way in which a block is written. It says
    /// that it is the block of this CIDR.
    Unsound(Cidr),
    /// There was no memory.
    Memory,
}
