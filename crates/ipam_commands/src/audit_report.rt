use ipam_addr::Cidr;
use ipam_text::{Seq, Text};

/// A handle's count of a block that is above what the handle owns there.
#[derive(Drop)]
pub struct Excess {
    /// The handle's id.
    pub handle: Text,
    /// The block's CIDR.
    pub cidr: Cidr,
    /// How many addresses of the block the handle's record counts.
    pub count: u32,
    /// How many addresses of the block the handle owns: 0 where there is no such block.
    pub owned: u32,
}

/// What is left over in a datastore, and how many records there are.
#[derive(Drop)]
pub struct Report {
    /// By the handle's id, then by the block's family, base and prefix.
    pub excess: Seq<Excess>,
    /// The affinities that are pending deletion, by node, then by family, base and prefix.
    pub stale: Seq<(Text, Cidr)>,
    /// The pending affinities whose block is missing or has not their node, in the same order.
    pub stray: Seq<(Text, Cidr)>,
    /// How many blocks there are.
    pub blocks: u64,
    /// How many addresses are owned, in all blocks.
    pub owners: u64,
    /// How many handles there are.
    pub handles: u64,
}
