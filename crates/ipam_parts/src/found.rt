ghost use Rattle.std.specs.Prelude.{◌≡◌, ◌<◌, ◌≤◌, ◌^◌, IfOk, IfSome};
ghost use Rattle.ipam_records.specs.Said.{said};
ghost use Rattle.ipam_model.specs.Reads.{block_said};
ghost use Rattle.ipam_addr.specs.Width.{cidr_size};
ghost use Rattle.ipam_block.specs.declared.limits.TheConstants.{ADDRESSES_MAX};
ghost use Rattle.ipam_block.specs.Operations.{next_block};

use ipam_addr::Cidr;
use ipam_block::Block;
use ipam_records::{Record, Reply};
use std::alloc::AllocError;
use std::marker::Model;

/// A block as it was read, with its revision. It may be written once more.
pub struct FoundBlock {
    revision: u64,
    block: Block,
}

impl Drop for FoundBlock {
    fn drop(self) {
        let FoundBlock {
            revision: _,
            block: _,
        } = self;
    }
}

impl Model for FoundBlock {
    ghost use Rattle.std.specs.Prelude.{ℕ, ◌<◌, ◌^◌};
    ghost use Rattle.ipam_block.specs.Shape.{BlockValue};

    ghost Value = { ℕ × BlockValue };

    ghost view = { λ f. (f.revision, f.block) };

    ghost invariant = { λ f. f.block.sequence < 2 ^ 62 };
}

impl FoundBlock {
    /// A copy of the block.
    pub fn of(revision: u64, block: &Block) -> Result<FoundBlock, AllocError>
        requires { block.now.sequence < 2 ^ 62 }
        ensures { IfOk result (λ found. found ≡ (revision, block.now)) }
    {
        let block = block.clone()?;
        Ok(FoundBlock { revision, block })
    }

    /// The revision that the block had when it was read.
    pub fn revision(&self) -> u64
        ensures { result ≡ self.now.0 }
    {
        self.revision
    }

    /// The block as it was read.
    pub fn block(&self) -> &Block
        ensures { result.now ≡ self.now.1 }
    {
        &self.block
    }

    /// A copy that is counted as one write more.
    pub fn next(&self) -> Result<Block, AllocError>
        ensures { IfOk result (λ b. b ≡ next_block self.now.1) }
    {
        self.block.next()
    }
}

/// The CIDR of a block: it has at most 4,096 addresses.
#[derive(Drop)]
pub struct BlockCidr {
    cidr: Cidr,
}

impl Model for BlockCidr {
    ghost use Rattle.std.specs.Prelude.{◌≤◌};
    ghost use Rattle.ipam_addr.specs.Shape.{CidrValue};
    ghost use Rattle.ipam_addr.specs.Width.{cidr_size};
    ghost use Rattle.ipam_block.specs.declared.limits.TheConstants.{ADDRESSES_MAX};

    ghost Value = { CidrValue };

    ghost view = { λ c. c.cidr };

    ghost invariant = { λ c. cidr_size c.cidr ≤ ADDRESSES_MAX };
}

impl BlockCidr {
    /// The CIDR, which must have at most 4,096 addresses.
    pub fn of(cidr: Cidr) -> BlockCidr
        requires { cidr_size cidr ≤ ADDRESSES_MAX }
        ensures { result ≡ cidr }
    {
        BlockCidr { cidr }
    }

    /// The CIDR, which has at most 4,096 addresses.
    pub fn get(&self) -> Cidr
        ensures value { result ≡ self.now }
        ensures small { cidr_size result ≤ ADDRESSES_MAX }
    {
        self.cidr
    }
}

/// The block that was found, or that it was missing.
pub fn found_block(reply: &Reply) -> Result<Option<FoundBlock>, AllocError>
    requires { IfSome (block_said (said reply.now)) (λ found. found.1.sequence < 2 ^ 62) }
    ensures { IfOk result (λ read. read ≡ block_said (said reply.now)) }
{
    match reply {
        Reply::Found(revision, Record::Block(block)) => {
            Ok(Some(FoundBlock::of(*revision, block)?))
        }
        _ => Ok(None),
    }
}
