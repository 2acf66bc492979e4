//! Laws of blocks. Each function does nothing: its contract is the law.
ghost use Rattle.std.specs.Prelude.{◌≡◌, ◌≤◌, ◌↔◌, true};
ghost use Rattle.ipam_addr.specs.Width.{IsCidr, cidr_size};
ghost use Rattle.ipam_block.specs.Shape.{BlockValue};
ghost use Rattle.ipam_block.specs.Sound.{IsBlock};
ghost use Rattle.ipam_block.specs.Test.{is_block};

use crate::limits::ADDRESSES_MAX;

/// The test by which `Block::of_parts` decides holds of the contents of blocks alone.
pub fn contents_of_blocks_pass_the_test()
    ensures { (b : BlockValue) → IsCidr b.cidr → cidr_size b.cidr ≤ ADDRESSES_MAX
        → ((is_block b ≡ true) ↔ IsBlock b) }
{}
