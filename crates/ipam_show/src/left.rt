//! What a pool is for, and how many blocks can still be taken of it.
ghost use Rattle.std.specs.Prelude.{◌≡◌, ◌+◌, ◌-◌, ◌<◌, ◌^◌, decimal, length, IfOk, IfSome, IsNone};
ghost use Rattle.ipam_show.specs.Left.{IsOfSlots, blocks_left, use_word};

use crate::cells::{cell_before_six, wide_cell};
use crate::counting::BlockCount;
use crate::sums::{Scope, block_sum};
use ipam_addr::last_slot;
use ipam_pool::{Mode, Pool};
use ipam_text::Text;
use std::alloc::{AllocError, Global};

/// What an ADD may use the pool for: `usable`; `manual`, if it names the pool or an address of it; or `disabled`.
pub fn use_word(pool: &Pool) -> &str
    ensures { result.now ≡ use_word pool.now }
{
    if pool.disabled {
        return "disabled";
    }
    match pool.mode {
        Mode::Automatic => "usable",
        Mode::Manual => "manual",
    }
}

/// How many blocks can still be taken of the pool, in decimal: its slots without a block, and its blocks without a node.
pub fn left_cell(alloc: Global, counts: &[BlockCount], pool: &Pool) -> Result<Text, AllocError>
    requires few { length counts.now < 2 ^ 32 }
    requires slots { IsOfSlots pool.now }
    ensures { IfOk result (λ text. text ≡ decimal (blocks_left counts.now pool.now)) }
{
    let taken = block_sum(&Scope::Taken(pool.cidr), counts);
    match left_of(last_slot(pool.cidr, pool.size), taken) {
        Some(number) => wide_cell(alloc, number),
        None => cell_before_six(alloc, 34_028_236_692_093_846_346_337_460_743_176_821_145),
    }
}

/// How many slots are not taken. None stands for 2^128, which no number type holds.
fn left_of(last: u128, taken: u64) -> Option<u128>
    ensures some { IfSome result (λ left. left ≡ last + 1 - taken) }
    ensures none { IsNone result → last + 1 - taken ≡ 2 ^ 128 }
{
    if taken == 0 {
        last.checked_add(1)
    } else {
        Some(last.saturating_sub(u128::from(taken - 1)))
    }
}
