//! `show`: the pools are shown.
ghost use Rattle.std.specs.Prelude.{◌≡◌, ◌<◌, ◌≤◌, ◌^◌, [], ◌∷◌, ◌++◌, All, length, IfOk, OnOk, string_bytes};
ghost use Rattle.ipam_records.specs.Datastore.{most_blocks};
ghost use Rattle.ipam_show.specs.Kept.{blocks_kept};
ghost use Rattle.ipam_show.specs.Left.{IsOfSlots};
ghost use Rattle.ipam_show.specs.Pools.{pool_head, pool_row, pool_rows, pools_text, pools_total};

use crate::cells::{add_row, addresses_cell, cidr_cell, percent_cell};
use crate::counting::{BlockCount, counts_kept};
use crate::keeping::pools_kept;
use crate::left::{left_cell, use_word};
use crate::sums::{Amount, Scope, amount_sum, block_sum};
use crate::tables::table_text;
use ipam_pool::Pool;
use ipam_store::Store;
use ipam_text::{Seq, Text};
use itoa::Buffer;
use std::alloc::{AllocError, Global};

/// How many columns the table of pools has.
const COLUMNS: usize = 9;

/// The pools in a table, a line each, and what they come to: what an ADD may use them for, how many addresses are used,
/// how many could still be given in the blocks that are there, how many blocks can still be taken, and how many there
/// are.
#[tactic(auto, unfolding(crate::specs::Pools::pools_text))]
pub fn show_pools(alloc: Global, store: &Store) -> Result<String, AllocError>
    requires few { length (blocks_kept store.now.store) ≤ most_blocks }
    ensures { IfOk result (λ text. string_bytes text ≡ pools_text store.now.store) }
{
    let counts = counts_kept(alloc, store)?;
    let rows = pool_rows(alloc, &counts, pools_kept(store))?;
    table_text(alloc, COLUMNS, &rows)
}

fn pool_rows(
    alloc: Global,
    counts: &[BlockCount],
    pools: &[Pool],
) -> Result<Vec<Seq<Text>>, AllocError>
    requires few { length counts.now < 2 ^ 32 }
    requires slots { All IsOfSlots pools.now }
    ensures { IfOk result (λ rows. rows.items ≡ pool_rows counts.now pools.now) }
{
    let mut rows = Vec::new(alloc);
    add_pool_head(alloc, &mut rows)?;
    for pool in pools {
        add_pool_row(alloc, &mut rows, counts, pool)?;
    }
    add_pools_total(alloc, &mut rows, counts)?;
    Ok(rows)
}

fn add_pool_head(alloc: Global, rows: &mut Vec<Seq<Text>>) -> Result<(), AllocError>
    ensures { OnOk result (rows.new.items ≡ rows.old.items ++ pool_head ∷ []) }
{
    let words = [
        "CIDR",
        "NAME",
        "USE",
        "ADDRESSES",
        "USED",
        "FREE IN BLOCKS",
        "PERCENT USED",
        "BLOCKS LEFT",
        "BLOCKS",
    ];
    add_row(alloc, rows, &words)
}

#[tactic(auto, unfolding(crate::specs::Pools::pool_row))]
fn add_pool_row(
    alloc: Global,
    rows: &mut Vec<Seq<Text>>,
    counts: &[BlockCount],
    pool: &Pool,
) -> Result<(), AllocError>
    requires few { length counts.now < 2 ^ 32 }
    requires slots { IsOfSlots pool.now }
    ensures { OnOk result (rows.new.items ≡ rows.old.items ++ pool_row counts.now pool.now ∷ []) }
{
    let scope = Scope::Pool(pool.cidr);
    let sum = amount_sum(Amount::Used, &scope, counts);
    let mut used = Buffer::new();
    let mut free = Buffer::new();
    let mut blocks = Buffer::new();
    let cidr = cidr_cell(alloc, pool.cidr)?;
    let addresses = addresses_cell(alloc, pool.cidr)?;
    let percent = percent_cell(alloc, sum, pool.cidr)?;
    let left = left_cell(alloc, counts, pool)?;
    let words = [
        cidr.as_str(),
        pool.name.as_str(),
        use_word(pool),
        addresses.as_str(),
        used.format(sum),
        free.format(amount_sum(Amount::Free, &scope, counts)),
        percent.as_str(),
        left.as_str(),
        blocks.format(block_sum(&scope, counts)),
    ];
    add_row(alloc, rows, &words)
}

#[tactic(auto, unfolding(crate::specs::Pools::pools_total))]
fn add_pools_total(
    alloc: Global,
    rows: &mut Vec<Seq<Text>>,
    counts: &[BlockCount],
) -> Result<(), AllocError>
    requires { length counts.now < 2 ^ 32 }
    ensures { OnOk result (rows.new.items ≡ rows.old.items ++ pools_total counts.now ∷ []) }
{
    let mut used = Buffer::new();
    let mut free = Buffer::new();
    let mut blocks = Buffer::new();
    let words = [
        "total",
        "",
        "",
        "",
        used.format(amount_sum(Amount::Used, &Scope::All, counts)),
        free.format(amount_sum(Amount::Free, &Scope::All, counts)),
        "",
        "",
        blocks.format(block_sum(&Scope::All, counts)),
    ];
    add_row(alloc, rows, &words)
}
