//! `show blocks`: the blocks are shown.
ghost use Rattle.std.specs.Prelude.{◌≡◌, ◌≤◌, [], ◌∷◌, ◌++◌, length, IfOk, OnOk, string_bytes};
ghost use Rattle.ipam_records.specs.Datastore.{most_blocks};
ghost use Rattle.ipam_show.specs.Blocks.{block_row, block_rows, blocks_text, borrowed_word, block_state, used_word};
ghost use Rattle.ipam_show.specs.Kept.{blocks_kept};

use crate::cells::{add_row, cidr_cell, node_word, state_word};
use crate::counting::{BlockCount, counts_kept};
use crate::keeping::state_kept;
use crate::tables::table_text;
use ipam_block::State;
use ipam_store::Store;
use ipam_text::{Seq, Text};
use itoa::Buffer;
use std::alloc::{AllocError, Global};

/// How many columns the table of blocks has.
const COLUMNS: usize = 5;

/// The blocks in a table, a line each: its node, the state of that node's affinity to it, how many of
/// its addresses are used, and how many of them another node uses.
#[tactic(auto, unfolding(crate::specs::Blocks::blocks_text))]
pub fn show_blocks(alloc: Global, store: &Store) -> Result<String, AllocError>
    requires few { length (blocks_kept store.now.store) ≤ most_blocks }
    ensures { IfOk result (λ text. string_bytes text ≡ blocks_text store.now.store) }
{
    let counts = counts_kept(alloc, store)?;
    let rows = block_rows(alloc, store, &counts)?;
    table_text(alloc, COLUMNS, &rows)
}

fn block_rows(
    alloc: Global,
    store: &Store,
    counts: &[BlockCount],
) -> Result<Vec<Seq<Text>>, AllocError>
    ensures { IfOk result (λ rows. rows.items ≡ block_rows store.now.store counts.now) }
{
    let mut rows = Vec::new(alloc);
    let head = ["BLOCK", "NODE", "STATE", "USED", "BORROWED"];
    add_row(alloc, &mut rows, &head)?;
    for count in counts {
        add_block_row(alloc, &mut rows, store, count)?;
    }
    Ok(rows)
}

fn add_block_row(
    alloc: Global,
    rows: &mut Vec<Seq<Text>>,
    store: &Store,
    count: &BlockCount,
) -> Result<(), AllocError>
    ensures { OnOk result (rows.new.items ≡ rows.old.items ++ block_row store.now.store count.now ∷ []) }
{
    let state = state_of(alloc, store, count)?;
    let cidr = cidr_cell(alloc, count.cidr)?;
    let used = used_cell(alloc, count)?;
    let borrowed = borrowed_cell(alloc, count)?;
    let words = [
        cidr.as_str(),
        node_word(&count.node),
        state_word(&state),
        used.as_str(),
        borrowed.as_str(),
    ];
    add_row(alloc, rows, &words)
}

/// The state of the affinity of the block's node to it, where there is one.
pub fn state_of(
    alloc: Global,
    store: &Store,
    count: &BlockCount,
) -> Result<Option<State>, AllocError>
    ensures { IfOk result (λ state. state ≡ block_state store.now.store count.now) }
{
    match &count.node {
        Some(node) => state_kept(alloc, store, node.as_str(), count.cidr),
        None => Ok(None),
    }
}

/// How many addresses are used, a slash, and how many there are.
#[tactic(auto, unfolding(crate::specs::Blocks::used_word))]
fn used_cell(alloc: Global, count: &BlockCount) -> Result<Text, AllocError>
    ensures { IfOk result (λ text. text ≡ used_word count.now) }
{
    let used = count.used;
    let size = count.size;
    Ok(Text::of(format!(in alloc; "{used}/{size}")?))
}

/// How many addresses another node uses. `-` where none of them is recorded with a node.
fn borrowed_cell(alloc: Global, count: &BlockCount) -> Result<Text, AllocError>
    ensures { IfOk result (λ text. text ≡ borrowed_word count.now) }
{
    if count.told == 0 {
        return Text::copied(alloc, "-");
    }
    let mut buffer = Buffer::new();
    Text::copied(alloc, buffer.format(count.borrowed))
}
