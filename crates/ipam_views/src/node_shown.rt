//! `show node`: the blocks of a node are shown, and its addresses in blocks that are not its own.
ghost use Rattle.std.specs.Prelude.{◌≡◌, ◌<◌, ◌≤◌, ◌^◌, [], ◌∷◌, ◌++◌, length, IfOk, OnOk, string_bytes};
ghost use Rattle.ipam_records.specs.Datastore.{most_blocks};
ghost use Rattle.ipam_show.specs.Kept.{blocks_kept};
ghost use Rattle.ipam_views.specs.Node.{node_table, node_text, own_head, own_row, own_rows, own_table, own_total};

use crate::node_json::node_json;
use crate::own_counts::own_counts;
use ipam_show::{
    Amount, BlockCount, Scope, add_row, amount_sum, cidr_cell, show_addresses, state_of,
    state_word, table_text,
};
use ipam_store::Store;
use ipam_text::{Seq, Text};
use ipam_words::{Choice, Form};
use itoa::Buffer;
use std::alloc::{AllocError, Global};

/// How many columns the table of a node's blocks has.
const COLUMNS: usize = 5;

/// The blocks of the node, and its addresses in blocks that are not its own: two tables with an empty line between them,
/// or one JSON object on a line of its own. A block has the state of the node's affinity to it, and how many addresses
/// it has, how many of these are used, and how many could still be given.
pub fn show_node(alloc: Global, store: &Store, node: &str, form: Form) -> Result<String, AllocError>
    requires few { length (blocks_kept store.now.store) ≤ most_blocks }
    ensures { IfOk result (λ text. string_bytes text ≡ node_text node.now form store.now.store) }
{
    let counts = own_counts(alloc, store, node)?;
    match form {
        Form::Table => node_table(alloc, store, node, &counts),
        Form::Json => node_json(alloc, store, node, &counts),
    }
}

#[tactic(auto, unfolding(crate::specs::Node::node_table))]
fn node_table(
    alloc: Global,
    store: &Store,
    node: &str,
    counts: &[BlockCount],
) -> Result<String, AllocError>
    requires { length counts.now < 2 ^ 32 }
    ensures { IfOk result (λ text. string_bytes text ≡ node_table node.now store.now.store counts.now) }
{
    let others = show_addresses(alloc, store, &Choice::BorrowedBy(node), Form::Table)?;
    let mut text = own_table(alloc, store, counts)?;
    text.push_str("\n")?;
    text.push_str(others.as_str())?;
    Ok(text)
}

#[tactic(auto, unfolding(crate::specs::Node::own_table))]
fn own_table(alloc: Global, store: &Store, counts: &[BlockCount]) -> Result<String, AllocError>
    requires { length counts.now < 2 ^ 32 }
    ensures { IfOk result (λ text. string_bytes text ≡ own_table store.now.store counts.now) }
{
    let rows = own_rows(alloc, store, counts)?;
    table_text(alloc, COLUMNS, &rows)
}

fn own_rows(
    alloc: Global,
    store: &Store,
    counts: &[BlockCount],
) -> Result<Vec<Seq<Text>>, AllocError>
    requires { length counts.now < 2 ^ 32 }
    ensures { IfOk result (λ rows. rows.items ≡ own_rows store.now.store counts.now) }
{
    let mut rows = Vec::new(alloc);
    add_own_head(alloc, &mut rows)?;
    for count in counts {
        add_own_row(alloc, &mut rows, store, count)?;
    }
    add_own_total(alloc, &mut rows, counts)?;
    Ok(rows)
}

fn add_own_head(alloc: Global, rows: &mut Vec<Seq<Text>>) -> Result<(), AllocError>
    ensures { OnOk result (rows.new.items ≡ rows.old.items ++ own_head ∷ []) }
{
    add_row(
        alloc,
        rows,
        &["BLOCK", "STATE", "ADDRESSES", "USED", "FREE"],
    )
}

#[tactic(auto, unfolding(crate::specs::Node::own_row))]
fn add_own_row(
    alloc: Global,
    rows: &mut Vec<Seq<Text>>,
    store: &Store,
    count: &BlockCount,
) -> Result<(), AllocError>
    ensures { OnOk result (rows.new.items ≡ rows.old.items ++ own_row store.now.store count.now ∷ []) }
{
    let mut size = Buffer::new();
    let mut used = Buffer::new();
    let mut free = Buffer::new();
    let state = state_of(alloc, store, count)?;
    let cidr = cidr_cell(alloc, count.cidr)?;
    let words = [
        cidr.as_str(),
        state_word(&state),
        size.format(count.size),
        used.format(count.used),
        free.format(count.free),
    ];
    add_row(alloc, rows, &words)
}

#[tactic(auto, unfolding(crate::specs::Node::own_total))]
fn add_own_total(
    alloc: Global,
    rows: &mut Vec<Seq<Text>>,
    counts: &[BlockCount],
) -> Result<(), AllocError>
    requires { length counts.now < 2 ^ 32 }
    ensures { OnOk result (rows.new.items ≡ rows.old.items ++ own_total counts.now ∷ []) }
{
    let mut used = Buffer::new();
    let mut free = Buffer::new();
    let words = [
        "total",
        "",
        "",
        used.format(amount_sum(Amount::Used, &Scope::All, counts)),
        free.format(amount_sum(Amount::Free, &Scope::All, counts)),
    ];
    add_row(alloc, rows, &words)
}
