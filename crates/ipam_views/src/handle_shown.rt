//! `show handle`: the addresses of a handle are shown, and its counts that are too high.
ghost use Rattle.std.specs.Prelude.{◌≡◌, [], ◌∷◌, ◌++◌, IfOk, OnOk, string_bytes};
ghost use Rattle.ipam_views.specs.Handle.{handle_table, handle_text, high_head, high_row, high_rows, high_table};

use crate::handle_json::handle_json;
use crate::high_counts::{HighCount, high_counts};
use ipam_show::{add_row, cidr_cell, show_addresses, table_text};
use ipam_store::Store;
use ipam_text::{Seq, Text};
use ipam_words::{Choice, Form};
use itoa::Buffer;
use std::alloc::{AllocError, Global};

/// How many columns the table of counts that are too high has.
const COLUMNS: usize = 3;

/// The addresses of the handle, and its counts of blocks that are higher than the addresses which it holds there: two
/// tables with an empty line between them, or one JSON object on a line of its own.
pub fn show_handle(
    alloc: Global,
    store: &Store,
    handle: &str,
    form: Form,
) -> Result<String, AllocError>
    ensures { IfOk result (λ text. string_bytes text ≡ handle_text handle.now form store.now.store) }
{
    let counts = high_counts(alloc, store, handle)?;
    match form {
        Form::Table => handle_table(alloc, store, handle, &counts),
        Form::Json => handle_json(alloc, store, handle, &counts),
    }
}

#[tactic(auto, unfolding(crate::specs::Handle::handle_table))]
fn handle_table(
    alloc: Global,
    store: &Store,
    handle: &str,
    counts: &[HighCount],
) -> Result<String, AllocError>
    ensures { IfOk result (λ text. string_bytes text ≡ handle_table handle.now store.now.store counts.now) }
{
    let high = high_table(alloc, counts)?;
    let mut text = show_addresses(alloc, store, &Choice::OfHandle(handle), Form::Table)?;
    text.push_str("\n")?;
    text.push_str(high.as_str())?;
    Ok(text)
}

#[tactic(auto, unfolding(crate::specs::Handle::high_table))]
fn high_table(alloc: Global, counts: &[HighCount]) -> Result<String, AllocError>
    ensures { IfOk result (λ text. string_bytes text ≡ high_table counts.now) }
{
    let rows = high_rows(alloc, counts)?;
    table_text(alloc, COLUMNS, &rows)
}

fn high_rows(alloc: Global, counts: &[HighCount]) -> Result<Vec<Seq<Text>>, AllocError>
    ensures { IfOk result (λ rows. rows.items ≡ high_rows counts.now) }
{
    let mut rows = Vec::new(alloc);
    add_high_head(alloc, &mut rows)?;
    for high in counts {
        add_high_row(alloc, &mut rows, high)?;
    }
    Ok(rows)
}

fn add_high_head(alloc: Global, rows: &mut Vec<Seq<Text>>) -> Result<(), AllocError>
    ensures { OnOk result (rows.new.items ≡ rows.old.items ++ high_head ∷ []) }
{
    add_row(alloc, rows, &["COUNT TOO HIGH IN", "COUNT", "IN USE"])
}

#[tactic(auto, unfolding(crate::specs::Handle::high_row))]
fn add_high_row(
    alloc: Global,
    rows: &mut Vec<Seq<Text>>,
    high: &HighCount,
) -> Result<(), AllocError>
    ensures { OnOk result (rows.new.items ≡ rows.old.items ++ high_row high.now ∷ []) }
{
    let mut count = Buffer::new();
    let mut in_use = Buffer::new();
    let block = cidr_cell(alloc, high.block)?;
    let words = [
        block.as_str(),
        count.format(high.count),
        in_use.format(high.in_use),
    ];
    add_row(alloc, rows, &words)
}
