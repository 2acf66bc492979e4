//! A page of rows is read.
ghost use Rattle.std.specs.Prelude.{◌≡◌, ◌<◌, ◌≤◌, Some, IfOk, length, vec_len, true};
ghost use Rattle.serde_json.specs.View.{items_view, view};
ghost use Rattle.ipam_json.specs.Members.{only_if};
ghost use Rattle.ipam_records.specs.Datastore.{most_rows};
ghost use Rattle.ipam_operator.specs.Page.{fits, more_at, more_of, page_in, page_of_line, page_told, rows_with};

use crate::answer::json_of_line;
use crate::row::row_of;
use ipam_json::items_at;
use ipam_records::{MOST_ROWS, Row};
use ipam_words::RowKind;
use serde_json::Value;
use std::alloc::{AllocError, Global};

/// Appends the rows of the page that the line is, and answers whether there are more. None where the line
/// is no page of rows of the kind that stand behind these.
#[tactic(auto, unfolding(crate::specs::Page::page_of_line))]
pub(crate) fn read_page(
    alloc: Global,
    kind: RowKind,
    rows: &mut Vec<Row>,
    line: &[u8],
) -> Result<Option<bool>, AllocError>
    ensures page { IfOk result (λ found. page_told rows.new.items found ≡ page_of_line kind rows.old.items line.now) }
    ensures more { IfOk result (λ found. found ≡ Some true
        → (vec_len rows.old < vec_len rows.new) × (vec_len rows.new ≤ most_rows)) }
{
    match json_of_line(alloc, line)? {
        Some(json) => page_in(alloc, kind, rows, &json),
        None => Ok(None),
    }
}

#[tactic(auto, unfolding(crate::specs::Page::page_in))]
fn page_in(
    alloc: Global,
    kind: RowKind,
    rows: &mut Vec<Row>,
    json: &Value,
) -> Result<Option<bool>, AllocError>
    ensures page { IfOk result (λ found. page_told rows.new.items found ≡ page_in kind rows.old.items (view json.now)) }
    ensures more { IfOk result (λ found. found ≡ Some true
        → (vec_len rows.old < vec_len rows.new) × (vec_len rows.new ≤ most_rows)) }
{
    let Some(items) = items_at(json, "rows") else {
        return Ok(None);
    };
    let before = rows.len();
    if !push_rows(alloc, kind, rows, items)? {
        return Ok(None);
    }
    Ok(more_of(json, before, rows.len()))
}

/// Appends the rows that the items are. False where one is no next row of the kind.
fn push_rows(
    alloc: Global,
    kind: RowKind,
    rows: &mut Vec<Row>,
    items: &[Value],
) -> Result<bool, AllocError>
    ensures { IfOk result (λ all. only_if all rows.new.items ≡ rows_with kind rows.old.items (items_view items.now)) }
{
    for item in items {
        match row_of(alloc, kind, rows.as_slice(), item)? {
            Some(row) => rows.push(row)?,
            None => return Ok(false),
        }
    }
    Ok(true)
}

/// Whether there are more rows than those of the page, with which there are this many. None where the
/// member is no truth value, where there are too many rows, or where more are to come and none came.
#[tactic(auto, unfolding(crate::specs::Page::more_of))]
fn more_of(json: &Value, before: usize, after: usize) -> Option<bool>
    ensures value { result ≡ more_of (view json.now) before after }
    ensures more { result ≡ Some true → (before < after) × (after ≤ most_rows) }
{
    let more = more_at(json)?;
    if fits(before, after, more) {
        Some(more)
    } else {
        None
    }
}

fn more_at(json: &Value) -> Option<bool>
    ensures { result ≡ more_at (view json.now) }
{
    match json.get("more") {
        Some(value) => value.as_bool(),
        None => Some(false),
    }
}

fn fits(before: usize, after: usize, more: bool) -> bool
    ensures { result ≡ fits before after more }
{
    after <= MOST_ROWS && (!more || before < after)
}
