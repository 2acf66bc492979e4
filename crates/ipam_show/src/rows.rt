//! `get` and `get KIND`: the lines of rows.
ghost use Rattle.std.specs.Prelude.{◌≡◌, ◌++◌, IfOk, OnOk, string_bytes};
ghost use Rattle.ipam_show.specs.Rows.{is_told, row_line, rows_text};

use ipam_records::Row;
use ipam_words::RowKind;
use std::alloc::{AllocError, Global};

/// A line for each of the rows, or of those of the kind, in their order.
pub fn rows_text(alloc: Global, kind: Option<RowKind>, rows: &[Row]) -> Result<String, AllocError>
    ensures { IfOk result (λ text. string_bytes text ≡ rows_text kind rows.now) }
{
    let mut text = String::new(alloc);
    for row in rows {
        if is_told(kind, row.key.as_str()) {
            push_row(alloc, &mut text, row)?;
        }
    }
    Ok(text)
}

/// Whether a row with this key is shown.
fn is_told(kind: Option<RowKind>, key: &str) -> bool
    ensures { result ≡ is_told kind key.now }
{
    match kind {
        Some(kind) => kind.has(key),
        None => true,
    }
}

fn push_row(alloc: Global, text: &mut String, row: &Row) -> Result<(), AllocError>
    ensures { OnOk result (string_bytes text.new ≡ string_bytes text.old ++ row_line row.now) }
{
    let line = row_line(alloc, row)?;
    text.push_str(line.as_str())
}

#[tactic(auto, unfolding(crate::specs::Rows::row_line))]
fn row_line(alloc: Global, row: &Row) -> Result<String, AllocError>
    ensures { IfOk result (λ line. string_bytes line ≡ row_line row.now) }
{
    let key = row.key.as_str();
    let revision = row.revision;
    let body = row.body.as_str();
    format!(in alloc; "{key} {revision} {body}\n")
}
