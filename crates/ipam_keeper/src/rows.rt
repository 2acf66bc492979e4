//! Rows in a vector, by ascending key.
ghost use Rattle.std.specs.Prelude.{◌≡◌, ◌∷◌, IfOk, IfErr, OnOk, OnErr};
ghost use Rattle.ipam_keeper.specs.Rows.{Ascend, row_with, rows_with, rows_without};
ghost use Rattle.ipam_keeper.specs.Places.{IsPlace, IsGap};

use ipam_records::Row;
use ipam_text::Text;
use std::alloc::{AllocError, Global};

/// Where the row of the key is, or where it would go.
fn place(rows: &[Row], key: &str) -> Result<usize, usize>
    requires { Ascend rows.now }
    ensures found { IfOk result (IsPlace rows.now key.now) }
    ensures absent { IfErr result (IsGap rows.now key.now) }
{
    rows.binary_search_by(|row| row.key.as_str().cmp(&key))
}

fn new_row(alloc: Global, key: &str, revision: u64, body: &str) -> Result<Row, AllocError>
    ensures { IfOk result (λ row. row ≡ row_with key.now revision body.now) }
{
    Ok(Row {
        key: Text::copied(alloc, key)?,
        revision,
        body: Text::copied(alloc, body)?,
    })
}

/// Puts in a row, in place of the one of its key if there is one. On `Err` nothing has changed.
pub(crate) fn put(
    rows: &mut Vec<Row>,
    key: &str,
    revision: u64,
    body: &str,
) -> Result<(), AllocError>
    requires { Ascend rows.old.items }
    ensures ok { OnOk result
        (rows.new.items ≡ rows_with (row_with key.now revision body.now) rows.old.items) }
    ensures err { OnErr result (rows.new.items ≡ rows.old.items) }
    ensures ascend { Ascend rows.new.items }
{
    let row = new_row(*rows.allocator(), key, revision, body)?;
    match place(rows, key) {
        Ok(place) => rows[place] = row,
        Err(place) => rows.insert(place, row)?,
    }
    Ok(())
}

/// Takes out the row of the key, if there is one.
pub(crate) fn remove(rows: &mut Vec<Row>, key: &str)
    requires { Ascend rows.old.items }
    ensures rows { rows.new.items ≡ rows_without key.now rows.old.items }
    ensures ascend { Ascend rows.new.items }
{
    if let Ok(place) = place(rows, key) {
        rows.remove(place);
    }
}

/// A copy of the rows.
pub(crate) fn copied(alloc: Global, rows: &[Row]) -> Result<Vec<Row>, AllocError>
    ensures { IfOk result (λ copy. copy.items ≡ rows.now) }
{
    let mut copy = Vec::with_capacity(alloc, rows.len())?;
    for row in rows {
        copy.push(new_row(alloc, row.key.as_str(), row.revision, row.body.as_str())?)?;
    }
    Ok(copy)
}
