//! The rows of the table, read in order.
ghost use Rattle.std.specs.Prelude.{IfOk, IsTrue};
ghost use Rattle.ipam_keeper.specs.Rows.{Ascend};
ghost use Rattle.ipam_sqlite.specs.Order.{IsAboveAll};

use crate::fault::{StorageFault, Trouble};
use ipam_keeper::Row;
use ipam_text::Text;
use sqlite::{Alter, Connection, Rows};
use std::alloc::Global;

const LOAD: &str = "SELECT key, revision, body FROM rows ORDER BY key";

/// Reads all rows. It is a fault that a row is no text, whole number and text, that its
/// revision is negative, or that its key is not above the one before it.
pub(crate) fn load_rows<S: Alter>(
    conn: &mut Connection<S>,
    alloc: Global,
) -> Result<Vec<Row>, Trouble>
    ensures { IfOk result (λ loaded. Ascend loaded.items) }
{
    let mut loaded = Vec::new(alloc);
    let mut rows = match conn.query(LOAD, &[]) {
        Ok(rows) => rows,
        Err(error) => return Err(Trouble::from(error)),
    };
    'rows: for _ in 0..u64::MAX {
        match next_row(&mut rows) {
            Ok(Some(row)) => push_row(&mut loaded, row)?,
            Ok(None) => return Ok(loaded),
            Err(fault) => return Err(fault),
        }
    }
    Err(Trouble::Fault(StorageFault::BadRow))
}

fn next_row<S: Alter>(rows: &mut Rows<'_, S>) -> Result<Option<Row>, Trouble> {
    rows.advance()?;
    let Some(row) = rows.get() else {
        return Ok(None);
    };
    Ok(Some(Row {
        key: Text::of(row.get(0)?),
        revision: row.get(1)?,
        body: Text::of(row.get(2)?),
    }))
}

fn push_row(rows: &mut Vec<Row>, row: Row) -> Result<(), Trouble>
    requires { Ascend rows.old.items }
    ensures { Ascend rows.new.items }
{
    if !is_above_all(rows, &row) {
        return Err(Trouble::Fault(StorageFault::BadRow));
    }
    match rows.push(row) {
        Ok(()) => Ok(()),
        Err(_) => Err(Trouble::Memory),
    }
}

fn is_above_all(rows: &[Row], row: &Row) -> bool
    requires { Ascend rows.now }
    ensures { IsTrue result → IsAboveAll rows.now row.now }
{
    match rows.last() {
        Some(last) => last.key < row.key,
        None => true,
    }
}
