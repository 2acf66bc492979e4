//! Changes that are in the files at once.
ghost use Rattle.std.specs.Prelude.{◌≡◌, OnOk, OnErr};
ghost use Rattle.ipam_keeper.specs.Rows.{row_with};
ghost use Rattle.ipam_keeper.specs.Keeping.{known_with, known_without, IsOldOrNew};
ghost use Rattle.ipam_table.specs.TableState.{rows_of, sure_of};
ghost use Rattle.ipam_table.specs.Faults.{OnNoMemory};
ghost use Rattle.ipam_table.specs.Order.{IsOutside};

use crate::batch::look;
use crate::fault::TableFault;
use crate::table::Table;

/// Puts in a row, in place of the one of its key if there is one. The files have to be in place before it, so that
/// nothing is written into files that are gone, and after it, so that no such write is answered as done.
pub fn put_at_once<T: Table>(
    table: &mut T,
    key: &str,
    revision: u64,
    body: &str,
) -> Result<(), TableFault<T::Cause>>
    requires { IsOutside (T.state table.old) }
    ensures done { OnOk result (rows_of (T.state table.new)
        ≡ known_with (row_with key.now revision body.now) (rows_of (T.state table.old))) }
    ensures sure { OnOk result (sure_of (T.state table.new) ≡ rows_of (T.state table.new)) }
    ensures old_or_new { OnErr result (IsOldOrNew (rows_of (T.state table.old))
        (known_with (row_with key.now revision body.now) (rows_of (T.state table.old))) (rows_of (T.state table.new))) }
    ensures unchanged { OnNoMemory result (rows_of (T.state table.new) ≡ rows_of (T.state table.old)) }
{
    look(table)?;
    table.put(key, revision, body)?;
    look(table)
}

/// Takes out the row of a key, if there is one. The files have to be in place before it and after it.
pub fn remove_at_once<T: Table>(table: &mut T, key: &str) -> Result<(), TableFault<T::Cause>>
    requires { IsOutside (T.state table.old) }
    ensures done { OnOk result (rows_of (T.state table.new) ≡ known_without key.now (rows_of (T.state table.old))) }
    ensures sure { OnOk result (sure_of (T.state table.new) ≡ rows_of (T.state table.new)) }
    ensures old_or_new { OnErr result (IsOldOrNew (rows_of (T.state table.old))
        (known_without key.now (rows_of (T.state table.old))) (rows_of (T.state table.new))) }
    ensures unchanged { OnNoMemory result (rows_of (T.state table.new) ≡ rows_of (T.state table.old)) }
{
    look(table)?;
    table.remove(key)?;
    look(table)
}
