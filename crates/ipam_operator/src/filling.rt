//! A new database is filled.
ghost use Rattle.std.specs.Prelude.{◌≡◌, OnOk};
ghost use Rattle.ipam_io.specs.Counts.{Rose};
ghost use Rattle.ipam_keeper.specs.Keeping.{OnFailed, UnlessFailed};
ghost use Rattle.ipam_operator.specs.Filling.{filled};

use crate::target::Target;
use ipam_keeper::KeepFault;
use ipam_records::Row;

/// Puts all rows into the database, makes sure of them at once, and closes it. On `Err` some of them may be in it.
pub(crate) fn fill<D: Target>(target: &mut D, rows: &[Row]) -> Result<(), KeepFault>
    ensures filled { OnOk result (D.rows target.new ≡ filled rows.now (D.rows target.old)) }
    ensures settled { OnOk result (D.settled target.new ≡ D.rows target.new) }
    ensures closed { OnOk result (D.closed target.new) }
    ensures fault { OnFailed result (Rose (D.faults target.old) (D.faults target.new)) }
    ensures no_fault { UnlessFailed result (D.faults target.new ≡ D.faults target.old) }
{
    match put_all(target, rows) {
        Ok(()) => settle(target),
        Err(fault) => Err(fault),
    }
}

/// Makes sure of all rows at once, and closes the database. On `Err` it may be open or closed.
fn settle<D: Target>(target: &mut D) -> Result<(), KeepFault>
    ensures same_rows { D.rows target.new ≡ D.rows target.old }
    ensures settled { OnOk result (D.settled target.new ≡ D.rows target.new) }
    ensures closed { OnOk result (D.closed target.new) }
    ensures fault { OnFailed result (Rose (D.faults target.old) (D.faults target.new)) }
    ensures no_fault { UnlessFailed result (D.faults target.new ≡ D.faults target.old) }
{
    match target.settle() {
        Ok(()) => target.close(),
        Err(fault) => Err(fault),
    }
}

fn put_all<D: Target>(target: &mut D, rows: &[Row]) -> Result<(), KeepFault>
    ensures filled { OnOk result (D.rows target.new ≡ filled rows.now (D.rows target.old)) }
    ensures fault { OnFailed result (Rose (D.faults target.old) (D.faults target.new)) }
    ensures no_fault { UnlessFailed result (D.faults target.new ≡ D.faults target.old) }
{
    for row in rows {
        match target.put(row.key.as_str(), row.revision, row.body.as_str()) {
            Ok(()) => {}
            Err(fault) => return Err(fault),
        }
    }
    Ok(())
}
