//! The keeper over a database that is opened at once.
ghost use Rattle.std.specs.Prelude.{◌≡◌};

use crate::fault::{StorageFault, Trouble};
use crate::opening::{Aim, open_database};
use crate::place::{Outcome, Place, Waiting, hold, open_in_turn};
use crate::table::SqliteTable;
use ipam_keeper::Keeper;
use ipam_table::{TableFault, TableKeeper};
use sqlite::{File, FileStore};

/// A keeper over the table of a database file, whose changes are on the disk once they are settled. The names of the file
/// and its log are looked at before and after that: where one of them no longer leads to the file that was opened, the
/// settling and all later calls fail.
pub type SqliteKeeper<S> = TableKeeper<SqliteTable<S>>;

/// Opens the file, or makes it with the mode 0640 and its table. The file is locked while the keeper is there, so a
/// second one on the same file is refused.
///
/// Where this finds no memory, each call answers `Memory`. Where it fails otherwise, each call counts a fault and
/// answers `Failed`, and `why` tells the cause.
pub fn open_keeper(rt: &HostRuntime, path: &str) -> SqliteKeeper<FileStore<File>>
    ensures { ⟦<SqliteKeeper<FileStore<File>> as Keeper>⟧.faults result ≡ 0 }
{
    keeper_over(open_database(rt, path, Aim::KeepAtSettle))
}

/// A keeper over the file at this path for a daemon at this address. It is opened in its turn. While the place is
/// kept, others see that a daemon has the file, and at which address.
pub fn open_served(
    rt: &HostRuntime,
    path: &str,
    address: &str,
    waiting: Waiting,
) -> (SqliteKeeper<FileStore<File>>, Place)
    ensures { ⟦<SqliteKeeper<FileStore<File>> as Keeper>⟧.faults result.0 ≡ 0 }
{
    let (opened, turn) = open_in_turn(rt, path, Aim::KeepAtSettle, waiting);
    let place = match &opened {
        Ok(Some(_)) => hold(rt, path, address),
        _ => Place::none(),
    };
    drop(turn);
    (keeper_over(opened), place)
}

fn keeper_over(opened: Outcome) -> SqliteKeeper<FileStore<File>>
    ensures { ⟦<SqliteKeeper<FileStore<File>> as Keeper>⟧.faults result ≡ 0 }
{
    let table = match opened {
        Ok(Some(table)) => Ok(table),
        Ok(None) => Err(TableFault::Failed(StorageFault::NoFile)),
        Err(trouble) => Err(TableFault::from(trouble)),
    };
    TableKeeper::over(table)
}
