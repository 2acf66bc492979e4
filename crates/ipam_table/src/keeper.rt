//! The keeper over a table.
ghost use Rattle.std.specs.Prelude.{◌≡◌, IfOk};
ghost use Rattle.ipam_table.specs.Faults.{rows_in, sure_in, IsOutIn};
ghost use Rattle.ipam_table.specs.Order.{IsFresh};

use crate::batch::Batch;
use crate::fault::TableFault;
use crate::table::Table;
use crate::tally::Tally;
use ipam_keeper::{KeepFault, Keeper, Row};

/// A keeper over a table that puts its changes into the files together, with a settling.
///
/// Each refusal but want of memory is a fault. Before and after a settling puts something into the files it looks
/// whether they are in place. Once a settling failed, and once a call failed that took back changes that waited for
/// their settling, this call and all later ones fail. Such a call is a fault also where what it wanted was memory.
pub struct TableKeeper<T: Table> {
    /// Where the table was not opened, what each call answers.
    batch: Result<Batch<T>, TableFault<T::Cause>>,
    tally: Tally<T::Cause>,
}

impl<T: Table + Drop> Drop for TableKeeper<T> {
    fn drop(self) {
        let TableKeeper {
            batch: _,
            tally: Tally { faults: _, why: _ },
        } = self;
    }
}

impl<T: Table> TableKeeper<T> {
    /// A keeper over a table that was just opened. Where it was not, each call answers why.
    pub fn over(table: Result<T, TableFault<T::Cause>>) -> TableKeeper<T>
        requires { IfOk table (λ opened. IsFresh (T.state opened)) }
        ensures rows { ⟦<TableKeeper<T> as Keeper>⟧.rows result ≡ rows_in T.state table }
        ensures settled { ⟦<TableKeeper<T> as Keeper>⟧.settled result ≡ sure_in T.state table }
        ensures faults { ⟦<TableKeeper<T> as Keeper>⟧.faults result ≡ 0 }
    {
        let why = match &table {
            Err(TableFault::Failed(cause)) => Some(*cause),
            _ => None,
        };
        let batch = match table {
            Ok(table) => Ok(Batch::new(table)),
            Err(fault) => Err(fault),
        };
        TableKeeper {
            batch,
            tally: Tally { faults: 0, why },
        }
    }

    /// Why the table was not opened, or why the last call that failed did so. No contract speaks of it.
    pub fn why(&self) -> Option<T::Cause> {
        self.tally.why
    }
}

impl<T: Table> Keeper for TableKeeper<T> {
    ghost rows = { λ keeper. rows_in (λ batch. T.state batch.table) keeper.batch };

    ghost settled = { λ keeper. sure_in (λ batch. T.state batch.table) keeper.batch };

    ghost broken = { λ keeper. IsOutIn (λ batch. batch.out) keeper.batch };

    ghost faults = { λ keeper. keeper.tally.faults };

    ghost name = { λ _. 0 };

    ghost given = { λ before change after. Unit {0} };

    fn load(&mut self) -> Result<Vec<Row>, KeepFault> {
        let answer = match &mut self.batch {
            Ok(batch) => batch.load(),
            Err(fault) => Err(*fault),
        };
        self.tally.counted(answer)
    }

    fn put(&mut self, key: &str, revision: u64, body: &str) -> Result<(), KeepFault> {
        let answer = match &mut self.batch {
            Ok(batch) => batch.put(key, revision, body),
            Err(fault) => Err(*fault),
        };
        self.tally.counted(answer)
    }

    fn remove(&mut self, key: &str) -> Result<(), KeepFault> {
        let answer = match &mut self.batch {
            Ok(batch) => batch.remove(key),
            Err(fault) => Err(*fault),
        };
        self.tally.counted(answer)
    }

    fn settle(&mut self) -> Result<(), KeepFault> {
        let answer = match &mut self.batch {
            Ok(batch) => batch.settle(),
            Err(fault) => Err(*fault),
        };
        self.tally.counted(answer)
    }
}
