//! A table whose changes are kept together, until they are settled.
ghost use Rattle.std.specs.Prelude.{◌≡◌, true, false, None, Err, IfOk, OnOk, OnErr, IsSome, IfSome, IfNone};
ghost use Rattle.std.specs.Option.{option_map};
ghost use Rattle.ipam_keeper.specs.Rows.{Ascend, row_with};
ghost use Rattle.ipam_keeper.specs.Keeping.{IsTold, known_with, known_without, SettlesOrNot};
ghost use Rattle.ipam_table.specs.TableState.{rows_of, sure_of, after_look};
ghost use Rattle.ipam_table.specs.Faults.{OnCause, OnNoMemory, StaysOut};
ghost use Rattle.ipam_table.specs.Order.{is_fit, is_left_fit, IsFit, IsFresh, IsSureUnlessUnsettled, IsWithin};

use crate::fault::TableFault;
use crate::table::Table;
use ipam_keeper::Row;

/// A table that puts its changes into the files together, with a settling. Before that a crash, a kill or a drop takes
/// back all of them.
pub(crate) struct Batch<T: Table> {
    pub(crate) table: T,
    /// Whether it took changes since the last settling.
    pub(crate) has_unsettled: bool,
    /// Why it is out of order, if it is: changes that it took are lost, or a settling failed. Then the table is let go.
    pub(crate) out: Option<T::Cause>,
    ghost fit: { IsFit out has_unsettled (T.state table) },
    ghost sure: { IsSureUnlessUnsettled out has_unsettled (T.state table) },
}

impl<T: Table + Drop> Drop for Batch<T> {
    fn drop(self) {
        let Batch {
            table: _,
            has_unsettled: _,
            out: _,
        } = self;
    }
}

impl<T: Table> Batch<T> {
    pub(crate) fn new(table: T) -> Batch<T>
        requires { IsFresh (T.state table) }
        ensures table { result.table ≡ table }
        ensures in_order { result.out ≡ None }
    {
        Batch {
            table,
            has_unsettled: false,
            out: None,
        }
    }

    /// All rows, also those that are not settled.
    pub(crate) fn load(&mut self) -> Result<Vec<Row>, TableFault<T::Cause>>
        ensures ascending { IfOk result (λ loaded. Ascend loaded.items) }
        ensures told { IfOk result (λ loaded. IsTold (rows_of (T.state self.old.table)) loaded.items) }
        ensures kept { rows_of (T.state self.new.table) ≡ rows_of (T.state self.old.table) }
        ensures settled { sure_of (T.state self.new.table) ≡ sure_of (T.state self.old.table) }
        ensures once_out { StaysOut self.old.out result self.new.out }
    {
        if let Some(cause) = self.out {
            return Err(TableFault::Failed(cause));
        }
        match self.table.load() {
            Ok(loaded) => Ok(loaded),
            Err(fault) => {
                self.out = lost_by(&mut self.table, self.has_unsettled, fault);
                Err(weighed(self.out, fault))
            }
        }
    }

    /// Puts in a row, in place of the one of its key if there is one.
    pub(crate) fn put(
        &mut self,
        key: &str,
        revision: u64,
        body: &str,
    ) -> Result<(), TableFault<T::Cause>>
        ensures done { OnOk result (rows_of (T.state self.new.table)
            ≡ known_with (row_with key.now revision body.now) (rows_of (T.state self.old.table))) }
        ensures undone { OnErr result (rows_of (T.state self.new.table) ≡ rows_of (T.state self.old.table)) }
        ensures settled { sure_of (T.state self.new.table) ≡ sure_of (T.state self.old.table) }
        ensures once_out { StaysOut self.old.out result self.new.out }
    {
        self.begin()?;
        match self.table.put(key, revision, body) {
            Ok(()) => {
                self.has_unsettled = true;
                Ok(())
            }
            Err(fault) => {
                self.out = lost_by(&mut self.table, self.has_unsettled, fault);
                Err(weighed(self.out, fault))
            }
        }
    }

    /// Takes out the row of a key, if there is one.
    pub(crate) fn remove(&mut self, key: &str) -> Result<(), TableFault<T::Cause>>
        ensures done { OnOk result (rows_of (T.state self.new.table)
            ≡ known_without key.now (rows_of (T.state self.old.table))) }
        ensures undone { OnErr result (rows_of (T.state self.new.table) ≡ rows_of (T.state self.old.table)) }
        ensures settled { sure_of (T.state self.new.table) ≡ sure_of (T.state self.old.table) }
        ensures once_out { StaysOut self.old.out result self.new.out }
    {
        self.begin()?;
        match self.table.remove(key) {
            Ok(()) => {
                self.has_unsettled = true;
                Ok(())
            }
            Err(fault) => {
                self.out = lost_by(&mut self.table, self.has_unsettled, fault);
                Err(weighed(self.out, fault))
            }
        }
    }

    /// Puts all changes into the files that it took since the last settling. One that fails leaves it out of order,
    /// unless there was no memory and the changes still wait.
    pub(crate) fn settle(&mut self) -> Result<(), TableFault<T::Cause>>
        ensures done { OnOk result (sure_of (T.state self.new.table) ≡ rows_of (T.state self.new.table)) }
        ensures kept { rows_of (T.state self.new.table) ≡ rows_of (T.state self.old.table) }
        ensures unchanged { OnNoMemory result (sure_of (T.state self.new.table) ≡ sure_of (T.state self.old.table)) }
        ensures settled { SettlesOrNot (sure_of (T.state self.old.table)) (sure_of (T.state self.new.table)) (rows_of (T.state self.new.table)) }
        ensures breaks { OnCause result (IsSome self.new.out) }
        ensures once_out { StaysOut self.old.out result self.new.out }
    {
        if let Some(cause) = self.out {
            return Err(TableFault::Failed(cause));
        }
        if !self.has_unsettled {
            return Ok(());
        }
        match commit_watched(&mut self.table) {
            Ok(()) => {
                self.has_unsettled = false;
                Ok(())
            }
            Err(fault) => {
                self.out = broken_by(&mut self.table, fault);
                Err(weighed(self.out, fault))
            }
        }
    }

    /// Begins a transaction, unless one is under way.
    fn begin(&mut self) -> Result<(), TableFault<T::Cause>>
        ensures begun { OnOk result (IsWithin (T.state self.new.table)) }
        ensures in_order { OnOk result ((self.old.out ≡ None) × (self.new.out ≡ None)) }
        ensures kept { rows_of (T.state self.new.table) ≡ rows_of (T.state self.old.table) }
        ensures settled { sure_of (T.state self.new.table) ≡ sure_of (T.state self.old.table) }
        ensures once_out { StaysOut self.old.out result self.new.out }
    {
        if let Some(cause) = self.out {
            return Err(TableFault::Failed(cause));
        }
        if self.table.is_alone() {
            self.table.begin()?;
        }
        Ok(())
    }
}

/// Puts what waits into the files. They have to be in place before it, so that nothing is written into files that are
/// gone, and after it, so that no such write is answered as done.
fn commit_watched<T: Table>(table: &mut T) -> Result<(), TableFault<T::Cause>>
    requires { is_fit true (T.state table.old) ≡ true }
    ensures done { OnOk result (sure_of (T.state table.new) ≡ rows_of (T.state table.new)) }
    ensures over { OnOk result (is_fit false (T.state table.new) ≡ true) }
    ensures kept { rows_of (T.state table.new) ≡ rows_of (T.state table.old) }
    ensures settled { SettlesOrNot (sure_of (T.state table.old)) (sure_of (T.state table.new)) (rows_of (T.state table.new)) }
    ensures memory { OnNoMemory result (is_left_fit true (T.state table.new) ≡ true) }
    ensures unchanged { OnNoMemory result (sure_of (T.state table.new) ≡ sure_of (T.state table.old)) }
{
    look(table)?;
    table.commit()?;
    look(table)
}

/// Looks whether the files are in place.
pub(crate) fn look<T: Table>(table: &mut T) -> Result<(), TableFault<T::Cause>>
    ensures done { OnOk result (T.state table.new ≡ option_map after_look (T.state table.old)) }
    ensures failed { OnErr result (T.state table.new ≡ T.state table.old) }
    ensures cause { OnNoMemory result ⊥ }
{
    match table.look() {
        Ok(()) => Ok(()),
        Err(cause) => Err(TableFault::Failed(cause)),
    }
}

/// Why changes that wait for their settling are lost, if they are so once a statement failed. A statement that finds no
/// memory, no room or no disk takes back the whole transaction that it is in, and so does a load. Then the table is
/// let go.
fn lost_by<T: Table>(
    table: &mut T,
    has_unsettled: bool,
    fault: TableFault<T::Cause>,
) -> Option<T::Cause>
    requires { is_left_fit has_unsettled (T.state table.old) ≡ true }
    ensures fit { IsFit result has_unsettled (T.state table.new) }
    ensures kept { rows_of (T.state table.new) ≡ rows_of (T.state table.old) }
    ensures settled { sure_of (T.state table.new) ≡ sure_of (T.state table.old) }
{
    if !has_unsettled || !table.is_alone() {
        return None;
    }
    table.let_go();
    Some(cause_of::<T>(fault))
}

/// Why no later call may be made, if none may, once a settling failed. Then the table is let go.
fn broken_by<T: Table>(table: &mut T, fault: TableFault<T::Cause>) -> Option<T::Cause>
    requires { OnNoMemory {V = Unit {0}} (Err fault) (is_left_fit true (T.state table.old) ≡ true) }
    ensures fit { IsFit result true (T.state table.new) }
    ensures cause { IfNone result (fault ≡ TableFault.Memory) }
    ensures kept { rows_of (T.state table.new) ≡ rows_of (T.state table.old) }
    ensures settled { sure_of (T.state table.new) ≡ sure_of (T.state table.old) }
{
    match fault {
        TableFault::Memory => lost_by(table, true, fault),
        TableFault::Failed(cause) => {
            table.let_go();
            Some(cause)
        }
    }
}

/// The cause where something is lost.
fn cause_of<T: Table>(fault: TableFault<T::Cause>) -> T::Cause {
    match fault {
        TableFault::Memory => T::no_memory(),
        TableFault::Failed(cause) => cause,
    }
}

/// The answer to a failure. It is want of memory only where nothing is lost by it.
fn weighed<C: Copy>(out: Option<C>, fault: TableFault<C>) -> TableFault<C>
    ensures lost { IfSome out (λ cause. result ≡ TableFault.Failed cause) }
    ensures kept { IfNone out (result ≡ fault) }
{
    match out {
        Some(cause) => TableFault::Failed(cause),
        None => fault,
    }
}
