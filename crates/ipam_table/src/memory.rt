//! A table in memory.
ghost use Rattle.std.specs.Prelude.{◌≡◌, [], false, Some, IfSome, IfNone, IsSome};
ghost use Rattle.ipam_table.specs.TableState.{changing, taking_back, IsKeptOrTakenBack};
ghost use Rattle.ipam_table.specs.Order.{IsFresh};

use crate::fault::TableFault;
use crate::table::Table;
use crate::transaction::Transaction;
use ipam_keeper::{KeepFault, Keeper, MemoryKeeper, Row};
use std::alloc::Global;

/// Why a call of a table in memory fails.
#[derive(Clone, Copy, Debug, PartialEq, Eq)]
pub enum MemoryCause {
    /// It was listed.
    Listed,
    /// Changes were lost because there was no memory.
    NoMemory,
    /// A transaction was under way, or none, or one was taken back, so that it was not to be asked.
    OutOfTurn,
}

/// A call that fails.
#[derive(Clone, Copy, Debug, PartialEq, Eq)]
pub struct FailingCall {
    /// Its number among the statements and looks, counted from 1.
    pub number: u64,
    pub fault: TableFault<MemoryCause>,
    /// Whether it takes back the transaction that is under way. A look and a beginning never do.
    pub takes_back: bool,
}

/// A table that has its rows in memory, and whose calls fail as listed. A listed call does nothing else.
#[derive(Drop)]
pub struct MemoryTable {
    kept: MemoryKeeper,
    sure: Vec<Row>,
    transaction: Transaction,
    is_seen: bool,
    calls: u64,
    failing: Vec<FailingCall>,
    ghost unlisted: { kept.failing ≡ [] },
    ghost whole: { kept.is_broken ≡ false },
}

impl MemoryTable {
    /// A table without rows, of whose calls those fail that are listed.
    pub fn new(alloc: Global, failing: Vec<FailingCall>) -> MemoryTable
        ensures { IsFresh (⟦<MemoryTable as Table>⟧.state result) }
    {
        MemoryTable {
            kept: MemoryKeeper::new(Vec::new(alloc), Vec::new(alloc)),
            sure: Vec::new(alloc),
            transaction: Transaction::Absent,
            is_seen: false,
            calls: 0,
            failing,
        }
    }

    /// Counts a call, and answers how it fails where it is listed.
    fn next_failing(&mut self) -> Option<FailingCall>
        ensures { ⟦<MemoryTable as Table>⟧.state self.new ≡ ⟦<MemoryTable as Table>⟧.state self.old }
    {
        self.calls = self.calls.saturating_add(1);
        let calls = self.calls;
        self.failing
            .iter()
            .find(|entry| entry.number == calls)
            .map(|entry| *entry)
    }

    /// Counts a statement, and answers why it fails where it is listed.
    fn next_fault(&mut self) -> Option<TableFault<MemoryCause>>
        ensures listed { IfSome result (λ fault. IsKeptOrTakenBack (⟦<MemoryTable as Table>⟧.state self.old) (⟦<MemoryTable as Table>⟧.state self.new)) }
        ensures unlisted { IfNone result (⟦<MemoryTable as Table>⟧.state self.new ≡ ⟦<MemoryTable as Table>⟧.state self.old) }
    {
        let failing = self.next_failing()?;
        if failing.takes_back {
            self.transaction = taken_back(self.transaction);
            self.is_seen = false;
        }
        Some(failing.fault)
    }
}

impl Table for MemoryTable {
    type Cause = MemoryCause;

    ghost state = { λ table. Some (record {
      rows = table.kept.rows;
      sure = table.sure.items;
      transaction = table.transaction;
      is_seen = table.is_seen;
    }) };

    fn no_memory() -> MemoryCause {
        MemoryCause::NoMemory
    }

    fn load(&mut self) -> Result<Vec<Row>, TableFault<MemoryCause>> {
        if let Some(fault) = self.next_fault() {
            return Err(fault);
        }
        if self.transaction == Transaction::TakenBack {
            return Err(TableFault::Failed(MemoryCause::OutOfTurn));
        }
        match self.kept.load() {
            Ok(rows) => Ok(rows),
            Err(fault) => Err(table_fault(fault)),
        }
    }

    fn put(&mut self, key: &str, revision: u64, body: &str) -> Result<(), TableFault<MemoryCause>> {
        if let Some(fault) = self.next_fault() {
            return Err(fault);
        }
        match self.kept.put(key, revision, body) {
            Ok(()) => {
                self.transaction = changed(self.transaction);
                self.is_seen = false;
                Ok(())
            }
            Err(fault) => Err(table_fault(fault)),
        }
    }

    fn remove(&mut self, key: &str) -> Result<(), TableFault<MemoryCause>> {
        if let Some(fault) = self.next_fault() {
            return Err(fault);
        }
        match self.kept.remove(key) {
            Ok(()) => {
                self.transaction = changed(self.transaction);
                self.is_seen = false;
                Ok(())
            }
            Err(fault) => Err(table_fault(fault)),
        }
    }

    fn is_alone(&self) -> bool {
        matches!(
            self.transaction,
            Transaction::Absent | Transaction::TakenBack
        )
    }

    fn begin(&mut self) -> Result<(), TableFault<MemoryCause>> {
        if let Some(failing) = self.next_failing() {
            return Err(failing.fault);
        }
        if self.transaction != Transaction::Absent {
            return Err(TableFault::Failed(MemoryCause::OutOfTurn));
        }
        self.transaction = Transaction::Begun;
        Ok(())
    }

    fn commit(&mut self) -> Result<(), TableFault<MemoryCause>> {
        if let Some(fault) = self.next_fault() {
            return Err(fault);
        }
        if self.is_alone() {
            return Err(TableFault::Failed(MemoryCause::OutOfTurn));
        }
        self.transaction = Transaction::Absent;
        self.is_seen = false;
        Ok(())
    }

    fn look(&mut self) -> Result<(), MemoryCause> {
        if self.next_failing().is_some() {
            return Err(MemoryCause::Listed);
        }
        if self.transaction == Transaction::Absent {
            match self.kept.load() {
                Ok(rows) => self.sure = rows,
                Err(_) => return Err(MemoryCause::NoMemory),
            }
        }
        self.is_seen = true;
        Ok(())
    }

    fn let_go(&mut self) {}
}

/// The transaction after a change.
fn changed(transaction: Transaction) -> Transaction
    ensures { result ≡ changing transaction }
{
    match transaction {
        Transaction::Begun => Transaction::Changed,
        _ => transaction,
    }
}

/// The transaction, where it is taken back.
fn taken_back(transaction: Transaction) -> Transaction
    ensures { result ≡ taking_back transaction }
{
    match transaction {
        Transaction::Begun => Transaction::Absent,
        Transaction::Changed => Transaction::TakenBack,
        Transaction::Absent | Transaction::TakenBack => transaction,
    }
}

fn table_fault(fault: KeepFault) -> TableFault<MemoryCause>
    ensures { fault ≡ KeepFault.Memory → result ≡ TableFault.Memory }
{
    match fault {
        KeepFault::Memory => TableFault::Memory,
        KeepFault::Failed => TableFault::Failed(MemoryCause::Listed),
    }
}
