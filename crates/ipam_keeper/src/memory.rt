//! A keeper in memory.
ghost use Rattle.std.specs.Prelude.{◌≡◌, ◌≤◌, ◌↔◌, [], false, Err, None, IsSome, IsErr, IsTrue, IfOk, OnOk};
ghost use Rattle.ipam_io.specs.Counts.{next_count};
ghost use Rattle.ipam_keeper.specs.Rows.{Ascend, row_with, rows_with, rows_without};
ghost use Rattle.ipam_keeper.specs.Keeping.{OnFailed, OnMemory, UnlessFailed};
ghost use Rattle.ipam_keeper.specs.MemoryState.{listed_of, listed_at, next_listed, next_is_unsettled, after_fault, after_write, after_settling, after_failed_settling};

use crate::keeper::{KeepFault, Keeper};
use crate::rows;
use ipam_records::Row;
use std::marker::Model;

/// A keeper that has its rows in memory, and fails at the calls that its lists name. Each row is sure at once.
#[derive(Drop)]
pub struct MemoryKeeper {
    rows: Vec<Row>,
    faults: u64,
    writes: u64,
    failing: Vec<(u64, bool)>,
    settlings: u64,
    unsettled: Vec<u64>,
    is_broken: bool,
}

impl Model for MemoryKeeper {
    ghost use Rattle.ipam_keeper.specs.MemoryState.{MemoryState};
    ghost use Rattle.ipam_keeper.specs.Rows.{Ascend};

    ghost Value = { MemoryState };

    ghost view = { λ keeper. record {
      rows = keeper.rows.items;
      faults = keeper.faults;
      writes = keeper.writes;
      failing = keeper.failing.items;
      settlings = keeper.settlings;
      unsettled = keeper.unsettled.items;
      is_broken = keeper.is_broken;
    } };

    ghost invariant = { λ keeper. Ascend keeper.rows.items };
}

impl MemoryKeeper {
    /// A keeper of these rows. Of its puts and removals, counted together from 1, those fail whose
    /// number is in `failing`, each with its change done where the flag beside the number is true
    /// (the first flag, where a number is there more than once). Where 0 is there, each load fails.
    ///
    /// A put that finds no memory is not counted.
    pub fn new(rows: Vec<Row>, failing: Vec<(u64, bool)>) -> MemoryKeeper
        requires { Ascend rows.items }
        ensures { result ≡ record {
          rows = rows.items;
          faults = 0;
          writes = 0;
          failing = failing.items;
          settlings = 0;
          unsettled = [];
          is_broken = false;
        } }
    {
        let alloc = *rows.allocator();
        MemoryKeeper {
            rows,
            faults: 0,
            writes: 0,
            failing,
            settlings: 0,
            unsettled: Vec::new(alloc),
            is_broken: false,
        }
    }

    /// The keeper, of whose settlings, counted from 1, those fail whose number is listed. Once one failed, each
    /// call fails and does nothing.
    pub fn failing_to_settle(self, listed: Vec<u64>) -> MemoryKeeper
        ensures { result ≡ record self { unsettled = listed.items } }
    {
        let mut keeper = self;
        keeper.unsettled = listed;
        keeper
    }

    /// What is to come of the call with this number: nothing that is listed, or whether its change is done.
    fn listed_at(&self, number: u64) -> Option<bool>
        ensures { result ≡ listed_at self.now number }
    {
        if self.is_broken {
            Some(false)
        } else {
            done_of(&self.failing, number)
        }
    }
}

impl Keeper for MemoryKeeper {
    ghost use Rattle.std.specs.Prelude.{Some};

    ghost rows = { λ keeper. Some keeper.rows };

    ghost settled = { λ keeper. Some keeper.rows };

    ghost broken = { λ keeper. IsTrue keeper.is_broken };

    ghost faults = { λ keeper. keeper.faults };

    ghost name = { λ _. 0 };

    ghost given = { λ before change after. after.writes ≡ next_count before.writes };

    fn load(&mut self) -> Result<Vec<Row>, KeepFault>
        ensures fails { (result ≡ Err KeepFault.Failed) ↔ IsSome (listed_at self.old 0) }
        ensures ascending { IfOk result (λ loaded. Ascend loaded.items) }
        ensures rows { IfOk result (λ loaded. loaded.items ≡ self.old.rows) }
        ensures after { UnlessFailed result (self.new ≡ self.old) }
        ensures after_fault { OnFailed result
            (self.new ≡ record self.old { faults = next_count self.old.faults }) }
        ensures never_falls { self.old.faults ≤ self.new.faults }
    {
        if self.listed_at(0).is_some() {
            return count_fault(&mut self.faults);
        }
        match rows::copied(*self.rows.allocator(), &self.rows) {
            Ok(copy) => Ok(copy),
            Err(_) => Err(KeepFault::Memory),
        }
    }

    fn put(&mut self, key: &str, revision: u64, body: &str) -> Result<(), KeepFault>
        ensures fails { OnFailed result (IsSome (next_listed self.old)) }
        ensures does { OnOk result (next_listed self.old ≡ None) }
        ensures broken { IsTrue self.old.is_broken → result ≡ Err KeepFault.Failed }
        ensures after { OnOk result (self.new ≡ after_write self.old
            (rows_with (row_with key.now revision body.now) self.old.rows)) }
        ensures after_fault { OnFailed result (self.new ≡ after_fault self.old
            (rows_with (row_with key.now revision body.now) self.old.rows)) }
        ensures unchanged { OnMemory result (self.new ≡ self.old) }
        ensures never_falls { self.old.faults ≤ self.new.faults }
    {
        let listed = self.listed_at(self.writes.saturating_add(1));
        if listed != Some(false) && rows::put(&mut self.rows, key, revision, body).is_err() {
            return Err(KeepFault::Memory);
        }
        self.writes = self.writes.saturating_add(1);
        match listed {
            None => Ok(()),
            Some(_) => count_fault(&mut self.faults),
        }
    }

    fn remove(&mut self, key: &str) -> Result<(), KeepFault>
        ensures fails { IsErr result ↔ IsSome (next_listed self.old) }
        ensures after { OnOk result (self.new ≡ after_write self.old
            (rows_without key.now self.old.rows)) }
        ensures after_fault { OnFailed result (self.new ≡ after_fault self.old
            (rows_without key.now self.old.rows)) }
        ensures takes_no_memory { OnMemory result ⊥ }
        ensures never_falls { self.old.faults ≤ self.new.faults }
    {
        let listed = self.listed_at(self.writes.saturating_add(1));
        if listed != Some(false) {
            rows::remove(&mut self.rows, key);
        }
        self.writes = self.writes.saturating_add(1);
        match listed {
            None => Ok(()),
            Some(_) => count_fault(&mut self.faults),
        }
    }

    fn settle(&mut self) -> Result<(), KeepFault>
        ensures fails { IsErr result ↔ IsTrue (next_is_unsettled self.old) }
        ensures after { OnOk result (self.new ≡ after_settling self.old) }
        ensures after_fault { OnFailed result (self.new ≡ after_failed_settling self.old) }
        ensures takes_no_memory { OnMemory result ⊥ }
        ensures never_falls { self.old.faults ≤ self.new.faults }
    {
        self.settlings = self.settlings.saturating_add(1);
        if self.is_broken || self.unsettled.contains(&self.settlings) {
            self.is_broken = true;
            return count_fault(&mut self.faults);
        }
        Ok(())
    }
}

/// What is listed of the call with this number: nothing, or whether its change is done.
fn done_of(failing: &[(u64, bool)], number: u64) -> Option<bool>
    ensures { result ≡ listed_of failing.now number }
{
    failing
        .iter()
        .find(|entry| entry.0 == number)
        .map(|entry| entry.1)
}

/// Counts a call that fails, and answers it.
fn count_fault<T>(faults: &mut u64) -> Result<T, KeepFault>
    ensures answer { result ≡ Err KeepFault.Failed }
    ensures counted { faults.new ≡ next_count faults.old }
{
    *faults = faults.saturating_add(1);
    Err(KeepFault::Failed)
}
