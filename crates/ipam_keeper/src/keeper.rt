//! What a keeper of rows does.
ghost use Rattle.std.specs.Prelude.{◌≡◌, ℕ, ◌≤◌, List, Option, IfOk, OnOk};
ghost use Rattle.ipam_io.specs.Counts.{Rose};
ghost use Rattle.ipam_records.specs.declared.call.Row.{Row as KeptRow};
ghost use Rattle.ipam_keeper.specs.Rows.{Ascend, row_with};
ghost use Rattle.ipam_keeper.specs.Keeping.{KeeperChange, PutIn, TakeOut, IsTold, known_with, known_without, IsOldOrNew, SettlesOrNot, StaysBroken, OnFailed, OnMemory, UnlessFailed};

use ipam_records::Row;

/// Why a keeper did not do what it was asked.
#[derive(Clone, Copy, Debug, PartialEq, Eq)]
pub enum KeepFault {
    /// Its count of faults rose. A row that was put or removed is as it was or as it was to be.
    Failed,
    /// There was no memory, and nothing has changed.
    Memory,
}

/// What rows are kept in, one for each key.
///
/// A keeper may take a put or a removal and make sure of it later: only what a settling that went well came
/// after outlasts a crash of the process or the machine.
pub trait Keeper {
    /// The rows, where the keeper tells them.
    ghost rows: { Self → Option (List KeptRow) };

    /// The rows that are sure, where the keeper tells them: a crash leaves these, or the rows that a later
    /// call makes sure of.
    ghost settled: { Self → Option (List KeptRow) };

    /// Whether it is out of order: what it took may be lost, and each later call fails.
    ghost broken: { Self → Type 0 };

    /// How many calls failed. It stays at `u64::MAX` once it is there.
    ghost faults: { Self → ℕ };

    /// Which keeper it is, where it is lent. No call changes it.
    ghost name: { Self → ℕ };

    /// What is so of it before and after a call that failed, where the call gave it this change. A caller
    /// that has this of a change gave it to the keeper: only `put` and `remove` state it.
    ghost given: { Self → KeeperChange → Self → Type 0 };

    /// All rows, by ascending bytes of their keys, each key once.
    fn load(&mut self) -> Result<Vec<Row>, KeepFault>
        ensures ascending { IfOk result (λ loaded. Ascend loaded.items) }
        ensures told { IfOk result (λ loaded. IsTold (rows self.old) loaded.items) }
        ensures kept { rows self.new ≡ rows self.old }
        ensures settled { settled self.new ≡ settled self.old }
        ensures once_broken { StaysBroken (broken self.old) result (broken self.new) }

        ensures fault { OnFailed result (Rose (faults self.old) (faults self.new)) }
        ensures no_fault { UnlessFailed result (faults self.new ≡ faults self.old) }
        ensures never_falls { faults self.old ≤ faults self.new }

        ensures same { name self.new ≡ name self.old };

    /// Puts in a row, in place of the one of its key if there is one.
    fn put(&mut self, key: &str, revision: u64, body: &str) -> Result<(), KeepFault>
        ensures done { OnOk result
            (rows self.new ≡ known_with (row_with key.now revision body.now) (rows self.old)) }
        ensures old_or_new { OnFailed result (IsOldOrNew (rows self.old)
            (known_with (row_with key.now revision body.now) (rows self.old)) (rows self.new)) }
        ensures given { OnFailed result
            (given self.old (PutIn (row_with key.now revision body.now)) self.new) }
        ensures unchanged { OnMemory result (rows self.new ≡ rows self.old) }
        ensures settled { SettlesOrNot (settled self.old) (settled self.new) (rows self.new) }
        ensures once_broken { StaysBroken (broken self.old) result (broken self.new) }

        ensures fault { OnFailed result (Rose (faults self.old) (faults self.new)) }
        ensures no_fault { UnlessFailed result (faults self.new ≡ faults self.old) }
        ensures never_falls { faults self.old ≤ faults self.new }

        ensures same { name self.new ≡ name self.old };

    /// Takes out the row of a key. It is no fault that there is none.
    fn remove(&mut self, key: &str) -> Result<(), KeepFault>
        ensures done { OnOk result (rows self.new ≡ known_without key.now (rows self.old)) }
        ensures old_or_new { OnFailed result (IsOldOrNew (rows self.old)
            (known_without key.now (rows self.old)) (rows self.new)) }
        ensures given { OnFailed result (given self.old (TakeOut key.now) self.new) }
        ensures unchanged { OnMemory result (rows self.new ≡ rows self.old) }
        ensures settled { SettlesOrNot (settled self.old) (settled self.new) (rows self.new) }
        ensures once_broken { StaysBroken (broken self.old) result (broken self.new) }

        ensures fault { OnFailed result (Rose (faults self.old) (faults self.new)) }
        ensures no_fault { UnlessFailed result (faults self.new ≡ faults self.old) }
        ensures never_falls { faults self.old ≤ faults self.new }

        ensures same { name self.new ≡ name self.old };

    /// Makes sure of all that it took, so that a crash no longer takes it back. A settling that fails leaves the
    /// keeper out of order.
    fn settle(&mut self) -> Result<(), KeepFault>
        ensures done { OnOk result (settled self.new ≡ rows self.new) }
        ensures kept { rows self.new ≡ rows self.old }
        ensures unchanged { OnMemory result (settled self.new ≡ settled self.old) }
        ensures settled { SettlesOrNot (settled self.old) (settled self.new) (rows self.new) }
        ensures breaks { OnFailed result (broken self.new) }
        ensures once_broken { StaysBroken (broken self.old) result (broken self.new) }

        ensures fault { OnFailed result (Rose (faults self.old) (faults self.new)) }
        ensures no_fault { UnlessFailed result (faults self.new ≡ faults self.old) }
        ensures never_falls { faults self.old ≤ faults self.new }

        ensures same { name self.new ≡ name self.old };
}

/// A keeper that is lent is the same keeper.
impl<K: Keeper> Keeper for &mut K {
    ghost rows = { λ keeper. K.rows keeper.now };

    ghost settled = { λ keeper. K.settled keeper.now };

    ghost broken = { λ keeper. K.broken keeper.now };

    ghost faults = { λ keeper. K.faults keeper.now };

    ghost name = { λ keeper. keeper.ghost_name };

    ghost given = { λ before change after. K.given before.now change after.now };

    fn load(&mut self) -> Result<Vec<Row>, KeepFault> {
        Keeper::load(&mut **self)
    }

    fn put(&mut self, key: &str, revision: u64, body: &str) -> Result<(), KeepFault> {
        Keeper::put(&mut **self, key, revision, body)
    }

    fn remove(&mut self, key: &str) -> Result<(), KeepFault> {
        Keeper::remove(&mut **self, key)
    }

    fn settle(&mut self) -> Result<(), KeepFault> {
        Keeper::settle(&mut **self)
    }
}
