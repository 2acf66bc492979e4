//! The table of a database that is open: each statement that the keeper asks, in a few lines over the kit's SQLite.
ghost use Rattle.std.specs.Prelude.{◌≡◌, None, Some, Err, IfOk, IfErr, IfSome};
ghost use Rattle.ipam_keeper.specs.Rows.{Ascend};
ghost use Rattle.ipam_sqlite.specs.Answers.{fault_of};

use crate::fault::{StorageFault, Trouble};
use crate::loading::load_rows;
use crate::names::Watch;
use crate::opening::fold;
use ipam_keeper::Row;
use ipam_table::{Table, TableFault, put_at_once, remove_at_once};
use sqlite::types::ValueRef;
use sqlite::{Alter, Connection, File, FileStore, params};
use std::alloc::Global;

const PUT: &str =
    "INSERT INTO rows(key, revision, body) VALUES (?1, ?2, ?3) ON CONFLICT(key) DO UPDATE SET revision = excluded.revision, body = excluded.body";

const REMOVE: &str = "DELETE FROM rows WHERE key = ?1";

const BEGIN: &str = "BEGIN";

const COMMIT: &str = "COMMIT";

/// What a database is asked.
#[derive(Clone, Copy)]
pub(crate) enum Ask<'a> {
    /// Gives all rows.
    Load,
    /// Puts in a row of this key, this revision and this body.
    Put(&'a str, u64, &'a str),
    /// Takes out the row of this key, if there is one.
    Remove(&'a str),
}

/// The table `rows(key TEXT PRIMARY KEY, revision INTEGER NOT NULL, body TEXT NOT NULL)` of a database that is open, and
/// the names of its files. It does not tell its rows. A column holds no number from 2^63 on.
pub struct SqliteTable<S: Alter> {
    /// None once the files are let go.
    conn: Option<Connection<S>>,
    watch: Watch,
    alloc: Global,
    /// Why a step failed, if one did. Then the disk may lack what the log seems to have, so that the log is left
    /// for whoever opens the file next, and reads it from the disk.
    failed: Option<StorageFault>,
}

/// What becomes of the log where a database is closed.
#[derive(Clone, Copy)]
pub(crate) enum Ending {
    /// It is folded into the file.
    Fold,
    /// It stays as it is, for whoever opens the file next.
    Leave,
}

impl<S: Alter + Drop> Drop for SqliteTable<S> {
    fn drop(self) {
        let SqliteTable {
            conn: _,
            watch: _,
            alloc: _,
            failed: _,
        } = self;
    }
}

impl SqliteTable<FileStore<File>> {
    /// Closes the file and its log. Where a step failed, or another file has the name by now, the log is left as
    /// it is, also where it was to be folded, and the answer is that fault.
    pub(crate) fn end(self, ending: Ending) -> Result<(), Trouble>
        ensures failed { IfSome self.failed (λ fault. ending ≡ Ending.Fold → result ≡ Err (Trouble.Fault fault)) }
    {
        let SqliteTable {
            conn,
            watch,
            alloc: _,
            failed,
        } = self;
        match (ending, failed, conn) {
            (Ending::Leave, _, _) => Ok(()),
            (Ending::Fold, Some(fault), _) => Err(Trouble::Fault(fault)),
            (Ending::Fold, None, Some(conn)) if watch.has_file() => fold(conn),
            (Ending::Fold, None, _) => Err(Trouble::Fault(StorageFault::FileGone)),
        }
    }
}

impl<S: Alter> SqliteTable<S> {
    pub(crate) fn new(conn: Connection<S>, watch: Watch, alloc: Global) -> SqliteTable<S> {
        SqliteTable {
            conn: Some(conn),
            watch,
            alloc,
            failed: None,
        }
    }

    /// Runs a statement. The connection compiles each once, and keeps what it compiled.
    fn run(&mut self, sql: &str, values: &[ValueRef<'_>]) -> Result<(), TableFault<StorageFault>> {
        let Some(conn) = &mut self.conn else {
            return Err(TableFault::Failed(StorageFault::FileGone));
        };
        match conn.execute(sql, values) {
            Ok(_) => Ok(()),
            Err(error) => Err(self.noted(Trouble::from(error))),
        }
    }

    /// Keeps why a step failed.
    fn noted(&mut self, trouble: Trouble) -> TableFault<StorageFault>
        ensures told { result ≡ fault_of trouble }
        ensures kept { (fault : StorageFault) → trouble ≡ Trouble.Fault fault → self.new.failed ≡ Some fault }
    {
        if let Trouble::Fault(fault) = trouble {
            self.failed = Some(fault);
        }
        TableFault::from(trouble)
    }
}

impl<S: Alter + Drop> SqliteTable<S> {
    /// Does what is asked at once, and answers with the rows of a load. A change is answered with none.
    pub(crate) fn answer(&mut self, ask: Ask<'_>) -> Result<Vec<Row>, Trouble>
        ensures { IfOk result (λ loaded. Ascend loaded.items) }
    {
        let done = match ask {
            Ask::Load => {
                return match self.load() {
                    Ok(loaded) => Ok(loaded),
                    Err(fault) => Err(Trouble::from(fault)),
                };
            }
            Ask::Put(key, revision, body) => put_at_once(self, key, revision, body),
            Ask::Remove(key) => remove_at_once(self, key),
        };
        match done {
            Ok(()) => Ok(Vec::new(self.alloc)),
            Err(fault) => Err(Trouble::from(fault)),
        }
    }
}

impl<S: Alter + Drop> Table for SqliteTable<S> {
    type Cause = StorageFault;

    ghost state = { λ _. None };

    fn no_memory() -> StorageFault {
        StorageFault::NoMemory
    }

    fn load(&mut self) -> Result<Vec<Row>, TableFault<StorageFault>> {
        let Some(conn) = &mut self.conn else {
            return Err(TableFault::Failed(StorageFault::FileGone));
        };
        match load_rows(conn, self.alloc) {
            Ok(loaded) => Ok(loaded),
            Err(trouble) => Err(TableFault::from(trouble)),
        }
    }

    fn put(
        &mut self,
        key: &str,
        revision: u64,
        body: &str,
    ) -> Result<(), TableFault<StorageFault>> {
        match i64::try_from(revision) {
            Ok(revision) => self.run(PUT, params![key, revision, body]),
            Err(_) => Err(TableFault::Failed(StorageFault::Refused)),
        }
    }

    fn remove(&mut self, key: &str) -> Result<(), TableFault<StorageFault>> {
        self.run(REMOVE, params![key])
    }

    fn is_alone(&self) -> bool {
        match &self.conn {
            Some(conn) => conn.is_autocommit(),
            None => true,
        }
    }

    fn begin(&mut self) -> Result<(), TableFault<StorageFault>> {
        self.run(BEGIN, &[])
    }

    fn commit(&mut self) -> Result<(), TableFault<StorageFault>> {
        self.run(COMMIT, &[])
    }

    fn look(&mut self) -> Result<(), StorageFault>
        ensures noted { IfErr result (λ fault. self.new.failed ≡ Some fault) }
    {
        match self.watch.check() {
            Ok(()) => Ok(()),
            Err(fault) => {
                self.failed = Some(fault);
                Err(fault)
            }
        }
    }

    fn let_go(&mut self) {
        self.conn = None;
    }
}
