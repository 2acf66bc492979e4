//! A database file that a backup makes.
ghost use Rattle.std.specs.Prelude.{◌≡◌, ◌≤◌};
ghost use Rattle.ipam_io.specs.Counts.{next_count};
ghost use Rattle.ipam_keeper.specs.Keeping.{OnFailed, UnlessFailed};

use crate::causes::Explains;
use crate::telling::{EACH_ROWS, tell_progress};
use ipam_keeper::{KeepFault, Keeper, Row};
use ipam_operator::Target;
use ipam_sqlite::{FileKeeper, SqliteKeeper, StorageFault, open_keeper};
use ipam_text::Text;
use sqlite::{File, FileStore};
use std::alloc::AllocError;
use std::fs::OpenOptions;
use std::os::unix::fs::OpenOptionsExt;
use std::{fs, io};

/// The mode of the file.
const MODE: u32 = 0o640;

/// Why the file was not made.
#[derive(Clone, Copy)]
pub(crate) enum NotMade {
    /// The file is there, or a log or journal of its name.
    There,
    /// The system refused it.
    Failed(io::Error),
    /// There was no memory.
    Memory,
}

/// The key of no row.
const NO_KEY: &str = "";

/// A keeper over a file that was not there before. Its settling puts all rows on the disk at once. Which keeper has the
/// file stays open but where it is made, since proofs over files go through the whole store of them.
#[derive(Drop)]
pub(crate) struct NewFile<K> {
    rt: HostRuntime,
    /// None once it was closed.
    keeper: Option<K>,
    /// What folds the log into the file then.
    closing: FileKeeper,
    faults: u64,
    /// How many rows it was given.
    copied: u64,
}

impl NewFile<SqliteKeeper<FileStore<File>>> {
    /// Makes the file, with no row in it.
    pub(crate) fn make(
        rt: &HostRuntime,
        path: &str,
    ) -> Result<NewFile<SqliteKeeper<FileStore<File>>>, NotMade> {
        match make_file(rt, path) {
            Ok(()) => Ok(NewFile {
                rt: *rt,
                keeper: Some(open_keeper(rt, path)),
                closing: FileKeeper::new(rt, path),
                faults: 0,
                copied: 0,
            }),
            Err(why) => Err(why),
        }
    }
}

impl<K: Keeper + Explains + Drop> NewFile<K> {
    /// Why the last call that failed did so.
    pub(crate) fn why(&self) -> Option<StorageFault> {
        match &self.keeper {
            Some(keeper) => keeper.why(),
            None => self.closing.why(),
        }
    }

    /// Counts an answer that is a failure.
    fn counted<T>(&mut self, answer: Result<T, KeepFault>) -> Result<T, KeepFault>
        ensures answer { result ≡ answer }
        ensures keeper { self.new.keeper ≡ self.old.keeper }
        ensures fault { OnFailed result (self.new.faults ≡ next_count self.old.faults) }
        ensures no_fault { UnlessFailed result (self.new.faults ≡ self.old.faults) }
        ensures never_falls { self.old.faults ≤ self.new.faults }
    {
        match answer {
            Ok(value) => Ok(value),
            Err(KeepFault::Memory) => Err(KeepFault::Memory),
            Err(KeepFault::Failed) => {
                self.faults = self.faults.saturating_add(1);
                Err(KeepFault::Failed)
            }
        }
    }
}

/// Makes the file, unless a log or a journal of its name is there.
fn make_file(rt: &HostRuntime, path: &str) -> Result<(), NotMade> {
    match has_leavings(rt, path) {
        Ok(false) => open_new(rt, path),
        Ok(true) => Err(NotMade::There),
        Err(AllocError) => Err(NotMade::Memory),
    }
}

fn open_new(rt: &HostRuntime, path: &str) -> Result<(), NotMade> {
    match OpenOptions::new()
        .write(true)
        .create_new(true)
        .mode(MODE)
        .open(rt, path)
    {
        Ok(_) => Ok(()),
        Err(error) if error.kind() == io::ErrorKind::AlreadyExists => Err(NotMade::There),
        Err(error) => Err(NotMade::Failed(error)),
    }
}

/// Whether there is a log or a journal that a file of this name had.
fn has_leavings(rt: &HostRuntime, path: &str) -> Result<bool, AllocError> {
    let log = Text::of(format!(in rt.alloc(); "{path}-wal")?);
    let journal = Text::of(format!(in rt.alloc(); "{path}-journal")?);
    Ok(
        fs::symlink_metadata(rt, log.as_str()).is_ok()
            || fs::symlink_metadata(rt, journal.as_str()).is_ok(),
    )
}

/// Removes the file that was made and its log, as far as that can be done.
pub(crate) fn unmake(rt: &HostRuntime, path: &str) {
    let _ = fs::remove_file(rt, path);
    if let Ok(log) = format!(in rt.alloc(); "{path}-wal") {
        let _ = fs::remove_file(rt, log.as_str());
    }
}

impl<K: Keeper + Explains + Drop> Keeper for NewFile<K> {
    ghost use Rattle.std.specs.Prelude.{None, IfSome};

    ghost rows = { λ _. None };

    ghost settled = { λ _. None };

    ghost broken = { λ file. IfSome file.keeper K.broken };

    ghost faults = { λ file. file.faults };

    ghost name = { λ _. 0 };

    ghost given = { λ before change after. Unit {0} };

    fn load(&mut self) -> Result<Vec<Row>, KeepFault> {
        let Some(keeper) = &mut self.keeper else {
            return self.counted(Err(KeepFault::Failed));
        };
        let answer = keeper.load();
        self.counted(answer)
    }

    fn put(&mut self, key: &str, revision: u64, body: &str) -> Result<(), KeepFault> {
        let Some(keeper) = &mut self.keeper else {
            return self.counted(Err(KeepFault::Failed));
        };
        let answer = keeper.put(key, revision, body);
        self.copied = self.copied.saturating_add(1);
        tell_progress(&self.rt, self.copied, EACH_ROWS, "rows copied");
        self.counted(answer)
    }

    fn remove(&mut self, key: &str) -> Result<(), KeepFault> {
        let Some(keeper) = &mut self.keeper else {
            return self.counted(Err(KeepFault::Failed));
        };
        let answer = keeper.remove(key);
        self.counted(answer)
    }

    fn settle(&mut self) -> Result<(), KeepFault> {
        let Some(keeper) = &mut self.keeper else {
            return self.counted(Err(KeepFault::Failed));
        };
        let answer = keeper.settle();
        self.counted(answer)
    }
}

impl<K: Keeper + Explains + Drop> Target for NewFile<K> {
    ghost closed = { λ _. Unit {0} };

    fn close(&mut self) -> Result<(), KeepFault> {
        self.keeper = None;
        let answer = fold(&mut self.closing);
        self.counted(answer)
    }
}

/// Opens the file, which taking out the row of no key does, and folds its log into it.
fn fold(closing: &mut FileKeeper) -> Result<(), KeepFault> {
    match closing.remove(NO_KEY) {
        Ok(()) => closing.close(),
        Err(fault) => Err(fault),
    }
}
