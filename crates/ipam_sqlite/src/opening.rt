//! A database file is opened, or made with its table.
ghost use Rattle.std.specs.Prelude.{IsTrue, OnOk};

use crate::fault::{StorageFault, Trouble};
use crate::header::is_as_made;
use crate::log_frames::{check_log, write_again};
use crate::names::{FileId, Found, Watch, look, make, why_closed};
use crate::table::SqliteTable;
use sqlite::{Alter, Connection, Error, File, FileStore, Files, Options, Row, Unknown};
use sqlite_disk::Disk;
use sqlite_std_file::OpenError;
use std::alloc::Global;
use std::hash::{BuildHasher, RandomState};
use std::io;

const MAKE_TABLE: &str =
    "CREATE TABLE rows(key TEXT PRIMARY KEY, revision INTEGER NOT NULL, body TEXT NOT NULL)";

/// The statement of the table, without blanks and in small letters.
const SHAPE: &str = "createtablerows(keytextprimarykey,revisionintegernotnull,bodytextnotnull)";

const FIND_TABLE: &str = "SELECT type, sql FROM sqlite_schema WHERE name = 'rows' COLLATE NOCASE";

const LIST_OBJECTS: &str = "SELECT type FROM sqlite_schema";

/// The bytes of a page, where the database was made here.
const PAGE: usize = 4096;

/// How many pages of a small file are kept in memory.
const FEWEST_PAGES: usize = 64;

/// From so many pages of the log on, the first change of a command folds it into the file.
const MOST_FRAMES: usize = 128;

/// What a keeper may do with its file, and when its changes are put on the disk.
#[derive(Clone, Copy)]
pub(crate) enum Aim {
    /// Read it.
    Look,
    /// Read and write it, and make it where it is not there. Each change is on the disk before its call answers.
    KeepAtOnce,
    /// Read and write it, and make it where it is not there. A settling puts all changes since the last one on the
    /// disk, at once and whole. Before it a crash, a kill or a drop takes back all of them.
    KeepAtSettle,
}

/// Opens the database at the path. None where the aim is to look and there is none yet.
pub(crate) fn open_database(
    rt: &HostRuntime,
    path: &str,
    aim: Aim,
) -> Result<Option<SqliteTable<FileStore<File>>>, Trouble> {
    let Found { file, is_nothing } = look(rt, path)?;
    if is_nothing && matches!(aim, Aim::Look) {
        return Ok(None);
    }
    if file.is_none() {
        make(rt, path)?;
    }
    // A log that has the table is folded into the file before any row is kept, and then the file has it. So a
    // file with rows is never taken for a new one, though it is copied without its log.
    for _ in 0..2 {
        match begin(rt, path, aim, file, open_files(rt, path, aim)?)? {
            Begun::Empty => return Ok(None),
            Begun::Made(opened) => return Ok(Some(opened)),
            Begun::InLog(conn) => fold(conn)?,
        }
    }
    Err(Trouble::Fault(StorageFault::NoTable))
}

/// Opens and locks the files, and looks at the log before it is taken.
fn open_files(
    rt: &HostRuntime,
    path: &str,
    aim: Aim,
) -> Result<Connection<FileStore<File>>, Trouble> {
    match sqlite_std_file::open(rt, path, Unknown) {
        Ok(files) => connect(rt, files, aim),
        Err(OpenError::OutOfMemory) => Err(Trouble::Memory),
        Err(OpenError::Busy) => Err(Trouble::Fault(StorageFault::HeldByAnother)),
        Err(OpenError::HotJournal) => Err(Trouble::Fault(StorageFault::Journal)),
        Err(OpenError::Io(error)) if error.kind() == io::ErrorKind::OutOfMemory => {
            Err(Trouble::Memory)
        }
        Err(OpenError::Io(_)) => Err(Trouble::Fault(why_closed(rt, path)?)),
    }
}

/// Takes what the log has, and reads the database.
pub(crate) fn connect<D: Disk + Drop>(
    rt: &HostRuntime,
    mut files: Files<D>,
    aim: Aim,
) -> Result<Connection<FileStore<D>>, Trouble>
    requires log { IsTrue (D.Disk.is_usable files.log) }
    requires db { IsTrue (D.Disk.is_usable files.db) }
{
    ready_log(rt.alloc(), &mut files, aim)?;
    let options = options_of(aim, files.db.len()?, RandomState::new(rt)?.hash_one(&0u8));
    match Connection::open_files_with(rt.alloc(), files, options, false) {
        Ok(conn) => Ok(conn),
        Err((error, _)) => Err(Trouble::from(error)),
    }
}

/// Looks at the log, and writes it again where rows are to be kept.
fn ready_log<D: Disk>(alloc: Global, files: &mut Files<D>, aim: Aim) -> Result<(), Trouble>
    requires log { IsTrue (D.Disk.is_usable files.old.log) }
    requires db { IsTrue (D.Disk.is_usable files.old.db) }
    ensures log { OnOk result (IsTrue (D.Disk.is_usable files.new.log)) }
    ensures db { OnOk result (IsTrue (D.Disk.is_usable files.new.db)) }
{
    let taken = check_log(alloc, files)?;
    match aim {
        Aim::Look => Ok(()),
        Aim::KeepAtOnce | Aim::KeepAtSettle => write_again(alloc, &mut files.log, taken),
    }
}

/// A keeper that stays open sees its file grow. For the others each page of the cache is made before the first one is
/// read, and each opening reads the whole log: so both are small.
fn options_of(aim: Aim, length: usize, seed: u64) -> Options {
    let usual = Options::new(seed);
    match aim {
        Aim::KeepAtSettle => usual,
        Aim::Look | Aim::KeepAtOnce => Options {
            cache_pages: (length / PAGE).clamp(FEWEST_PAGES, usual.cache_pages),
            spill_pages: usual.spill_pages,
            checkpoint_frames: MOST_FRAMES,
            seed: usual.seed,
        },
    }
}

/// Copies the log into the file, and closes both.
pub(crate) fn fold(conn: Connection<FileStore<File>>) -> Result<(), Trouble> {
    match conn.close() {
        Ok(()) => Ok(()),
        Err(error) => Err(Trouble::from(error)),
    }
}

/// What an opening comes to.
enum Begun<S: Alter> {
    /// There is no table, and none is made.
    Empty,
    /// The table is in the log alone.
    InLog(Connection<S>),
    Made(SqliteTable<S>),
}

/// Makes the table where the aim is to keep rows and there is none.
fn begin<S: Alter + Drop>(
    rt: &HostRuntime,
    path: &str,
    aim: Aim,
    file: Option<FileId>,
    mut conn: Connection<S>,
) -> Result<Begun<S>, Trouble> {
    match stage_of(rt, path, &mut conn)? {
        Stage::New => match aim {
            Aim::Look => Ok(Begun::Empty),
            Aim::KeepAtOnce | Aim::KeepAtSettle => {
                conn.execute(MAKE_TABLE, &[])?;
                Ok(Begun::InLog(conn))
            }
        },
        Stage::InLog => Ok(Begun::InLog(conn)),
        Stage::Made => {
            let watch = Watch::over(rt, path, file)?;
            Ok(Begun::Made(SqliteTable::new(conn, watch, rt.alloc())))
        }
    }
}

/// How far the making of a database has come.
pub(crate) enum Stage {
    /// There is no table yet.
    New,
    /// The table is in the log alone.
    InLog,
    /// The table is in the file. Only now are rows kept.
    Made,
}

/// How far the making has come. It is a fault that the table has another shape, that something else has its
/// name, and that there is none though the file had one once, has something else, or was not made here.
pub(crate) fn stage_of<S: Alter>(
    rt: &HostRuntime,
    path: &str,
    conn: &mut Connection<S>,
) -> Result<Stage, Trouble> {
    let is_as_made = is_as_made(rt, path)?;
    if let Some(row) = first_row(conn, FIND_TABLE)? {
        check_shape(&row)?;
        return Ok(if is_as_made {
            Stage::InLog
        } else {
            Stage::Made
        });
    }
    if is_as_made && first_row(conn, LIST_OBJECTS)?.is_none() {
        Ok(Stage::New)
    } else {
        Err(Trouble::Fault(StorageFault::NoTable))
    }
}

fn first_row<S: Alter>(conn: &mut Connection<S>, sql: &str) -> Result<Option<Row>, Trouble> {
    match conn.query_row(sql, &[]) {
        Ok(row) => Ok(Some(row)),
        Err(Error::QueryReturnedNoRows) => Ok(None),
        Err(error) => Err(Trouble::from(error)),
    }
}

fn check_shape(row: &Row) -> Result<(), Trouble> {
    let kind: String = row.get(0)?;
    let statement: String = row.get(1)?;
    if kind.as_str() == "table" && is_spelled(statement.as_str(), SHAPE) {
        Ok(())
    } else {
        Err(Trouble::Fault(StorageFault::OtherShape))
    }
}

/// Whether the statement has this spelling, but for blanks and the case of its letters.
fn is_spelled(statement: &str, spelling: &str) -> bool {
    let mut letters = spelling.bytes();
    for byte in statement.bytes() {
        if !is_blank(byte) && letters.next() != Some(byte.to_ascii_lowercase()) {
            return false;
        }
    }
    letters.next().is_none()
}

/// Whether the byte is a blank. It has no contract, so that no proof goes through the ranges of blanks.
fn is_blank(byte: u8) -> bool {
    byte.is_ascii_whitespace()
}
