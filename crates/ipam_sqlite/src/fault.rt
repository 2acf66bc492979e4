//! Why a database file could not be used.
ghost use Rattle.std.specs.Prelude.{◌≡◌};

use ipam_table::TableFault;
use sqlite::{Error, ErrorCode};
use std::alloc::AllocError;
use std::{fmt, io};

/// Why a keeper over a file failed. It is displayed as a plain sentence without the file's name, for
/// the person who runs the program; no contract speaks of it.
#[derive(Clone, Copy)]
pub enum StorageFault {
    /// Another process, or another keeper of this one, has the file open.
    HeldByAnother,
    /// A daemon has the file open.
    HeldByDaemon,
    /// Others had the file for all of the time that it was waited for.
    Busy,
    /// The folder that the file is to lie in is not there.
    NoFolder,
    /// The file or its log may not be read and written, or none may be made in the folder.
    NoPermission,
    /// What has the name is a folder, a device, a pipe or a link that leads nowhere, or the name is
    /// none of a file.
    NotAFile,
    /// The file is no database, is damaged, has rows that break its own tables, or is of a kind that is not
    /// read.
    NotADatabase,
    /// The table `rows` is there, and of another shape.
    OtherShape,
    /// The file is not new, and its table `rows` is not there.
    NoTable,
    /// The file or its log has a second name.
    HardLink,
    /// SQLite left a rollback journal, which only SQLite can play back.
    Journal,
    /// The log is there with pages in it, and the file is not.
    LogAlone,
    /// The log is there with pages in it, and the file has no byte.
    EmptyWithLog,
    /// The log's header is damaged, or a write of it that has others behind it.
    LogDamaged,
    NoSpace,
    /// A call of the system failed for another cause.
    DiskFailed,
    /// The file or its log was removed, renamed or replaced since it was opened.
    FileGone,
    /// The log was made shorter since it was last written.
    LogCut,
    /// A row is no text, whole number and text, its revision is negative, or keys are not in order.
    BadRow,
    /// The database refused a statement, as for a check of its own or the size of a text.
    Refused,
    /// A reader was asked to write where there is no file.
    NoFile,
    /// The database found no memory, and let go of changes that were not on the disk yet.
    NoMemory,
}

impl fmt::Display for StorageFault {
    fn fmt<W: fmt::Write>(&self, f: &mut fmt::Formatter<W>) -> fmt::Result {
        f.write_str(match self {
            StorageFault::HeldByAnother => "another process has the database file open",
            StorageFault::HeldByDaemon => "a daemon has the database file open",
            StorageFault::Busy =>
                "the database is busy: other processes had it for 60 seconds, so that no turn came",
            StorageFault::NoFolder => "the folder of the database file does not exist",
            StorageFault::NoPermission =>
                "no permission to read and write the database file and its log, or to make them in their folder",
            StorageFault::NotAFile => "this is the name of no regular file",
            StorageFault::NotADatabase =>
                "the file is no SQLite database, is damaged, or has rows that break its own tables",
            StorageFault::OtherShape =>
                "its table rows is not rows(key TEXT PRIMARY KEY, revision INTEGER NOT NULL, body TEXT NOT NULL)",
            StorageFault::NoTable => "the file is not new, and it has no table rows",
            StorageFault::HardLink => "the database file or its log has a second name, a hard link",
            StorageFault::Journal =>
                "SQLite left a rollback journal beside the database file; open it once with sqlite3",
            StorageFault::LogAlone => "the database file is missing, and its log is there",
            StorageFault::EmptyWithLog => "the database file is empty, and its log is not",
            StorageFault::LogDamaged =>
                "the log of the database file is damaged before its last write, so that later writes would be lost",
            StorageFault::NoSpace => "no space is left for the database file or its log",
            StorageFault::DiskFailed => "the database file or its log could not be read or written",
            StorageFault::FileGone =>
                "the database file or its log was removed, renamed or replaced while it was open",
            StorageFault::LogCut =>
                "the log of the database file was made shorter while it was open",
            StorageFault::BadRow =>
                "a row of the database is not a text, a whole number and a text, or its key is out of order",
            StorageFault::Refused => "the database refused the row",
            StorageFault::NoFile => "there is no database file",
            StorageFault::NoMemory => "memory ran out before changes were on the disk",
        })
    }
}

/// Why a step of a keeper did not end well.
#[derive(Clone, Copy)]
pub(crate) enum Trouble {
    Memory,
    Fault(StorageFault),
}

impl From<Trouble> for TableFault<StorageFault> {
    ghost use Rattle.ipam_sqlite.specs.Answers.{fault_of};

    ghost from_gives = { λ trouble fault. fault ≡ fault_of trouble };

    fn from(trouble: Trouble) -> TableFault<StorageFault> {
        match trouble {
            Trouble::Memory => TableFault::Memory,
            Trouble::Fault(fault) => TableFault::Failed(fault),
        }
    }
}

impl From<TableFault<StorageFault>> for Trouble {
    fn from(fault: TableFault<StorageFault>) -> Trouble {
        match fault {
            TableFault::Memory => Trouble::Memory,
            TableFault::Failed(fault) => Trouble::Fault(fault),
        }
    }
}

impl From<AllocError> for Trouble {
    fn from(_: AllocError) -> Trouble {
        Trouble::Memory
    }
}

impl From<Error> for Trouble {
    fn from(error: Error) -> Trouble {
        match error {
            Error::SqliteFailure(code) => of_code(code),
            Error::InvalidColumnType(_, _)
            | Error::IntegralValueOutOfRange(_)
            | Error::Utf8Error(_) => Trouble::Fault(StorageFault::BadRow),
            _ => Trouble::Fault(StorageFault::Refused),
        }
    }
}

fn of_code(code: ErrorCode) -> Trouble {
    Trouble::Fault(match code {
        ErrorCode::OutOfMemory => return Trouble::Memory,
        ErrorCode::DatabaseBusy => StorageFault::HeldByAnother,
        ErrorCode::NotADatabase | ErrorCode::DatabaseCorrupt => StorageFault::NotADatabase,
        ErrorCode::DiskFull => StorageFault::NoSpace,
        ErrorCode::SystemIoFailure | ErrorCode::Closed | ErrorCode::CannotOpen =>
            StorageFault::DiskFailed,
        _ => StorageFault::Refused,
    })
}

impl From<io::Error> for Trouble {
    fn from(error: io::Error) -> Trouble {
        Trouble::Fault(match error.kind() {
            io::ErrorKind::OutOfMemory => return Trouble::Memory,
            io::ErrorKind::NotFound | io::ErrorKind::NotADirectory => StorageFault::NoFolder,
            io::ErrorKind::PermissionDenied | io::ErrorKind::ReadOnlyFilesystem =>
                StorageFault::NoPermission,
            io::ErrorKind::StorageFull | io::ErrorKind::QuotaExceeded => StorageFault::NoSpace,
            io::ErrorKind::FilesystemLoop
            | io::ErrorKind::InvalidFilename
            | io::ErrorKind::IsADirectory => StorageFault::NotAFile,
            _ => StorageFault::DiskFailed,
        })
    }
}
