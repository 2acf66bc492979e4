//! The names of the two files of a database, and what has them.
use crate::fault::{StorageFault, Trouble};
use ipam_text::Text;
use std::fs::{Metadata, OpenOptions, Permissions};
use std::os::unix::fs::{MetadataExt, OpenOptionsExt, PermissionsExt};
use std::{fs, io};

/// The mode of a file that is made here, whatever the process's mask is. SQLite's rule gives the log
/// the mode of its file.
const MODE: u32 = 0o640;

/// The bytes of a log that holds no page: its header and that of one page.
const LOG_WITHOUT_PAGES: u64 = 32 + 24;

/// Which file has a name, as the system numbers files: its device, and its number there.
pub(crate) type FileId = (u64, u64);

/// What has the names before an opening.
pub(crate) struct Found {
    /// The database file, where it is there.
    pub(crate) file: Option<FileId>,
    /// Whether no byte of a database is there.
    pub(crate) is_nothing: bool,
}

/// Looks at the files that a database at this path has, and refuses what cannot be one.
pub(crate) fn look(rt: &HostRuntime, path: &str) -> Result<Found, Trouble> {
    if path.is_empty() || path == ":memory:" || path.starts_with("file:") {
        return Err(Trouble::Fault(StorageFault::NotAFile));
    }
    let file = file_of(fs::metadata(rt, path))?;
    if file.is_none() && fs::symlink_metadata(rt, path).is_ok() {
        // A link that leads to no file.
        return Err(Trouble::Fault(StorageFault::NotAFile));
    }
    let log = beside(rt, path, file.is_some(), "-wal")?;
    let has_pages = match file_of(fs::symlink_metadata(rt, log.as_str()))? {
        Some((_, length)) => length > LOG_WITHOUT_PAGES,
        None => false,
    };
    match file {
        Some((_, 0)) if has_pages => Err(Trouble::Fault(StorageFault::EmptyWithLog)),
        Some((id, length)) => Ok(Found {
            file: Some(id),
            is_nothing: length == 0,
        }),
        None if has_pages => Err(Trouble::Fault(StorageFault::LogAlone)),
        None => Ok(Found {
            file: None,
            is_nothing: true,
        }),
    }
}

/// Which file was found under a name, if one was, and its length: a regular one with one name.
fn file_of(looked: io::Result<Metadata>) -> Result<Option<(FileId, u64)>, Trouble> {
    match looked {
        Ok(found) if !is_regular(&found) => Err(Trouble::Fault(StorageFault::NotAFile)),
        Ok(found) if found.nlink() != 1 => Err(Trouble::Fault(StorageFault::HardLink)),
        Ok(found) => Ok(Some(((found.dev(), found.ino()), found.len()))),
        Err(error) if error.kind() == io::ErrorKind::NotFound => Ok(None),
        Err(error) => Err(Trouble::from(error)),
    }
}

/// Whether it is a regular file. It has no contract, so that no proof computes with the number of a kind of file.
fn is_regular(found: &Metadata) -> bool {
    found.is_file()
}

/// The name of the log or the journal: it lies where a link leads, beside the file.
pub(crate) fn beside(
    rt: &HostRuntime,
    path: &str,
    is_there: bool,
    ending: &str,
) -> Result<Text, Trouble> {
    if !is_there {
        return Ok(Text::of(format!(in rt.alloc(); "{path}{ending}")?));
    }
    let real = fs::canonicalize(rt, path)?;
    let real = real.as_str();
    Ok(Text::of(format!(in rt.alloc(); "{real}{ending}")?))
}

/// Makes the database file, with no byte in it. It is no fault that another process just made it.
pub(crate) fn make(rt: &HostRuntime, path: &str) -> Result<(), Trouble> {
    match OpenOptions::new()
        .write(true)
        .create_new(true)
        .mode(MODE)
        .open(rt, path)
    {
        Ok(file) => Ok(file.set_permissions(Permissions::from_mode(MODE))?),
        Err(error) if error.kind() == io::ErrorKind::AlreadyExists => Ok(()),
        Err(error) => Err(Trouble::from(error)),
    }
}

/// Why files that `look` let pass could not be opened, as far as their names tell it.
pub(crate) fn why_closed(rt: &HostRuntime, path: &str) -> Result<StorageFault, Trouble> {
    let journal = beside(rt, path, true, "-journal")?;
    if fs::symlink_metadata(rt, journal.as_str()).is_ok() {
        return Ok(StorageFault::Journal);
    }
    open_both_ways(rt, path)?;
    let log = beside(rt, path, true, "-wal")?;
    match open_both_ways(rt, log.as_str()) {
        Ok(()) => Ok(StorageFault::DiskFailed),
        Err(error) if error.kind() == io::ErrorKind::NotFound => Ok(StorageFault::NoPermission),
        Err(error) => Err(Trouble::from(error)),
    }
}

/// Opens the file to be read and written, and closes it.
fn open_both_ways(rt: &HostRuntime, path: &str) -> io::Result<()> {
    match OpenOptions::new().read(true).write(true).open(rt, path) {
        Ok(_) => Ok(()),
        Err(error) => Err(error),
    }
}

#[derive(Drop)]
/// The names of two files that are open, and which files had them then.
pub(crate) struct Watch {
    rt: HostRuntime,
    path: Text,
    file: FileId,
    log_path: Text,
    log: FileId,
    /// How long the log was when it was last looked at. While it is open, what writes it never makes it shorter.
    log_length: u64,
}

impl Watch {
    /// Over the files of an open database. Where the database file was found before it was opened, it
    /// has to be the same.
    pub(crate) fn over(
        rt: &HostRuntime,
        path: &str,
        found: Option<FileId>,
    ) -> Result<Watch, Trouble> {
        let log_path = beside(rt, path, true, "-wal")?;
        let (Some((file, _)), Some((log, log_length))) = (
            found_at(rt, path),
            found_at(rt, log_path.as_str()),
        ) else {
            return Err(Trouble::Fault(StorageFault::FileGone));
        };
        match found {
            Some(before) if before != file => Err(Trouble::Fault(StorageFault::FileGone)),
            _ => Ok(Watch {
                rt: *rt,
                path: Text::copied(rt.alloc(), path)?,
                file,
                log_path,
                log,
                log_length,
            }),
        }
    }

    /// Whether the name of the database file still leads to the file that was opened.
    pub(crate) fn has_file(&self) -> bool {
        match found_at(&self.rt, self.path.as_str()) {
            Some((file, _)) => file == self.file,
            None => false,
        }
    }

    /// Looks at both names. It is a fault that one of them does not lead to the file that was opened, and that
    /// the log is shorter than at the last look.
    pub(crate) fn check(&mut self) -> Result<(), StorageFault> {
        match found_at(&self.rt, self.log_path.as_str()) {
            Some((log, length)) if log == self.log && self.has_file() => {
                if length < self.log_length {
                    return Err(StorageFault::LogCut);
                }
                self.log_length = length;
                Ok(())
            }
            _ => Err(StorageFault::FileGone),
        }
    }
}

/// Which file has this name, or a link there leads to, and its length.
fn found_at(rt: &HostRuntime, path: &str) -> Option<(FileId, u64)> {
    match fs::metadata(rt, path) {
        Ok(found) => Some(((found.dev(), found.ino()), found.len())),
        Err(_) => None,
    }
}
