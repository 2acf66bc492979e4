//! A socket file.
use crate::dialing::connect_file;
use std::alloc::{Allocator, Global};
use std::fs::{DirBuilder, Files, Metadata, Permissions};
use std::io::ErrorKind;
use std::net::Net;
use std::os::unix::fs::{DirBuilderExt, FileTypeExt, MetadataExt, PermissionsExt};
use std::os::unix::net::UnixListener;
use std::{fs, io};

/// The mode of a socket file: its owner and its group may connect to it.
const FILE_MODE: u32 = 0o660;

/// The mode of the directory in which a socket file is made: its owner alone may enter it.
const MAKING_MODE: u32 = 0o700;

/// Which file it is, whatever its name: its device, and its number there.
#[derive(Clone, Copy, PartialEq, Eq)]
pub(crate) struct FileId {
    device: u64,
    number: u64,
}

impl FileId {
    fn of(found: &Metadata) -> FileId {
        FileId {
            device: found.dev(),
            number: found.ino(),
        }
    }
}

/// What has the path of a socket file.
#[derive(Clone, Copy)]
pub(crate) enum Standing {
    /// This socket file.
    Own,
    /// Nothing.
    Nothing,
    /// Another file.
    Other,
}

/// Listens at a socket file of this path, which is at most 101 bytes long, and tells which file it is. It is made in a
/// directory of its own that nobody else may enter, `PATH.new`, and moved once it has its mode: so nobody connects
/// before it has, and one at which nobody listens is replaced in one step.
pub(crate) fn bind<R: Files + Net>(
    rt: &R,
    alloc: Global,
    path: &str,
) -> io::Result<(UnixListener, FileId)> {
    make_way(rt, path)?;
    make(rt, alloc, path)
}

/// Listens at a socket file of this path, in place of whatever file has the path.
pub(crate) fn make<R: Files + Net>(
    rt: &R,
    alloc: Global,
    path: &str,
) -> io::Result<(UnixListener, FileId)> {
    let making = format!(in alloc; "{path}.new")?;
    let made = format!(in alloc; "{path}.new/s")?;
    clear(rt, alloc, making.as_str())?;
    DirBuilder::new()
        .mode(MAKING_MODE)
        .create(rt, making.as_str())?;
    let bound = bind_in(rt, made.as_str(), path);
    clear(rt, alloc, making.as_str())?;
    bound
}

/// Listens at a socket file that is made under one path and moved to the other.
fn bind_in<R: Files + Net>(rt: &R, made: &str, path: &str) -> io::Result<(UnixListener, FileId)> {
    let listener = UnixListener::bind(rt, made)?;
    fs::set_permissions(rt, made, Permissions::from_mode(FILE_MODE))?;
    let id = FileId::of(&fs::symlink_metadata(rt, made)?);
    fs::rename(rt, made, path)?;
    Ok((listener, id))
}

/// Removes the directory, where it is there.
fn clear<R: Files>(rt: &R, alloc: Global, path: &str) -> io::Result<()> {
    match rt.remove_dir_all(alloc, path) {
        Ok(()) => Ok(()),
        Err(error) => {
            if error.kind() == ErrorKind::NotFound {
                return Ok(());
            }
            Err(error)
        }
    }
}

/// Fails unless nothing has this path, or a socket file at which nobody listens.
fn make_way<R: Files + Net>(rt: &R, path: &str) -> io::Result<()> {
    match fs::symlink_metadata(rt, path) {
        Ok(found) => {
            if found.file_type().is_socket() {
                return refused(rt, path);
            }
            let words = "a file that is no socket has this path";
            Err(io::Error::new(ErrorKind::AlreadyExists, words))
        }
        Err(error) => {
            if error.kind() == ErrorKind::NotFound {
                return Ok(());
            }
            Err(error)
        }
    }
}

/// Fails unless a connection to the socket file is refused, since nobody listens.
fn refused<R: Net>(rt: &R, path: &str) -> io::Result<()> {
    match connect_file(rt, path) {
        Ok(_) => Err(io::Error::new(ErrorKind::AddrInUse, "another daemon answers there")),
        Err(error) => match error.kind() {
            ErrorKind::ConnectionRefused => Ok(()),
            ErrorKind::WouldBlock => {
                let words = "another daemon has this path, and its queue is full";
                Err(io::Error::new(ErrorKind::AddrInUse, words))
            }
            _ => Err(error),
        },
    }
}

/// What has the path now, at which this socket file was made.
pub(crate) fn found_at<R: Files>(rt: &R, path: &str, own: FileId) -> io::Result<Standing> {
    match fs::symlink_metadata(rt, path) {
        Ok(found) => {
            if FileId::of(&found) == own {
                return Ok(Standing::Own);
            }
            Ok(Standing::Other)
        }
        Err(error) => {
            if error.kind() == ErrorKind::NotFound {
                return Ok(Standing::Nothing);
            }
            Err(error)
        }
    }
}

/// Removes the socket file, where it still has its path. Where the system refuses, the next daemon replaces it.
pub(crate) fn remove<R: Files>(rt: &R, path: &str, own: FileId) {
    if let Ok(Standing::Own) = found_at(rt, path, own) {
        let _ = fs::remove_file(rt, path);
    }
}
