//! The rows of files that may only be read.
ghost use Rattle.std.specs.Prelude.{IfOk, IsTrue};
ghost use Rattle.sqlite_disk.specs.Memory.{memory_is_usable};
ghost use Rattle.ipam_keeper.specs.Rows.{Ascend};

use crate::fault::{StorageFault, Trouble};
use crate::loading::load_rows;
use crate::names::beside;
use crate::opening::{Aim, Stage, connect, stage_of};
use crate::place::has_daemon;
use ipam_keeper::Row;
use os::RangeLock;
use sqlite::Files;
use sqlite_disk::{Disk, Memory};
use std::alloc::{AllocError, Global};
use std::fs::File;
use std::io;
use std::os::fd::AsRawFd;
use std::os::unix::fs::FileExt;

/// The bytes that SQLite locks: its pending, reserved and shared locks.
const LOCKS: u64 = 1 << 30;

const LOCKS_LENGTH: u64 = 512;

/// How many bytes are read at once.
const PIECE: usize = 65536;

/// Reads all rows. Nothing is written: the log is taken in a copy of both files in memory. Nobody writes them
/// while they are copied.
pub(crate) fn load_copy(rt: &HostRuntime, path: &str) -> Result<Vec<Row>, Trouble>
    ensures { IfOk result (λ loaded. Ascend loaded.items) }
{
    let files = copy_files(rt, path)?;
    let mut conn = connect(rt, files, Aim::Look)?;
    match stage_of(rt, path, &mut conn)? {
        Stage::New => Ok(Vec::new(rt.alloc())),
        Stage::InLog | Stage::Made => load_rows(&mut conn, rt.alloc()),
    }
}

fn copy_files(rt: &HostRuntime, path: &str) -> Result<Files<Memory>, Trouble>
    ensures log { IfOk result (λ files. IsTrue (memory_is_usable files.log)) }
    ensures db { IfOk result (λ files. IsTrue (memory_is_usable files.db)) }
{
    let file = File::open(rt, path)?;
    if os::try_lock_range(file.as_raw_fd(), RangeLock::Shared, LOCKS, LOCKS_LENGTH) != 0 {
        return Err(unlocked(rt, path, io::Error::from_raw_os_error(os::errno())));
    }
    let db = copy_file(rt.alloc(), &file)?;
    let log = copy_log(rt, path)?;
    Ok(Files { log, db })
}

/// Why the files can't be locked: another process has them, or the system gives no such lock.
fn unlocked(rt: &HostRuntime, path: &str, error: io::Error) -> Trouble {
    if error.kind() != io::ErrorKind::WouldBlock {
        return Trouble::from(error);
    }
    Trouble::Fault(if has_daemon(rt, path) {
        StorageFault::HeldByDaemon
    } else {
        StorageFault::HeldByAnother
    })
}

fn copy_log(rt: &HostRuntime, path: &str) -> Result<Memory, Trouble>
    ensures { IfOk result (λ copy. IsTrue (memory_is_usable copy)) }
{
    let log_path = beside(rt, path, true, "-wal")?;
    match File::open(rt, log_path.as_str()) {
        Ok(file) => copy_file(rt.alloc(), &file),
        Err(error) if error.kind() == io::ErrorKind::NotFound => Ok(Memory::new(rt.alloc())),
        Err(error) => Err(Trouble::from(error)),
    }
}

/// The bytes of a file.
fn copy_file(alloc: Global, file: &File) -> Result<Memory, Trouble>
    ensures { IfOk result (λ copy. IsTrue (memory_is_usable copy)) }
{
    let mut copy = Memory::new(alloc);
    copy_into(alloc, file, &mut copy)?;
    Ok(copy)
}

fn copy_into<D: Disk>(alloc: Global, file: &File, copy: &mut D) -> Result<(), Trouble>
    requires { IsTrue (D.Disk.is_usable copy.old) }
    ensures { IsTrue (D.Disk.is_usable copy.new) }
{
    let mut piece = room(alloc)?;
    let mut at = 0;
    'pieces: for _ in 0..usize::MAX {
        let length = file.read_at(&mut piece, at as u64)?;
        if length == 0 {
            break 'pieces;
        }
        copy.write_at(at, &piece[..length])?;
        at = at.saturating_add(length);
    }
    Ok(())
}

/// Room for the bytes of one read. It has no contract, so that no proof counts its bytes.
pub(crate) fn room(alloc: Global) -> Result<Vec<u8>, AllocError> {
    vec![in alloc; 0; PIECE]
}
