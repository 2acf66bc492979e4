//! Whether answered writes stand behind damage in a log. It is asked before the database is opened, since opening
//! it takes the log as far as it is whole, and then writes over the rest.
//!
//! SQLite's format: a header of 32 bytes, and then frames of 24 bytes and a page each. The header and each frame
//! have the log's salt, which a fold changes. The last frame of a write commits it: there four bytes are not 0.
//! The kit writes the first byte of the header, and that of the salt in the first frame of a write, last of all. So
//! where one of them is shut, nothing behind it was ever answered.
ghost use Rattle.std.specs.Prelude.{IsTrue, OnOk};

use crate::copied::room;
use crate::fault::{StorageFault, Trouble};
use sqlite::Files;
use sqlite_disk::Disk;
use sqlite_wal::{Error, checksum_of, probe_frames, probe_page_size};
use std::alloc::Global;
use std::io;

const HEADER: usize = 32;

const FRAME_HEADER: usize = 24;

/// How many writes one that a kill or a power failure has torn may seem to have: its own.
const TORN: u32 = 1;

/// How many bytes of the log opening it takes. It is a fault that more than one write seems to end at or behind the first
/// frame that is not whole, or that the header is damaged. Where the header is too short or shut, the database file has
/// all rows by itself: a fold shuts the header while the frames still stand, so that a header that damage shut looks the
/// same. Nor is it seen that damage took the mark of its end from the last write but one.
pub(crate) fn check_log<D: Disk>(alloc: Global, files: &mut Files<D>) -> Result<usize, Trouble>
    requires log { IsTrue (D.Disk.is_usable files.old.log) }
    requires db { IsTrue (D.Disk.is_usable files.old.db) }
    ensures log { IsTrue (D.Disk.is_usable files.new.log) }
    ensures db { IsTrue (D.Disk.is_usable files.new.db) }
{
    if files.log.len()? < HEADER + FRAME_HEADER {
        return Ok(0);
    }
    let mut head = [0; HEADER];
    files.log.read_at(0, &mut head)?;
    if head[0] == 0 {
        return Ok(0);
    }
    if !is_signed(&head) {
        return Err(Trouble::Fault(StorageFault::LogDamaged));
    }
    let Some(size) = probe_page_size(files)? else {
        return Ok(0);
    };
    let taken = probe_frames(alloc, &mut files.log, size)?.len();
    match commits_from(&mut files.log, &head, size.bytes(), taken)? {
        commits if commits > TORN => Err(Trouble::Fault(StorageFault::LogDamaged)),
        _ => Ok(place_of(size.bytes(), taken)),
    }
}

/// Writes so many bytes of the log again as they are, and puts them on the disk. After a sync that failed the system
/// may count bytes as written that the disk has not got. No later sync writes those, and a crash would take back all
/// that stands behind them.
pub(crate) fn write_again<D: Disk>(alloc: Global, log: &mut D, length: usize) -> Result<(), Trouble>
    requires { IsTrue (D.Disk.is_usable log.old) }
    ensures { OnOk result (IsTrue (D.Disk.is_usable log.new)) }
{
    if length == 0 {
        return Ok(());
    }
    let mut piece = room(alloc)?;
    let mut at = 0;
    'pieces: for _ in 0..usize::MAX {
        let count = length.saturating_sub(at).min(piece.len());
        if count == 0 {
            break 'pieces;
        }
        log.read_at(at, &mut piece[..count])?;
        log.write_at(at, &piece[..count])?;
        at = at.saturating_add(count);
    }
    log.sync()?;
    Ok(())
}

impl From<Error> for Trouble {
    fn from(error: Error) -> Trouble {
        match error {
            Error::OutOfMemory => Trouble::Memory,
            Error::Io(error) => Trouble::from(error),
            _ => Trouble::Fault(StorageFault::NotADatabase),
        }
    }
}

/// Whether the header has its own checksum.
fn is_signed(head: &[u8; HEADER]) -> bool {
    let (first, second) = checksum_of(head[3] == 0x83, (0, 0), &head[..24]);
    head[..3] == [0x37, 0x7f, 0x06][..]
        && head[24..28] == first.to_be_bytes()[..]
        && head[28..32] == second.to_be_bytes()[..]
}

/// How many frames that commit stand one after another from this frame on, which recovery would not take. None do
/// where its gate is shut. It stops at the second one.
fn commits_from<D: Disk>(
    log: &mut D,
    head: &[u8; HEADER],
    page_size: usize,
    from: usize,
) -> io::Result<u32>
    requires { IsTrue (D.Disk.is_usable log.old) }
    ensures { IsTrue (D.Disk.is_usable log.new) }
{
    let length = log.len()?;
    let mut frame = [0; FRAME_HEADER];
    let mut commits = 0;
    'frames: for number in from..usize::MAX {
        let at = place_of(page_size, number);
        if commits > TORN || at > length || length - at < FRAME_HEADER {
            break 'frames;
        }
        log.read_at(at, &mut frame)?;
        if is_end(head, &frame, number == from) {
            break 'frames;
        }
        if frame[4..8] != [0; 4][..] {
            commits += 1;
        }
    }
    Ok(commits)
}

/// Where a frame begins in the log.
fn place_of(page_size: usize, number: usize) -> usize {
    number
        .saturating_mul(FRAME_HEADER.saturating_add(page_size))
        .saturating_add(HEADER)
}

/// Whether no write of this log begins at the frame, or goes on there: its gate is shut, or its salt is another. The
/// salt of the first one may be what is damaged.
fn is_end(head: &[u8; HEADER], frame: &[u8; FRAME_HEADER], is_first: bool) -> bool {
    let shut = if head[16] == 0 { 1 } else { 0 };
    if is_first {
        frame[8] == shut
    } else {
        frame[8..16] != head[16..24]
    }
}
