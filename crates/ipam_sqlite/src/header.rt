//! What the header of a database file tells of its past.
use crate::fault::Trouble;
use std::fs::File;
use std::io;
use std::os::unix::fs::FileExt;

/// Where the header has two numbers of four bytes: how often SQLite changed the file, and its pages.
const COUNTS: u64 = 24;

/// No change, and one page.
const AS_MADE: [u8; 8] = [0, 0, 0, 0, 0, 0, 0, 1];

/// Whether the file itself, without its log, is as the first opening leaves it, or not yet so far: no table
/// was ever in it. What opens files here leaves the count of changes at 0, which SQLite never does. A
/// table takes a page more, and a file that has lost its table keeps that page until SQLite packs it.
pub(crate) fn is_as_made(rt: &HostRuntime, path: &str) -> Result<bool, Trouble> {
    let mut counts = [0; 8];
    match File::open(rt, path)?.read_exact_at(&mut counts, COUNTS) {
        Ok(()) => Ok(counts == AS_MADE),
        Err(error) if error.kind() == io::ErrorKind::UnexpectedEof => Ok(true),
        Err(error) => Err(Trouble::from(error)),
    }
}
