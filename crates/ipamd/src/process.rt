//! What the process was given: its words and its environment.
use ipam_text::Seq;
use std::alloc::AllocError;
use std::env;
use std::env::FillError;
use std::io::ErrorKind;
use std::rt::Env;

/// The bytes that an entry of the environment is first read into.
const FIRST_ROOM: usize = 256;

/// All words of the command line, with the program's name. None where one is no text.
pub(crate) fn all_words(rt: &HostRuntime) -> Result<Option<Vec<String>>, AllocError> {
    match env::args(rt) {
        Ok(args) => Ok(Some(kept(rt, args)?)),
        Err(error) if error.kind() == ErrorKind::InvalidData => Ok(None),
        Err(_) => Err(AllocError),
    }
}

fn kept(rt: &HostRuntime, args: env::Args) -> Result<Vec<String>, AllocError> {
    let mut words = Vec::new(rt.alloc());
    for word in args {
        words.push(word)?;
    }
    Ok(words)
}

/// The entries of the environment, in their order.
pub(crate) fn entries_of(rt: &HostRuntime) -> Result<Vec<Seq<u8>>, AllocError> {
    let mut entries = Vec::new(rt.alloc());
    for number in 0..usize::MAX {
        match entry_at(rt, number)? {
            Some(entry) => entries.push(entry)?,
            None => break,
        }
    }
    Ok(entries)
}

/// The entry of this number. None where there are no more.
fn entry_at(rt: &HostRuntime, number: usize) -> Result<Option<Seq<u8>>, AllocError> {
    let mut room = FIRST_ROOM;
    for _ in 0..usize::BITS {
        let mut entry = Vec::new(rt.alloc());
        entry.resize(room, 0u8)?;
        match rt.var_at(number, entry.as_mut_slice()) {
            Ok(length) => {
                entry.truncate(length);
                return Ok(Some(Seq::of(entry)));
            }
            Err(FillError::TooLong) => room = room.saturating_mul(2),
            Err(FillError::NotPresent) => return Ok(None),
        }
    }
    Err(AllocError)
}
