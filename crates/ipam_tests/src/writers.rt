// Threads that write into one book.
ghost use Rattle.std.specs.Prelude.{◌≡◌, ◌+◌, ◌-◌, ◌++◌, IfSome};
ghost use denote.Param.Send.{IsSync};
ghost use Rattle.turn_lock.specs.Histories.{Grew};
ghost use Rattle.ipam_tests.specs.Written.{Wrote};

use crate::book::{Book, Note, Write};
use std::alloc::Global;
use std::sync::Wait;
use std::thread::{Threads, join};
use turn_lock::{TurnLock, Turns};

/// A pass of a book.
pub type Pass = Turns<u64, Note>;

/// Writes one note, by a turn of the pass. There is no answer where the pass has no turn left.
pub fn write<R: Wait>(rt: &R, lock: &TurnLock<Book>, pass: &mut Pass, note: Note) -> Option<bool>
    requires lock { pass.old.lock ≡ lock.now }
    requires by { note.by ≡ pass.old.number }
    ensures same { (pass.new.lock ≡ pass.old.lock) × (pass.new.number ≡ pass.old.number) }
    ensures wrote { IfSome result (λ wrote. (pass.new.left + 1 ≡ pass.old.left) × Wrote note wrote pass.old.number pass.old.seen pass.new.seen) }
{
    match lock.turn(rt, pass, Write { note }) {
        Ok(wrote) => Some(wrote),
        Err(_) => None,
    }
}

/// The number that the text of a note has.
pub(crate) fn number_of(by: u8, place: u64) -> u64 {
    place.wrapping_mul(256).wrapping_add(u64::from(by))
}

/// Writes so many notes. It stops early where there is no memory.
pub fn write_all<R: Wait>(
    rt: &R,
    alloc: Global,
    lock: &TurnLock<Book>,
    mut pass: Pass,
    count: u64,
) -> Pass
    requires { pass.lock ≡ lock.now }
    ensures { result.lock ≡ lock.now }
{
    let by = pass.number();
    for place in 0..count {
        let Ok(text) = format!(in alloc; "{}", number_of(by, place)) else {
            break;
        };
        if write(rt, lock, &mut pass, Note { by, place, text }) != Some(true) {
            break;
        }
    }
    pass
}

/// Splits off `others` passes, and writes with each pass in a thread of its own. A pass that was split off has
/// too few turns to be split again, so the one that is passed here makes them all.
pub fn spread<R: Threads + Wait + Sync>(
    rt: &R,
    alloc: Global,
    lock: &TurnLock<Book>,
    mut pass: Pass,
    others: u32,
    count: u64,
) -> Pass
    requires { pass.lock ≡ lock.now }
    ensures { result.lock ≡ lock.now }
{
    if others == 0 {
        return write_all(rt, alloc, lock, pass, count);
    }
    let Some(other) = lock.split(&mut pass) else {
        return write_all(rt, alloc, lock, pass, count);
    };
    let more = others - 1;
    let (mut into, other) = join(
        rt,
        move || -> Pass
            requires { IsSync R.row × (pass.lock ≡ lock.now) }
            ensures { result.lock ≡ lock.entry.now }
        { spread(rt, alloc, lock, pass, more, count) },
        move || -> Pass
            requires { IsSync R.row × (other.lock ≡ lock.now) }
            ensures { result.lock ≡ lock.entry.now }
        { write_all(rt, alloc, lock, other, count) },
    );
    lock.join(&mut into, other);
    into
}
