// A book that many write into.
ghost use Rattle.std.specs.Prelude.{◌≡◌, ◌∷◌, ◌++◌, ℕ, []};

use std::alloc::Global;
use std::collections::VecDeque;
use turn_lock::{Booked, Step};

/// What one writer wrote: its number, how many notes it had written before, and a text.
#[derive(Drop)]
pub struct Note {
    pub by: u8,
    pub place: u64,
    pub text: String,
}

/// The notes, the newest first.
#[derive(Drop)]
pub struct Book {
    pub first: u64,
    pub notes: VecDeque<Note>,
}

impl Book {
    /// A book with no notes.
    pub fn new(alloc: Global, first: u64) -> Book
        ensures { (result.first ≡ first) × (result.notes.items ≡ []) }
    {
        Book {
            first,
            notes: VecDeque::new(alloc),
        }
    }
}

impl Booked for Book {
    type Origin = u64;

    type Entry = Note;

    ghost by = { λ note. note.by };

    ghost start = { λ book. book.first };

    ghost first = { λ origin. 0 };

    ghost stands = { λ book origin history. (book.first ≡ origin) × (book.notes.items ≡ history) };

    fn entries(&self) -> u64 {
        self.notes.len() as u64
    }
}

/// Adds a note. Answers whether there was memory for it.
#[derive(Drop)]
pub struct Write {
    pub note: Note,
}

impl Step<Book> for Write {
    type Out = bool;

    ghost use Rattle.ipam_tests.specs.Written.{written};

    ghost by = { λ write. write.note.by };

    ghost can = { λ write book. Unit {0} };

    ghost does = { λ write before wrote after. after.notes.items ≡ written write wrote ++ before.notes.items };

    ghost adds = { λ write before wrote after. written write wrote };

    fn run(self, value: &mut Book) -> bool {
        let Write { note } = self;
        match value.notes.push_front(note) {
            Ok(()) => true,
            Err(failed) => {
                drop(failed.value);
                false
            }
        }
    }
}
