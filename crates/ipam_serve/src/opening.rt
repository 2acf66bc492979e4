//! What sessions have of the opening of the datastore.
use ipam_text::Text;
use std::alloc::Global;
use std::marker::Model;
use std::sync::{Mutex, MutexGuard, Wait};

/// The most bytes that many sessions may read at once. As JSON a byte takes up to 100.
const MOST_AT_ONCE: usize = 16_384;

/// How many bytes of room are taken before more is read, and given back last. Where so much is given
/// back at once, the C library gives the system what is free behind it.
const ROOM: usize = 98_304;

/// An opening of the datastore, which has a text for itself. Contracts see the bytes of the text.
#[derive(Drop)]
pub struct Opening {
    text: Text,
    // whoever holds it may read more than others may at once
    room: Mutex<Vec<u8>>,
}

impl Model for Opening {
    ghost use Rattle.std.specs.Prelude.{List, ℕ};

    ghost Value = { List ℕ };

    ghost view = { λ opening. opening.text };
}

impl Opening {
    ghost use Rattle.std.specs.Prelude.{◌≡◌};

    /// The opening with this text. No other opening of the datastore should have it.
    pub fn of(alloc: Global, text: Text) -> Opening
        ensures { result ≡ text }
    {
        Opening {
            text,
            room: Mutex::new(Vec::new(alloc)),
        }
    }

    /// The text, borrowed.
    pub fn text(&self) -> &str
        ensures { result.now ≡ self.now }
    {
        self.text.as_str()
    }

    /// The turn to read so many bytes, which few bytes need not. Sessions that read many do so one after
    /// another, so that together they take the memory of one.
    pub(crate) fn turn<R: Wait>(&self, rt: &R, bytes: usize) -> Turn<'_> {
        if bytes <= MOST_AT_ONCE {
            return Turn { room: None };
        }
        let mut room = self.room.lock(rt);
        let _ = room.reserve(ROOM);
        Turn { room: Some(room) }
    }
}

/// The turn to read many bytes, or none where they are few.
#[derive(Drop)]
pub(crate) struct Turn<'a> {
    room: Option<MutexGuard<'a, Vec<u8>>>,
}

impl<'a> Turn<'a> {
    /// Ends it, once what was read is let go.
    pub(crate) fn end(self) {
        if let Some(mut room) = self.room {
            room.shrink_to(0);
        }
    }
}
