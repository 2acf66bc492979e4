//! A text that is made piece by piece.
use std::alloc::{AllocError, Global};

/// The text so far. Where there was no memory for a piece, there is none for the whole.
#[derive(Drop)]
pub struct Told {
    text: String,
    is_lost: bool,
}

impl Told {
    pub fn new(alloc: Global) -> Told {
        Told {
            text: String::new(alloc),
            is_lost: false,
        }
    }

    pub fn push(&mut self, piece: Result<String, AllocError>) {
        let is_pushed = match piece {
            Ok(piece) => self.text.push_str(piece.as_str()).is_ok(),
            Err(_) => false,
        };
        if !is_pushed {
            self.is_lost = true;
        }
    }

    /// Appends the text as a line.
    pub fn push_line(&mut self, line: &str) {
        let is_pushed = self.text.push_str(line).is_ok() && self.text.push_str("\n").is_ok();
        if !is_pushed {
            self.is_lost = true;
        }
    }

    pub fn into_text(self) -> Result<String, AllocError> {
        let Told { text, is_lost } = self;
        if is_lost { Err(AllocError) } else { Ok(text) }
    }
}
