ghost use Rattle.std.specs.Prelude.{◌≡◌, ℕ, ◌<◌, ◌++◌, [], ◌∷◌, length, IfOk, OnOk, OnErr, slice_get, slice_index_or};
ghost use Rattle.std.specs.List.{AllZip};

use std::alloc::{AllocError, Global};
use std::marker::Model;

/// A sequence of items, which contracts see as the list of them.
#[derive(Debug)]
pub struct Seq<T> {
    vec: Vec<T>,
}

// Written out, as for a text.
impl<T: Drop> Drop for Seq<T> {
    fn drop(self) {
        let Seq { vec: _ } = self;
    }
}

impl<T> Model for Seq<T> {
    ghost use Rattle.std.specs.Prelude.{ℕ, List};

    ghost Value = { List T };

    ghost view = { λ s. s.vec.items };
}

impl<T> Seq<T> {
    ghost use Rattle.std.specs.Vec.{vec_len};

    /// No items, with no memory taken.
    pub fn new(alloc: Global) -> Seq<T>
        ensures { result ≡ [] }
    {
        Seq {
            vec: Vec::new(alloc),
        }
    }

    /// The items of a `Vec`, with nothing copied.
    pub fn of(vec: Vec<T>) -> Seq<T>
        ensures { result ≡ vec.items }
    {
        Seq { vec }
    }

    /// The items as a `Vec`, with nothing copied.
    pub fn into_vec(self) -> Vec<T>
        ensures { result.items ≡ self }
    {
        let Seq { vec } = self;
        vec
    }

    /// The items, borrowed.
    pub fn as_slice(&self) -> &[T]
        ensures { result.now ≡ self.now }
    {
        self.vec.as_slice()
    }

    /// How many items there are.
    pub fn len(&self) -> usize
        ensures { result ≡ length self.now }
    {
        self.vec.len()
    }

    /// Appends the item. Where there is no memory for it, the sequence is as it was.
    pub fn push(&mut self, item: T) -> Result<(), AllocError>
    where
        T: Drop,
        ensures ok { OnOk result (self.new ≡ self.old ++ item ∷ []) }
        ensures err { OnErr result (self.new ≡ self.old) }
    {
        self.vec.push(item)?;
        Ok(())
    }
}

impl<T: Clone> Clone for Seq<T> {
    ghost is_clone = { λ old new. AllZip T.is_clone old new };

    fn clone(&self) -> Result<Seq<T>, AllocError> {
        let vec = self.vec.clone()?;
        Ok(Seq { vec })
    }
}
