ghost use Rattle.std.specs.Prelude.{◌≡◌, ◌++◌, [], ◌∷◌, IfOk};
ghost use Rattle.std.specs.Option.{option_copied};
ghost use Rattle.ipam_collect.specs.Tally.{first_in, finished};

use crate::suspect::Suspect;
use ipam_model::Item;
use ipam_text::Seq;
use std::alloc::{AllocError, Global};
use std::collections::VecDeque;
use std::marker::Model;
use std::mem;

/// The items of the leaks that are done with, and the leaks that are left, the first of which is
/// being freed. There is memory for the items of all.
pub struct Tally {
    items: Vec<Item>,
    left: VecDeque<Suspect>,
}

impl Drop for Tally {
    fn drop(self) {
        let Tally { items: _, left: _ } = self;
    }
}

impl Model for Tally {
    ghost use Rattle.std.specs.Prelude.{List, ◌+◌, ◌≤◌};
    ghost use Rattle.std.specs.Vec.{vec_len, vec_capacity};
    ghost use Rattle.std.specs.VecDeque.{deque_len};
    ghost use Rattle.ipam_model.specs.declared.answer.Item.{Item as Told};
    ghost use Rattle.ipam_model.specs.Remove.{Leak};

    ghost Value = { List Told × List Leak };

    ghost view = { λ t. (t.items.items, t.left.items) };

    ghost invariant = { λ t. vec_len t.items + deque_len t.left ≤ vec_capacity t.items };
}

impl Tally {
    /// A tally of which all leaks are left.
    pub(crate) fn new(alloc: Global, leaks: Seq<Suspect>) -> Result<Tally, AllocError>
        ensures { IfOk result (λ t. t ≡ ([], leaks)) }
    {
        let items = Vec::with_capacity(alloc, leaks.len())?;
        let left = VecDeque::from_vec(leaks.into_vec());
        Ok(Tally { items, left })
    }

    /// The leak that is being freed. Takes no memory.
    pub(crate) fn first(&self) -> Option<&Suspect>
        ensures { option_copied result ≡ first_in self.now.1 }
    {
        self.left.front()
    }

    /// The first of the leaks is done with: it was freed here, or found gone. Takes no memory.
    pub(crate) fn finish(&mut self, freed: bool)
        ensures { self.new ≡ finished freed self.old.0 self.old.1 }
    {
        if let Some(leak) = self.left.pop_front() {
            self.items.push_reserved(leak.into_item(freed));
        }
    }

    /// The items of all leaks, once none is left. Takes no memory.
    pub(crate) fn take_items(&mut self) -> Seq<Item>
        requires { self.old.1 ≡ [] }
        ensures { result ≡ self.old.0 }
    {
        let none = Vec::new(*self.items.allocator());
        Seq::of(mem::replace(&mut self.items, none))
    }
}
