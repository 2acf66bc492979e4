ghost use Rattle.std.specs.Prelude.{◌≡◌, [], ◌∷◌};

use ipam_model::Given;
use ipam_text::Seq;
use std::alloc::{AllocError, Global};
use std::marker::Model;

/// Memory to tell of the addresses of two families.
#[derive(Drop)]
pub struct Spare {
    given: Vec<Given>,
}

impl Model for Spare {
    ghost use Rattle.std.specs.Prelude.{◌≡◌, ◌≤◌, []};
    ghost use Rattle.std.specs.Vec.{vec_len, vec_capacity};

    ghost Value = { Unit {0} };

    ghost view = { λ r. tt };

    ghost invariant = { λ r. (r.given.items ≡ []) × (vec_len r.given ≡ 0) × (2 ≤ vec_capacity r.given) };
}

impl Spare {
    pub(crate) fn new(alloc: Global) -> Result<Spare, AllocError> {
        let given = Vec::with_capacity(alloc, 2)?;
        Ok(Spare { given })
    }

    /// The one address. Takes no memory.
    pub(crate) fn one(self, given: Given) -> Seq<Given>
        ensures { result ≡ given ∷ [] }
    {
        let mut list = self.given;
        list.push_reserved(given);
        Seq::of(list)
    }

    /// Both addresses. Takes no memory.
    pub(crate) fn two(self, first: Given, second: Given) -> Seq<Given>
        ensures { result ≡ first ∷ second ∷ [] }
    {
        let mut list = self.given;
        list.push_reserved(first);
        list.push_reserved(second);
        Seq::of(list)
    }
}
