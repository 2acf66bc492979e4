ghost use Rattle.std.specs.Prelude.{◌≡◌, ℕ, List, IfOk};
ghost use Rattle.ipam_model.specs.Remove.{is_live};

use ipam_text::Text;
use std::alloc::{AllocError, Global};
use std::collections::BTreeSet;
use std::marker::Model;

/// A list of live handles, whose ids are looked up in a time that grows with its logarithm.
#[derive(Drop)]
pub struct Live<'a> {
    list: &'a [Text],
    ids: BTreeSet<&'a str>,
}

impl<'a> Model for Live<'a> {
    ghost use Rattle.std.specs.Prelude.{◌≡◌, ℕ, List};
    ghost use Rattle.ipam_model.specs.Remove.{is_live};
    ghost use Rattle.ipam_collect.specs.Live.{has_id};

    ghost Value = { List (List ℕ) };

    ghost view = { λ l. l.list.now };

    ghost invariant = { λ l. (id : List ℕ) → has_id l.ids id ≡ is_live l.list.now id };
}

impl<'a> Live<'a> {
    /// The handle ids of the list.
    pub(crate) fn of(alloc: Global, list: &'a [Text]) -> Result<Live<'a>, AllocError>
        ensures { IfOk result (λ live. live ≡ list.now) }
    {
        let mut ids = BTreeSet::new(alloc);
        for id in list {
            ids.insert(id.as_str())?;
        }
        Ok(Live { list, ids })
    }

    /// Whether the handle of this id is live.
    pub(crate) fn has(&self, id: &str) -> bool
        ensures { result ≡ is_live self.now id.now }
    {
        self.ids.contains(id)
    }
}
