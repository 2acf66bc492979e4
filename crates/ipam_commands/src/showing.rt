//! `show`: what an operator is shown of the rows.
ghost use Rattle.std.specs.Prelude.{◌≡◌};
ghost use Rattle.ipam_words.specs.Views.{seen_by};
ghost use Rattle.ipam_commands.specs.Telling.{ReportsRows, Writes};
ghost use Rattle.ipam_views.specs.Shown.{shown_text};

use crate::loading::Loaded;
use crate::reporting::{TellsRows, tell_rows};
use crate::status::Status;
use ipam_io::Sink;
use ipam_keeper::Keeper;
use ipam_views::shown_text;
use ipam_words::View;
use std::alloc::{AllocError, Global};

/// Writes what is asked of the pools, the blocks, an address or a node. No row changes.
pub fn show<K: Sink, D: Keeper>(
    alloc: Global,
    sink: &mut K,
    keeper: &mut D,
    view: &View<'_>,
) -> Status
    ensures told { ReportsRows (D.rows keeper.old) (D.faults keeper.old) (D.faults keeper.new) (λ rows store. shown_text (seen_by view.now) store)
        (λ text own. Writes (K.written sink.old) (K.written sink.new)
        (K.write_faults sink.old) (K.write_faults sink.new) text own result) }
    ensures same_rows { D.rows keeper.new ≡ D.rows keeper.old }
    ensures same { D.name keeper.new ≡ D.name keeper.old }
    ensures rest { K.write_rest sink.new ≡ K.write_rest sink.old }
{
    tell_rows(alloc, &Showing { alloc, view }, sink, keeper)
}

/// What is asked to be shown.
#[derive(Drop)]
struct Showing<'a, 'b> {
    alloc: Global,
    view: &'a View<'b>,
}

impl<'a, 'b> TellsRows for Showing<'a, 'b> {
    ghost wants = { λ _. Unit {0} };

    ghost says = { λ showing rows store. shown_text (seen_by showing.view.now) store };

    fn text(&self, loaded: &Loaded) -> Result<String, AllocError> {
        shown_text(self.alloc, self.view, &loaded.store)
    }
}
