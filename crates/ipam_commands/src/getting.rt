//! `get` and `get KIND`: writes the rows.
ghost use Rattle.std.specs.Prelude.{◌≡◌};
ghost use Rattle.ipam_commands.specs.Telling.{ReportsRows, Writes};
ghost use Rattle.ipam_show.specs.Rows.{rows_text};

use crate::loading::Loaded;
use crate::reporting::{TellsRows, tell_rows};
use crate::status::Status;
use ipam_io::Sink;
use ipam_keeper::Keeper;
use ipam_show::rows_text;
use ipam_words::RowKind;
use std::alloc::{AllocError, Global};

/// Writes a line for each row, or for each of the kind: its key, its revision and its body. The rows
/// stand by their keys.
pub fn get<K: Sink, D: Keeper>(
    alloc: Global,
    sink: &mut K,
    keeper: &mut D,
    kind: Option<RowKind>,
) -> Status
    ensures told { ReportsRows (D.rows keeper.old) (D.faults keeper.old) (D.faults keeper.new) (λ rows store. rows_text kind rows)
        (λ text own. Writes (K.written sink.old) (K.written sink.new)
        (K.write_faults sink.old) (K.write_faults sink.new) text own result) }
    ensures same_rows { D.rows keeper.new ≡ D.rows keeper.old }
    ensures same { D.name keeper.new ≡ D.name keeper.old }
    ensures rest { K.write_rest sink.new ≡ K.write_rest sink.old }
{
    tell_rows(alloc, &Getting { alloc, kind }, sink, keeper)
}

/// The rows of this kind, or all of them.
#[derive(Drop)]
struct Getting {
    alloc: Global,
    kind: Option<RowKind>,
}

impl TellsRows for Getting {
    ghost wants = { λ _. Unit {0} };

    ghost says = { λ getting rows store. rows_text getting.kind rows };

    fn text(&self, loaded: &Loaded) -> Result<String, AllocError> {
        rows_text(self.alloc, self.kind, &loaded.rows)
    }
}
