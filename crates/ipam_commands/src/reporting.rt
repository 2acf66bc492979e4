//! What a command tells of a keeper's rows.
ghost use Rattle.std.specs.Prelude.{◌≡◌, ◌⊎◌, ℕ, List, IfOk, OnErr, string_bytes};
ghost use Rattle.ipam_records.specs.declared.call.Row.{Row as RowText};
ghost use Rattle.ipam_records.specs.Datastore.{Datastore};
ghost use Rattle.ipam_model.specs.Opened.{OpensAs};
ghost use Rattle.ipam_shared.specs.Rows.{texts_loaded};
ghost use Rattle.ipam_commands.specs.Telling.{ReportsRows, Writes};

use crate::loading::{Loaded, OpensRows, load};
use crate::status::Status;
use crate::telling::{MakesBroken, tell_fault, tell_made};
use ipam_io::Sink;
use ipam_keeper::Keeper;
use std::alloc::AllocError;

/// A text about rows, with what takes the memory for it. What is generic over it knows nothing of it, and so
/// can't state by itself that it found none.
pub(crate) trait TellsRows {
    /// It found no memory.
    ghost wants: { Self → Type 0 };

    /// The text about these rows, which open as this datastore.
    ghost says: { Self → List RowText → Datastore → List ℕ };

    /// Makes the text about the rows that were loaded.
    fn text(&self, loaded: &Loaded) -> Result<String, AllocError>
        requires { OpensAs (texts_loaded loaded.now.rows.items) loaded.now.store.store }
        ensures said { IfOk result (λ text. string_bytes text ≡ says self.now loaded.now.rows.items loaded.now.store.store) }
        ensures wants { OnErr result (wants self.now) };
}

/// Writes this text about the keeper's rows, or why they were not opened. No row changes. It ends for want of
/// memory only where opening the rows found none, or the line on broken rows, or the text.
pub(crate) fn tell_rows<A: OpensRows + MakesBroken + Copy + Drop, T: TellsRows, K: Sink, D: Keeper>(
    alloc: A,
    tells: &T,
    sink: &mut K,
    keeper: &mut D,
) -> Status
    ensures told { ReportsRows (D.rows keeper.old) (D.faults keeper.old) (D.faults keeper.new) (T.says tells.now)
        (λ text own. Writes (K.written sink.old) (K.written sink.new)
        (K.write_faults sink.old) (K.write_faults sink.new) text own result) }
    ensures want_of_memory_has_its_cause { result ≡ Status.NoMemory
        → A.OpensRows.wants alloc ⊎ A.MakesBroken.wants alloc ⊎ T.wants tells.now }
    ensures same_rows { D.rows keeper.new ≡ D.rows keeper.old }
    ensures same { D.name keeper.new ≡ D.name keeper.old }
    ensures rest { K.write_rest sink.new ≡ K.write_rest sink.old }
{
    match load(alloc, keeper) {
        Ok(loaded) => {
            let text = tells.text(&loaded);
            tell_made(sink, text, Status::Done)
        }
        Err(fault) => tell_fault(alloc, sink, fault),
    }
}
