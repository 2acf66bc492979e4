//! What is written of a script.
ghost use Rattle.std.specs.Prelude.{◌≡◌, ◌++◌, List, ℕ, Option, OnOk, OnErr};
ghost use Rattle.std.specs.Io.KnownBytes.{append_known};
ghost use Rattle.ipam_io.specs.Counts.{Rose};
ghost use Rattle.ipam_io.specs.Streams.{AppendsPrefix};
ghost use Rattle.ipam_model.specs.declared.entry.Entry.{Entry};
ghost use Rattle.ipam_play.specs.Output.{journal_text};
ghost use Rattle.ipam_play.specs.Writing.{AreFew, Wrote, joined};

use ipam_answer_text::push_entry;
use ipam_io::{Failed, Sink};
use ipam_model::Entry;
use std::alloc::{AllocError, Global};

/// How many bytes are worth a write.
const LARGE: usize = 65_536;

/// Lines of a journal that are to be written.
#[derive(Drop)]
pub(crate) struct Output {
    pub(crate) text: String,
}

impl Output {
    ghost use Rattle.ipam_play.specs.Writing.{held_in};

    /// Takes the lines of the entries. Where there is no memory it has some of them.
    pub(crate) fn take(&mut self, alloc: Global, entries: &[Entry]) -> Result<(), AllocError>
        ensures { OnOk result (held_in self.new ≡ held_in self.old ++ journal_text entries.now) }
    {
        for entry in entries {
            push_entry(alloc, &mut self.text, entry)?;
        }
        Ok(())
    }

    /// Writes its lines, once they are worth it.
    pub(crate) fn write_large<K: Sink>(&mut self, sink: &mut K) -> Result<(), Failed>
        ensures wrote { (first : Option (List ℕ)) (past : List Entry) → Wrote first (K.written sink.old) (held_in self.old) past
            → OnOk result (Wrote first (K.written sink.new) (held_in self.new) past) }
        ensures few { OnOk result (AreFew (held_in self.new)) }
        ensures part { OnErr result (AppendsPrefix (K.written sink.old) (K.written sink.new) (held_in self.old)) }
        ensures fault { OnErr result (Rose (K.write_faults sink.old) (K.write_faults sink.new)) }
        ensures no_fault { OnOk result (K.write_faults sink.new ≡ K.write_faults sink.old) }
        ensures rest { K.write_rest sink.new ≡ K.write_rest sink.old }
    {
        if self.text.len() < LARGE {
            return Ok(());
        }
        sink.write(self.text.as_bytes())?;
        self.text.clear();
        Ok(())
    }

    /// Writes its lines, and after them the pieces of a last one. It takes no memory.
    pub(crate) fn end<K: Sink>(&self, sink: &mut K, last: &[&str]) -> Result<(), Failed>
        ensures wrote { OnOk result (K.written sink.new ≡ append_known (K.written sink.old) (held_in self.now ++ joined last.now)) }
        ensures part { OnErr result (AppendsPrefix (K.written sink.old) (K.written sink.new) (held_in self.now ++ joined last.now)) }
        ensures fault { OnErr result (Rose (K.write_faults sink.old) (K.write_faults sink.new)) }
        ensures no_fault { OnOk result (K.write_faults sink.new ≡ K.write_faults sink.old) }
        ensures rest { K.write_rest sink.new ≡ K.write_rest sink.old }
    {
        sink.write(self.text.as_bytes())?;
        write_pieces(sink, last)
    }
}

/// Writes the pieces, one after another.
fn write_pieces<K: Sink>(sink: &mut K, pieces: &[&str]) -> Result<(), Failed>
    ensures wrote { OnOk result (K.written sink.new ≡ append_known (K.written sink.old) (joined pieces.now)) }
    ensures part { OnErr result (AppendsPrefix (K.written sink.old) (K.written sink.new) (joined pieces.now)) }
    ensures fault { OnErr result (Rose (K.write_faults sink.old) (K.write_faults sink.new)) }
    ensures no_fault { OnOk result (K.write_faults sink.new ≡ K.write_faults sink.old) }
    ensures rest { K.write_rest sink.new ≡ K.write_rest sink.old }
{
    for piece in pieces {
        sink.write(piece.as_bytes())?;
    }
    Ok(())
}
