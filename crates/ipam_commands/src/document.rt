ghost use Rattle.std.specs.Prelude.{◌≡◌, ◌⊎◌, None};
ghost use Rattle.std.specs.Io.KnownBytes.{IsAtEnd};
ghost use Rattle.ipam_commands.specs.Applied.{ApplyEnds, DocumentEnds};
ghost use Rattle.ipam_keeper.specs.Outside.{outside_of};

use crate::lines::MakesLines;
use crate::reading::ReadsDocuments;
use crate::resources::apply_resources;
use crate::status::Status;
use crate::telling::{MakesBroken, tell};
use crate::told_apply::tell_document;
use ipam_io::{InputFault, Sink, Source};
use ipam_keeper::Keeper;
use ipam_resources::DOCUMENT_MAX;
use ipam_shared::{MakesSteps, OpensKept};
use std::alloc::Global;

/// Applies the resources of the source's document, one after another, each as a request that runs by itself
/// over the keeper's rows, and writes a line for each once it is applied. The first that is refused
/// ends the run.
///
/// The whole document is read and tested before the keeper is asked for anything. It has at most
/// 67,108,864 bytes.
pub fn apply<S: Source, K: Sink, D: Keeper>(
    alloc: Global,
    source: &mut S,
    sink: &mut K,
    keeper: &mut D,
) -> Status
    ensures applied { ApplyEnds (keeper.new ≡ keeper.old)
        (outside_of (S.left source.old) (S.read_faults source.old) (K.written sink.old) (K.write_faults sink.old) (D.rows keeper.old) (D.faults keeper.old))
        (outside_of (S.left source.new) (S.read_faults source.new) (K.written sink.new) (K.write_faults sink.new) (D.rows keeper.new) (D.faults keeper.new)) result }
    ensures whole { result ≡ Status.Done → IsAtEnd (S.left source.new) }
    ensures read_rest { S.read_rest source.new ≡ S.read_rest source.old }
    ensures write_rest { K.write_rest sink.new ≡ K.write_rest sink.old }
{
    apply_by(alloc, source, sink, keeper)
}

/// Reads the document, and applies its resources. It ends for want of memory only where reading the document found
/// none, or opening the rows, or a request, or a line that is written.
fn apply_by<
    T: ReadsDocuments + OpensKept + MakesBroken + MakesSteps + MakesLines + Copy + Drop,
    S: Source,
    K: Sink,
    D: Keeper,
>(alloc: T, source: &mut S, sink: &mut K, keeper: &mut D) -> Status
    ensures applied { ApplyEnds (keeper.new ≡ keeper.old)
        (outside_of (S.left source.old) (S.read_faults source.old) (K.written sink.old) (K.write_faults sink.old) (D.rows keeper.old) (D.faults keeper.old))
        (outside_of (S.left source.new) (S.read_faults source.new) (K.written sink.new) (K.write_faults sink.new) (D.rows keeper.new) (D.faults keeper.new)) result }
    ensures whole { result ≡ Status.Done → IsAtEnd (S.left source.new) }
    ensures want_of_memory_has_its_cause { result ≡ Status.NoMemory → T.ReadsDocuments.wants alloc ⊎ T.OpensKept.wants alloc
        ⊎ T.MakesBroken.wants alloc ⊎ T.MakesSteps.wants alloc ⊎ T.MakesLines.wants alloc }
    ensures read_rest { S.read_rest source.new ≡ S.read_rest source.old }
    ensures write_rest { K.write_rest sink.new ≡ K.write_rest sink.old }
{
    match alloc.read_whole(source, DOCUMENT_MAX) {
        Ok(document) => apply_document(alloc, document.as_slice(), sink, keeper),
        Err(InputFault::Read) => tell(sink, "read fault\n", Status::ReadFault),
        Err(InputFault::Memory) => Status::NoMemory,
    }
}

/// Applies the resources of the document.
fn apply_document<
    T: ReadsDocuments + OpensKept + MakesBroken + MakesSteps + MakesLines + Copy + Drop,
    K: Sink,
    D: Keeper,
>(alloc: T, document: &[u8], sink: &mut K, keeper: &mut D) -> Status
    ensures ended { DocumentEnds (keeper.new ≡ keeper.old) document.now
        (outside_of None 0 (K.written sink.old) (K.write_faults sink.old) (D.rows keeper.old) (D.faults keeper.old))
        (outside_of None 0 (K.written sink.new) (K.write_faults sink.new) (D.rows keeper.new) (D.faults keeper.new)) result }
    ensures want_of_memory_has_its_cause { result ≡ Status.NoMemory → T.ReadsDocuments.wants alloc ⊎ T.OpensKept.wants alloc
        ⊎ T.MakesBroken.wants alloc ⊎ T.MakesSteps.wants alloc ⊎ T.MakesLines.wants alloc }
    ensures rest { K.write_rest sink.new ≡ K.write_rest sink.old }
{
    match alloc.read_resources(document) {
        Ok(resources) => apply_resources(alloc, sink, keeper, resources),
        Err(fault) => tell_document(alloc, sink, fault),
    }
}
