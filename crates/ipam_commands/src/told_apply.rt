//! Writes what came of a resource or a document.
ghost use Rattle.std.specs.Prelude.{◌≡◌, ◌≢◌, ◌⊎◌, IsSome};
ghost use Rattle.ipam_resources.specs.Printed.{HasFixedLine, answer_refusal};
ghost use Rattle.ipam_commands.specs.Telling.{Writes};
ghost use Rattle.ipam_commands.specs.ToldApply.{MayBeTold, TellsAnswer, TellsApplied, TellsFault, TellsRefused};

use crate::lines::MakesLines;
use crate::reading::ReadsDocuments;
use crate::status::Status;
use crate::step::Step;
use crate::telling::{tell, tell_made};
use ipam_io::Sink;
use ipam_model::Answer;
use ipam_resources::{DocumentFault, Resource};
use std::alloc::AllocError;

/// Tells what the resource's request was answered.
pub(crate) fn tell_answer<T: MakesLines + Copy + Drop, K: Sink>(
    alloc: T,
    sink: &mut K,
    resource: &Resource,
    answer: &Answer,
) -> Step
    requires { MayBeTold answer.now }
    ensures told { TellsAnswer resource.now answer.now (λ text own end. Writes (K.written sink.old) (K.written sink.new)
        (K.write_faults sink.old) (K.write_faults sink.new) text own end) result }
    ensures want_of_memory_has_its_cause { result ≡ Step.Ended Status.NoMemory → T.wants alloc }
    ensures rest { K.write_rest sink.new ≡ K.write_rest sink.old }
{
    match answer {
        Answer::Done(_) => tell_applied(alloc, sink, resource),
        Answer::Fault => Step::Ended(tell(sink, "keeper fault\n", Status::KeeperFault)),
        _ => Step::Ended(tell_refused(alloc, sink, resource, answer)),
    }
}

/// Tells that the resource is applied.
fn tell_applied<T: MakesLines + Copy + Drop, K: Sink>(
    alloc: T,
    sink: &mut K,
    resource: &Resource,
) -> Step
    ensures told { TellsApplied resource.now (λ text own end. Writes (K.written sink.old) (K.written sink.new)
        (K.write_faults sink.old) (K.write_faults sink.new) text own end) result }
    ensures want_of_memory_has_its_cause { result ≡ Step.Ended Status.NoMemory → T.wants alloc }
    ensures rest { K.write_rest sink.new ≡ K.write_rest sink.old }
{
    let line = alloc.applied_line(resource);
    match tell_made(sink, line, Status::Done) {
        Status::Done => Step::Applied,
        end => Step::Ended(end),
    }
}

/// Tells why the resource is refused.
fn tell_refused<T: MakesLines + Copy + Drop, K: Sink>(
    alloc: T,
    sink: &mut K,
    resource: &Resource,
    answer: &Answer,
) -> Status
    requires { IsSome (answer_refusal answer.now) }
    ensures told { TellsRefused resource.now answer.now (λ text own end. Writes (K.written sink.old) (K.written sink.new)
        (K.write_faults sink.old) (K.write_faults sink.new) text own end) result }
    ensures want_of_memory_has_its_cause { result ≡ Status.NoMemory → T.wants alloc }
    ensures rest { K.write_rest sink.new ≡ K.write_rest sink.old }
{
    match alloc.refusal(answer) {
        Ok(Some(refusal)) => {
            let line = alloc.refused_line(resource, &refusal);
            tell_made(sink, line, Status::Refused)
        }
        Ok(None) => unreachable!(),
        Err(AllocError) => Status::NoMemory,
    }
}

/// Tells why the document is refused, where it is not for want of memory. A line that is the same for each
/// document takes no memory.
#[tactic(auto, unfolding(ipam_resources::specs::Printed::fault_line))]
pub(crate) fn tell_document<T: ReadsDocuments + Drop, K: Sink>(
    alloc: T,
    sink: &mut K,
    fault: DocumentFault,
) -> Status
    ensures told { TellsFault fault (λ text own end. Writes (K.written sink.old) (K.written sink.new)
        (K.write_faults sink.old) (K.write_faults sink.new) text own end) result }
    ensures fixed { HasFixedLine fault → result ≢ Status.NoMemory }
    ensures want_of_memory_has_its_cause { result ≡ Status.NoMemory → (fault ≡ DocumentFault.Memory) ⊎ T.wants alloc }
    ensures untold { fault ≡ DocumentFault.Memory → K.written sink.new ≡ K.written sink.old }
    ensures no_fault { fault ≡ DocumentFault.Memory → K.write_faults sink.new ≡ K.write_faults sink.old }
    ensures rest { K.write_rest sink.new ≡ K.write_rest sink.old }
{
    match fault {
        DocumentFault::Long => tell(sink, "refused: long\n", Status::Refused),
        DocumentFault::NotJson => tell(sink, "refused: not JSON\n", Status::Refused),
        DocumentFault::Member(_) => {
            let line = alloc.fault_line(fault);
            tell_made(sink, line, Status::Refused)
        }
        DocumentFault::Memory => Status::NoMemory,
    }
}
