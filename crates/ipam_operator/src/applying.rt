//! `apply`: the resources of a document, one after another.
ghost use Rattle.std.specs.Prelude.{◌≡◌, ◌≤◌, ℕ, List, Ok, Result, IfOk, IfErr, IfSome, OnOk, length, string_bytes};
ghost use Rattle.std.specs.Io.KnownBytes.{IsAtEnd, prepend_known};
ghost use Rattle.ipam_resources.specs.Printed.{applied_line, fault_line as document_line, numbered_refusal, refused_line};
ghost use Rattle.ipam_operator.specs.Answers.{answer_of_line};
ghost use Rattle.ipam_operator.specs.Applying.{ApplyEnds, DocumentEnds, DocumentSays, IsKnown, IsTold, AskedResourcesEnd, TakesMemory, again_line, end_of_refusal, item_end, item_line, line_of_refusal, asked_outside_of};
ghost use Rattle.ipam_operator.specs.Asking.{Asks, request_line};
ghost use Rattle.ipam_operator.specs.Telling.{Says};
ghost use Rattle.ipam_operator.specs.declared.answer.OperatorAnswer.{OperatorAnswer as Found};
ghost use Rattle.ipam_operator.specs.declared.asking.AskFault.{AskFault as Fault};

use crate::answer::OperatorAnswer;
use crate::asking::{AskFault, REPLY_BYTES, ask_request};
use crate::end::End;
use crate::telling::{tell, tell_fault, tell_made};
use ipam_io::{InputFault, Lines, Link, Sink, Source, read_whole};
use ipam_model::Request;
use ipam_resources::{
    DOCUMENT_MAX, DocumentFault, Refusal, Resource, push_applied, push_document_fault,
    push_refused, read_resources,
};
use ipam_text::Text;
use std::alloc::{AllocError, Global};

/// Asks the daemon for each resource of the source's document, one after another, and writes a line for
/// each once it is applied, as the same word does over a file. The first that is refused ends the run.
///
/// The whole document is read and tested before anything is asked. It has at most 67,108,864 bytes.
pub fn apply<S: Source, K: Sink, L: Link>(
    alloc: Global,
    source: &mut S,
    sink: &mut K,
    link: &mut L,
) -> End
    ensures applied { (held : List ℕ) × ApplyEnds
        (S.left source.old) (S.left source.new) (S.read_faults source.old) (S.read_faults source.new)
        (asked_outside_of (L.written link.old) (L.write_faults link.old) (L.left link.old) (L.read_faults link.old)
        (K.written sink.old) (K.write_faults sink.old))
        (asked_outside_of (L.written link.new) (L.write_faults link.new) (prepend_known held (L.left link.new)) (L.read_faults link.new)
        (K.written sink.new) (K.write_faults sink.new)) result }
    ensures read_rest { S.read_rest source.new ≡ S.read_rest source.old }
    ensures write_rest { K.write_rest sink.new ≡ K.write_rest sink.old }
{
    match read_whole(alloc, source, DOCUMENT_MAX) {
        Ok(document) => apply_document(alloc, document.as_slice(), sink, link),
        Err(InputFault::Read) => tell(sink, "read fault\n", End::ReadFault),
        Err(InputFault::Memory) => End::NoMemory,
    }
}

/// Asks for the resources of the document.
fn apply_document<K: Sink, L: Link>(
    alloc: Global,
    document: &[u8],
    sink: &mut K,
    link: &mut L,
) -> End
    ensures ended { (held : List ℕ) × DocumentEnds document.now
        (asked_outside_of (L.written link.old) (L.write_faults link.old) (L.left link.old) (L.read_faults link.old)
        (K.written sink.old) (K.write_faults sink.old))
        (asked_outside_of (L.written link.new) (L.write_faults link.new) (prepend_known held (L.left link.new)) (L.read_faults link.new)
        (K.written sink.new) (K.write_faults sink.new)) result }
    ensures rest { K.write_rest sink.new ≡ K.write_rest sink.old }
{
    match read_resources(alloc, document) {
        Ok(resources) => {
            let mut lines = Lines::<REPLY_BYTES>::new(alloc);
            apply_all(alloc, sink, link, &mut lines, resources.into_vec())
        }
        Err(fault) => tell_document(alloc, sink, fault),
    }
}

/// Writes why the document was not read.
#[tactic(auto, unfolding(ipam_resources::specs::Printed::fault_line))]
fn tell_document<K: Sink>(alloc: Global, sink: &mut K, fault: DocumentFault) -> End
    ensures told { DocumentSays fault (K.written sink.old) (K.written sink.new)
        (K.write_faults sink.old) (K.write_faults sink.new) result }
    ensures rest { K.write_rest sink.new ≡ K.write_rest sink.old }
{
    match fault {
        DocumentFault::Long => tell(sink, "refused: long\n", End::Refused),
        DocumentFault::NotJson => tell(sink, "refused: not JSON\n", End::Refused),
        DocumentFault::Member(_) => tell_made(sink, fault_line(alloc, fault), End::Refused),
        DocumentFault::Memory => End::NoMemory,
    }
}

fn fault_line(alloc: Global, fault: DocumentFault) -> Result<String, AllocError>
    ensures { IfOk result (λ text. string_bytes text ≡ document_line fault) }
{
    let mut text = String::new(alloc);
    push_document_fault(alloc, &mut text, fault)?;
    Ok(text)
}

/// Asks for the resources, up to one at which the run ends.
fn apply_all<K: Sink, L: Link>(
    alloc: Global,
    sink: &mut K,
    link: &mut L,
    lines: &mut Lines<REPLY_BYTES>,
    resources: Vec<Resource>,
) -> End
    ensures ended { AskedResourcesEnd resources.items
        (asked_outside_of (L.written link.old) (L.write_faults link.old) (prepend_known lines.old (L.left link.old)) (L.read_faults link.old)
        (K.written sink.old) (K.write_faults sink.old))
        (asked_outside_of (L.written link.new) (L.write_faults link.new) (prepend_known lines.new (L.left link.new)) (L.read_faults link.new)
        (K.written sink.new) (K.write_faults sink.new)) result }
    ensures rest { K.write_rest sink.new ≡ K.write_rest sink.old }
{
    for resource in resources {
        match apply_one(alloc, sink, link, lines, resource) {
            End::Done => {}
            end => return end,
        }
    }
    End::Done
}

/// Asks for the resource, and writes what came of it. The run goes on where that is done.
fn apply_one<K: Sink, L: Link>(
    alloc: Global,
    sink: &mut K,
    link: &mut L,
    lines: &mut Lines<REPLY_BYTES>,
    resource: Resource,
) -> End
    ensures ended { (came : Result Found Fault) × IsTold resource came
        (asked_outside_of (L.written link.old) (L.write_faults link.old) (prepend_known lines.old (L.left link.old)) (L.read_faults link.old)
        (K.written sink.old) (K.write_faults sink.old))
        (asked_outside_of (L.written link.new) (L.write_faults link.new) (prepend_known lines.new (L.left link.new)) (L.read_faults link.new)
        (K.written sink.new) (K.write_faults sink.new)) result }
    ensures rest { K.write_rest sink.new ≡ K.write_rest sink.old }
{
    let Resource { kind, name, change } = resource;
    let request = Request::Admin(change);
    let came = ask_request(alloc, link, lines, &request);
    let change = request.into_change();
    let resource = Resource { kind, name, change };
    tell_item(alloc, sink, &resource, came)
}

/// Writes what became of the resource.
fn tell_item<K: Sink>(
    alloc: Global,
    sink: &mut K,
    resource: &Resource,
    came: Result<OperatorAnswer, AskFault>,
) -> End
    ensures told { Says (TakesMemory came) (K.written sink.old) (K.written sink.new)
        (K.write_faults sink.old) (K.write_faults sink.new) (item_line resource.now came) (item_end came) result }
    ensures rest { K.write_rest sink.new ≡ K.write_rest sink.old }
{
    match came {
        Ok(OperatorAnswer::Done) => tell_made(sink, applied_line(alloc, resource), End::Done),
        Ok(OperatorAnswer::Refused(number, name)) => {
            tell_numbered(alloc, sink, resource, number, name)
        }
        Ok(OperatorAnswer::Full) => {
            tell_made(
                sink,
                refused_line(alloc, resource, &Refusal::Full),
                End::Refused,
            )
        }
        Ok(OperatorAnswer::Spent) => {
            tell_made(
                sink,
                refused_line(alloc, resource, &Refusal::Spent),
                End::Refused,
            )
        }
        Ok(OperatorAnswer::Again) => { tell_made(sink, again_line(alloc, resource), End::Refused) }
        Ok(OperatorAnswer::Fault) => tell(sink, "keeper fault\n", End::KeeperFault),
        Ok(OperatorAnswer::Released) => tell(sink, "reply fault\n", End::ReplyFault),
        Ok(OperatorAnswer::NoAffinity) => tell(sink, "reply fault\n", End::ReplyFault),
        Err(fault) => tell_fault(sink, fault),
    }
}

fn applied_line(alloc: Global, resource: &Resource) -> Result<String, AllocError>
    ensures { IfOk result (λ text. string_bytes text ≡ applied_line resource.now) }
{
    let mut text = String::new(alloc);
    push_applied(alloc, &mut text, resource)?;
    Ok(text)
}

fn again_line(alloc: Global, resource: &Resource) -> Result<String, AllocError>
    ensures { IfOk result (λ text. string_bytes text ≡ again_line resource.now) }
{
    let mut text = String::new(alloc);
    text.push_str("refused ")?;
    text.push_str(resource.kind.text())?;
    text.push_str(" ")?;
    text.push_str(resource.name.as_str())?;
    text.push_str(": try again\n")?;
    Ok(text)
}

fn refused_line(alloc: Global, resource: &Resource, why: &Refusal) -> Result<String, AllocError>
    ensures { IfOk result (λ text. string_bytes text ≡ refused_line resource.now why.now) }
{
    let mut text = String::new(alloc);
    push_refused(alloc, &mut text, resource, why)?;
    Ok(text)
}

/// Writes the refusal of this number, about the pool of this name. No memory is taken where none has the number.
fn tell_numbered<K: Sink>(
    alloc: Global,
    sink: &mut K,
    resource: &Resource,
    number: u8,
    name: Text,
) -> End
    ensures told { Says (IsKnown (numbered_refusal number name)) (K.written sink.old) (K.written sink.new)
        (K.write_faults sink.old) (K.write_faults sink.new)
        (line_of_refusal resource.now (numbered_refusal number name)) (end_of_refusal (numbered_refusal number name)) result }
    ensures rest { K.write_rest sink.new ≡ K.write_rest sink.old }
{
    match numbered(number, name) {
        Some(why) => tell_made(sink, refused_line(alloc, resource, &why), End::Refused),
        None => tell(sink, "reply fault\n", End::ReplyFault),
    }
}

/// The refusal of this number.
#[tactic(auto, unfolding(ipam_resources::specs::Printed::numbered_refusal))]
fn numbered(number: u8, name: Text) -> Option<Refusal>
    ensures { result ≡ numbered_refusal number name }
{
    match number {
        1 => Some(Refusal::NameTaken),
        2 => Some(Refusal::Overlaps(name)),
        3 => Some(Refusal::BlockSize),
        4 => Some(Refusal::Prefix),
        5 => Some(Refusal::TooManyPools),
        7 => Some(Refusal::TooManyReservations),
        _ => None,
    }
}
