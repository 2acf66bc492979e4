//! `release NODE CIDR`: a node gives up a block.
ghost use Rattle.std.specs.Prelude.{◌≡◌, ℕ, List, Result, Ok, Err, IfOk};
ghost use Rattle.std.specs.Io.KnownBytes.{prepend_known};
ghost use Rattle.ipam_model.specs.declared.request.Request.TheVariants.{Release};
ghost use Rattle.ipam_operator.specs.declared.answer.OperatorAnswer.{OperatorAnswer as Answer};
ghost use Rattle.ipam_operator.specs.declared.asking.AskFault.{AskFault as Fault};
ghost use Rattle.ipam_operator.specs.Answers.{answer_of_line};
ghost use Rattle.ipam_operator.specs.Asking.{Asks, request_line};
ghost use Rattle.ipam_operator.specs.Releasing.{release_end, release_line};
ghost use Rattle.ipam_operator.specs.Telling.{Says, WritesText};

use crate::answer::OperatorAnswer;
use crate::asking::{AskFault, REPLY_BYTES, ask_request};
use crate::end::End;
use crate::telling::{tell, tell_fault};
use ipam_addr::Cidr;
use ipam_io::{Lines, Link, Sink};
use ipam_model::Request;
use ipam_text::Text;
use std::alloc::{AllocError, Global};

/// Asks the daemon to release the node's affinity to the block, and writes what came of it: one line, as
/// the same word does over a file. Where the release lost too many races, the line is `try again`.
pub fn release<K: Sink, L: Link>(
    alloc: Global,
    sink: &mut K,
    link: &mut L,
    node: &str,
    block: Cidr,
) -> End
    ensures released { (came : Result Answer Fault) × (held : List ℕ)
        × Asks answer_of_line (request_line (Release node.now block)) came
        (record {
          sent = L.written link.old;
          send_faults = L.write_faults link.old;
          coming = L.left link.old;
          read_faults = L.read_faults link.old;
        })
        (record {
          sent = L.written link.new;
          send_faults = L.write_faults link.new;
          coming = prepend_known held (L.left link.new);
          read_faults = L.read_faults link.new;
        })
        × Says (came ≡ Err Fault.Memory) (K.written sink.old) (K.written sink.new)
        (K.write_faults sink.old) (K.write_faults sink.new) (release_line came) (release_end came) result }
    ensures rest { K.write_rest sink.new ≡ K.write_rest sink.old }
{
    match come_to(alloc, link, node, block) {
        Ok(answer) => tell_answer(sink, &answer),
        Err(fault) => tell_fault(sink, fault),
    }
}

/// What the release comes to.
fn come_to<L: Link>(
    alloc: Global,
    link: &mut L,
    node: &str,
    block: Cidr,
) -> Result<OperatorAnswer, AskFault>
    ensures asked { (held : List ℕ)
        × Asks answer_of_line (request_line (Release node.now block)) result
        (record {
          sent = L.written link.old;
          send_faults = L.write_faults link.old;
          coming = L.left link.old;
          read_faults = L.read_faults link.old;
        })
        (record {
          sent = L.written link.new;
          send_faults = L.write_faults link.new;
          coming = prepend_known held (L.left link.new);
          read_faults = L.read_faults link.new;
        }) }
{
    let mut lines = Lines::<REPLY_BYTES>::new(alloc);
    match release_request(alloc, node, block) {
        Ok(request) => {
            let came = ask_request(alloc, link, &mut lines, &request);
            drop(request);
            came
        }
        Err(AllocError) => Err(AskFault::Memory),
    }
}

fn release_request(alloc: Global, node: &str, block: Cidr) -> Result<Request, AllocError>
    ensures { IfOk result (λ request. request ≡ Release node.now block) }
{
    let node = Text::copied(alloc, node)?;
    Ok(Request::Release(node, block))
}

/// Writes the line of an answer.
fn tell_answer<K: Sink>(sink: &mut K, answer: &OperatorAnswer) -> End
    ensures told { WritesText (K.written sink.old) (K.written sink.new)
        (K.write_faults sink.old) (K.write_faults sink.new) (release_line (Ok answer.now)) (release_end (Ok answer.now)) result }
    ensures rest { K.write_rest sink.new ≡ K.write_rest sink.old }
{
    match answer {
        OperatorAnswer::Released => tell(sink, "released\n", End::Done),
        OperatorAnswer::NoAffinity => tell(sink, "no affinity\n", End::Refused),
        OperatorAnswer::Full => tell(sink, "full\n", End::Refused),
        OperatorAnswer::Spent => tell(sink, "spent\n", End::Refused),
        OperatorAnswer::Again => tell(sink, "try again\n", End::Refused),
        OperatorAnswer::Fault => tell(sink, "keeper fault\n", End::KeeperFault),
        OperatorAnswer::Done => tell(sink, "reply fault\n", End::ReplyFault),
        OperatorAnswer::Refused(_, _) => tell(sink, "reply fault\n", End::ReplyFault),
    }
}
