//! `unreserve NAME`: a reservation is taken back.
ghost use Rattle.std.specs.Prelude.{◌≡◌, ℕ, List, Result, Ok, Err, IfOk};
ghost use Rattle.std.specs.Io.KnownBytes.{prepend_known};
ghost use Rattle.ipam_model.specs.declared.request.Admin.TheVariants.{Unreserve};
ghost use Rattle.ipam_model.specs.declared.request.Request.TheVariants.{Admin as Changes};
ghost use Rattle.ipam_operator.specs.declared.answer.OperatorAnswer.{OperatorAnswer as Answer};
ghost use Rattle.ipam_operator.specs.declared.asking.AskFault.{AskFault as Fault};
ghost use Rattle.ipam_operator.specs.Answers.{answer_of_line};
ghost use Rattle.ipam_operator.specs.Asking.{Asks, request_line};
ghost use Rattle.ipam_operator.specs.Unreserving.{refusal_end, refusal_line, unreserve_end, unreserve_line};
ghost use Rattle.ipam_operator.specs.Telling.{Says, WritesText};

use crate::answer::OperatorAnswer;
use crate::asking::{AskFault, REPLY_BYTES, ask_request};
use crate::end::End;
use crate::telling::{tell, tell_fault};
use ipam_io::{Lines, Link, Sink};
use ipam_model::{Admin, Request};
use ipam_text::Text;
use std::alloc::{AllocError, Global};

/// The number of the refusal of a name that no reservation has.
pub const NO_RESERVATION: u8 = 8;

/// Asks the daemon to remove the reservation of this name, and writes what came of it: one line, as the same
/// word does over a file. Where the request lost too many races, the line is `try again`.
pub fn unreserve<K: Sink, L: Link>(alloc: Global, sink: &mut K, link: &mut L, name: &str) -> End
    ensures unreserved { (came : Result Answer Fault) × (held : List ℕ)
        × Asks answer_of_line (request_line (Changes (Unreserve name.now))) came
        (record {
          sent = L.written link.old;
          send_faults = L.write_faults link.old;
          coming = L.left link.old;
          read_faults = L.read_faults link.old;
        })
        (record {
          sent = L.written link.new;
          send_faults = L.write_faults link.new;
          coming = prepend_known held (L.left link.new);
          read_faults = L.read_faults link.new;
        })
        × Says (came ≡ Err Fault.Memory) (K.written sink.old) (K.written sink.new)
        (K.write_faults sink.old) (K.write_faults sink.new) (unreserve_line came) (unreserve_end came) result }
    ensures rest { K.write_rest sink.new ≡ K.write_rest sink.old }
{
    match come_to(alloc, link, name) {
        Ok(answer) => tell_answer(sink, &answer),
        Err(fault) => tell_fault(sink, fault),
    }
}

/// What the request comes to.
fn come_to<L: Link>(alloc: Global, link: &mut L, name: &str) -> Result<OperatorAnswer, AskFault>
    ensures asked { (held : List ℕ)
        × Asks answer_of_line (request_line (Changes (Unreserve name.now))) result
        (record {
          sent = L.written link.old;
          send_faults = L.write_faults link.old;
          coming = L.left link.old;
          read_faults = L.read_faults link.old;
        })
        (record {
          sent = L.written link.new;
          send_faults = L.write_faults link.new;
          coming = prepend_known held (L.left link.new);
          read_faults = L.read_faults link.new;
        }) }
{
    let mut lines = Lines::<REPLY_BYTES>::new(alloc);
    match unreserve_request(alloc, name) {
        Ok(request) => {
            let came = ask_request(alloc, link, &mut lines, &request);
            drop(request);
            came
        }
        Err(AllocError) => Err(AskFault::Memory),
    }
}

fn unreserve_request(alloc: Global, name: &str) -> Result<Request, AllocError>
    ensures { IfOk result (λ request. request ≡ Changes (Unreserve name.now)) }
{
    let name = Text::copied(alloc, name)?;
    Ok(Request::Admin(Admin::Unreserve(name)))
}

/// Writes the line of an answer.
fn tell_answer<K: Sink>(sink: &mut K, answer: &OperatorAnswer) -> End
    ensures told { WritesText (K.written sink.old) (K.written sink.new)
        (K.write_faults sink.old) (K.write_faults sink.new) (unreserve_line (Ok answer.now)) (unreserve_end (Ok answer.now)) result }
    ensures rest { K.write_rest sink.new ≡ K.write_rest sink.old }
{
    match answer {
        OperatorAnswer::Done => tell(sink, "unreserved\n", End::Done),
        OperatorAnswer::Refused(number, _) => tell_refused(sink, *number),
        OperatorAnswer::Full => tell(sink, "full\n", End::Refused),
        OperatorAnswer::Spent => tell(sink, "spent\n", End::Refused),
        OperatorAnswer::Again => tell(sink, "try again\n", End::Refused),
        OperatorAnswer::Fault => tell(sink, "keeper fault\n", End::KeeperFault),
        OperatorAnswer::Released => tell(sink, "reply fault\n", End::ReplyFault),
        OperatorAnswer::NoAffinity => tell(sink, "reply fault\n", End::ReplyFault),
    }
}

/// Writes the line of a refusal. One number alone is that of a reservation that is not there.
fn tell_refused<K: Sink>(sink: &mut K, number: u8) -> End
    ensures told { WritesText (K.written sink.old) (K.written sink.new)
        (K.write_faults sink.old) (K.write_faults sink.new) (refusal_line number) (refusal_end number) result }
    ensures rest { K.write_rest sink.new ≡ K.write_rest sink.old }
{
    if number == NO_RESERVATION {
        tell(sink, "no reservation\n", End::Refused)
    } else {
        tell(sink, "reply fault\n", End::ReplyFault)
    }
}
