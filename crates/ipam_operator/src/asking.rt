//! A line is sent, and the line that comes back is read.
ghost use Rattle.std.specs.Prelude.{◌≡◌, ◌++◌, IfOk, IfErr, OnOk, OnErr, string_bytes};
ghost use Rattle.std.specs.Io.KnownBytes.{prepend_known};
ghost use Rattle.ipam_operator.specs.Answers.{answer_of_line};
ghost use Rattle.ipam_operator.specs.Asking.{Asks, Comes, IsNotRead, IsNotReceived, IsSent, request_line};

use crate::answer::{OperatorAnswer, answer_of_line};
use ipam_io::{Got, Lines, LinesFault, Link};
use ipam_model::Request;
use ipam_request_text::push_request;
use std::alloc::{AllocError, Global};

/// The most bytes of a reply, its line feed among them. A page of rows has one row at least, and the body of
/// a block may be long.
pub const REPLY_BYTES: usize = 67_108_864;

/// Why there is no reply.
#[derive(Clone, Copy)]
pub enum AskFault {
    /// A read or a write of the link failed.
    Link,
    /// What came is no line, or no reply to what was asked.
    Reply,
    /// There was no memory.
    Memory,
}

/// Asks for the request, and reads its answer.
pub(crate) fn ask_request<L: Link>(
    alloc: Global,
    link: &mut L,
    lines: &mut Lines<REPLY_BYTES>,
    request: &Request,
) -> Result<OperatorAnswer, AskFault>
    ensures asked { Asks answer_of_line (request_line request.now) result
        (record {
          sent = L.written link.old;
          send_faults = L.write_faults link.old;
          coming = prepend_known lines.old (L.left link.old);
          read_faults = L.read_faults link.old;
        })
        (record {
          sent = L.written link.new;
          send_faults = L.write_faults link.new;
          coming = prepend_known lines.new (L.left link.new);
          read_faults = L.read_faults link.new;
        }) }
{
    match request_line(alloc, request) {
        Ok(text) => ask_answer(alloc, link, lines, text.as_str()),
        Err(AllocError) => Err(AskFault::Memory),
    }
}

/// The line that asks for the request.
fn request_line(alloc: Global, request: &Request) -> Result<String, AllocError>
    ensures { IfOk result (λ text. string_bytes text ≡ request_line request.now) }
{
    let mut text = String::new(alloc);
    text.push_str("{\"request\":")?;
    push_request(alloc, &mut text, request)?;
    text.push_str("}\n")?;
    Ok(text)
}

/// Sends the text, and reads the answer that comes.
fn ask_answer<L: Link>(
    alloc: Global,
    link: &mut L,
    lines: &mut Lines<REPLY_BYTES>,
    text: &str,
) -> Result<OperatorAnswer, AskFault>
    ensures asked { Asks answer_of_line text.now result
        (record {
          sent = L.written link.old;
          send_faults = L.write_faults link.old;
          coming = prepend_known lines.old (L.left link.old);
          read_faults = L.read_faults link.old;
        })
        (record {
          sent = L.written link.new;
          send_faults = L.write_faults link.new;
          coming = prepend_known lines.new (L.left link.new);
          read_faults = L.read_faults link.new;
        }) }
{
    match ask(link, lines, text) {
        Ok(line) => match answer_of_line(alloc, line.as_slice()) {
            Ok(Some(answer)) => Ok(answer),
            Ok(None) => Err(AskFault::Reply),
            Err(AllocError) => Err(AskFault::Memory),
        },
        Err(fault) => Err(fault),
    }
}

/// Sends the text in one write, and reads the line that comes.
pub fn ask<L: Link>(
    link: &mut L,
    lines: &mut Lines<REPLY_BYTES>,
    text: &str,
) -> Result<Vec<u8>, AskFault>
    ensures sent { OnOk result (IsSent text.now
        (record {
          sent = L.written link.old;
          send_faults = L.write_faults link.old;
          coming = prepend_known lines.old (L.left link.old);
          read_faults = L.read_faults link.old;
        })
        (record {
          sent = L.written link.new;
          send_faults = L.write_faults link.new;
          coming = prepend_known lines.new (L.left link.new);
          read_faults = L.read_faults link.new;
        })) }
    ensures came { IfOk result (λ line. Comes line.items (prepend_known lines.old (L.left link.old)) (prepend_known lines.new (L.left link.new))) }
    ensures fault { IfErr result (λ fault. IsNotRead text.now fault
        (record {
          sent = L.written link.old;
          send_faults = L.write_faults link.old;
          coming = prepend_known lines.old (L.left link.old);
          read_faults = L.read_faults link.old;
        })
        (record {
          sent = L.written link.new;
          send_faults = L.write_faults link.new;
          coming = prepend_known lines.new (L.left link.new);
          read_faults = L.read_faults link.new;
        })) }
{
    match link.write(text.as_bytes()) {
        Ok(()) => receive(link, lines),
        Err(_) => Err(AskFault::Link),
    }
}

/// Reads the line that comes.
fn receive<L: Link>(link: &mut L, lines: &mut Lines<REPLY_BYTES>) -> Result<Vec<u8>, AskFault>
    ensures came { IfOk result (λ line. Comes line.items (prepend_known lines.old (L.left link.old)) (prepend_known lines.new (L.left link.new))) }
    ensures fault { IfErr result (λ fault. IsNotReceived fault (prepend_known lines.old (L.left link.old))
        (L.read_faults link.old) (L.read_faults link.new)) }
    ensures no_fault { OnOk result (L.read_faults link.new ≡ L.read_faults link.old) }
    ensures written { L.written link.new ≡ L.written link.old }
    ensures writes { L.write_faults link.new ≡ L.write_faults link.old }
{
    match lines.next(link) {
        Ok(Got::Line(line)) => Ok(line),
        Ok(Got::End | Got::Cut) => Err(AskFault::Reply),
        Err(LinesFault::TooLong) => Err(AskFault::Reply),
        Err(LinesFault::Read) => Err(AskFault::Link),
        Err(LinesFault::Memory) => Err(AskFault::Memory),
    }
}
