// Requests. Each in a box, since a request that a function drops itself is dear to check.
ghost use Rattle.std.specs.Prelude.{IfSome};
ghost use Rattle.ipam_model.specs.SoundRequest.{IsSoundRequest};

use ipam_addr::{Addr, push_addr};
use ipam_model::Request;
use ipam_request_text::read_request_text;
use std::alloc::{AllocError, Global};

/// The request of this text. None where there is no memory, or it is none.
pub fn read(alloc: Global, text: Result<String, AllocError>) -> Option<Box<Request>>
    ensures { IfSome result (λ boxed. IsSoundRequest boxed.value) }
{
    match read_request_text(alloc, text.ok()?.as_str()) {
        Ok(request) => boxed(alloc, request),
        Err(_) => None,
    }
}

fn boxed(alloc: Global, request: Request) -> Option<Box<Request>>
    requires { IsSoundRequest request }
    ensures { IfSome result (λ boxed. IsSoundRequest boxed.value) }
{
    match Box::new(alloc, request) {
        Ok(boxed) => Some(boxed),
        Err(_) => None,
    }
}

/// An ADD of the first handle of this slot by the slot's node, and the handle's DEL.
pub fn add_and_del(alloc: Global, slot: u8) -> Option<(Box<Request>, Box<Request>)>
    ensures add { IfSome result (λ both. IsSoundRequest both.0.value) }
    ensures del { IfSome result (λ both. IsSoundRequest both.1.value) }
{
    let one = read(
        alloc,
        format!(in alloc; r#"{{"add":{{"handle":"n.s{slot}x0","node":"w{slot}"}}}}"#),
    )?;
    let other = read(
        alloc,
        format!(in alloc; r#"{{"del":{{"handle":"n.s{slot}x0"}}}}"#),
    )?;
    Some((one, other))
}

/// Whether the handle with this number of those of this slot holds the address.
pub fn check(alloc: Global, slot: u8, number: u32, address: Addr) -> Result<String, AllocError> {
    let mut spelled = String::new(alloc);
    push_addr(alloc, &mut spelled, address)?;
    format!(in alloc; r#"{{"check":{{"addresses":["{spelled}"],"handle":"n.s{slot}x{number}"}}}}"#)
}
