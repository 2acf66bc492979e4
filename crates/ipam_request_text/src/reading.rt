//! Requests are read.
ghost use Rattle.std.specs.Prelude.{◌≡◌, [], Err, Some, None, IfOk, IfSome};
ghost use Rattle.serde_json.specs.View.{view};
ghost use Rattle.ipam_model.specs.SoundRequest.{IsSoundRequest};
ghost use Rattle.ipam_request_text.specs.Reading.{request_in_data, sound_request_in, request_reading, request_of_bytes};

use crate::fault::AskFault;
use crate::objects::shaped_in;
use crate::shape::{are_known, shape_named};
use crate::sound::is_sound;
use ipam_json::{json_of, only_member};
use ipam_model::Request;
use serde_json::Value;
use std::alloc::{AllocError, Global};

/// The request whose text this is, in any spelling of its JSON. Members that a request does not
/// have are refused, and of a member that is given twice the last one counts. What is read is
/// sound, and each sound request is read of its printed text.
///
/// Fails with `Unreadable` where the text is no request's, and with `Memory`.
#[tactic(auto, using(crate::proofs::Bytes::bytes_of_text, crate::proofs::Bytes::bytes_of_no_text))]
pub fn read_request(alloc: Global, text: &[u8]) -> Result<Request, AskFault>
    ensures read { IfOk result (λ request. request_of_bytes text.now ≡ Some request) }
    ensures unreadable { result ≡ Err AskFault.Unreadable → request_of_bytes text.now ≡ None }
    ensures sound { IfOk result IsSoundRequest }
{
    match str::from_utf8(text) {
        Ok(text) => read_request_text(alloc, text),
        Err(_) => Err(AskFault::Unreadable),
    }
}

/// The request whose text this is, in any spelling of its JSON. Fails with `Unreadable` where the
/// text is no request's, and with `Memory`.
#[tactic(auto, unfolding(crate::specs::Reading::request_reading))]
pub fn read_request_text(alloc: Global, text: &str) -> Result<Request, AskFault>
    ensures read { IfOk result (λ request. request_reading text.now ≡ Some request) }
    ensures unreadable { result ≡ Err AskFault.Unreadable → request_reading text.now ≡ None }
    ensures sound { IfOk result IsSoundRequest }
{
    let Ok(read) = json_of(alloc, text) else {
        return Err(AskFault::Memory);
    };
    let Some(json) = read else {
        return Err(AskFault::Unreadable);
    };
    match request_in_json(alloc, &json) {
        Ok(Some(request)) => Ok(request),
        Ok(None) => Err(AskFault::Unreadable),
        Err(_) => Err(AskFault::Memory),
    }
}

/// The request that this JSON holds, where it is sound. The request of a text is that of its JSON.
#[tactic(auto, unfolding(crate::specs::Reading::sound_request_in))]
pub fn request_in_json(alloc: Global, json: &Value) -> Result<Option<Request>, AllocError>
    ensures read { IfOk result (λ found. found ≡ sound_request_in (view json.now)) }
    ensures sound { IfOk result (λ found. IfSome found IsSoundRequest) }
{
    let Some(request) = request_in(alloc, json)? else {
        return Ok(None);
    };
    if is_sound(&request) {
        Ok(Some(request))
    } else {
        Ok(None)
    }
}

/// The request that the JSON holds, sound or not.
#[tactic(auto, unfolding(crate::specs::Reading::request_in_data, crate::specs::Reading::named_in, crate::specs::Reading::known_in))]
fn request_in(alloc: Global, json: &Value) -> Result<Option<Request>, AllocError>
    ensures { IfOk result (λ found. found ≡ request_in_data (view json.now)) }
{
    let Some(members) = json.as_object() else {
        return Ok(None);
    };
    let Some((name, value)) = only_member(members) else {
        return Ok(None);
    };
    let Some(shape) = shape_named(name) else {
        return Ok(None);
    };
    let Some(members) = value.as_object() else {
        return Ok(None);
    };
    if are_known(shape, members) {
        shaped_in(alloc, shape, value)
    } else {
        Ok(None)
    }
}
