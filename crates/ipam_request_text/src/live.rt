//! Lists of live handles are read.
ghost use Rattle.std.specs.Prelude.{◌≡◌, Err, Some, None, IfOk, IfSome, option_map};
ghost use Rattle.std.specs.List.{AllByRecursion};
ghost use Rattle.serde_json.specs.View.{view};
ghost use Rattle.ipam_records.specs.Sound.{IsHandleId};
ghost use Rattle.ipam_request_text.specs.Live.{live_reading, live_in, live_id_in};

use crate::fault::AskFault;
use ipam_json::json_of;
use ipam_record_text::id_of;
use ipam_text::{Seq, Text};
use serde_json::Value;
use std::alloc::{AllocError, Global};

/// The handles that the text lists: a JSON array of their ids, repeats allowed, in any spelling.
#[tactic(auto, unfolding(crate::specs::Live::live_reading))]
pub fn read_live(alloc: Global, text: &str) -> Result<Seq<Text>, AskFault>
    ensures read { IfOk result (λ live. live_reading text.now ≡ Some live) }
    ensures unreadable { result ≡ Err AskFault.Unreadable → live_reading text.now ≡ None }
{
    let Ok(read) = json_of(alloc, text) else {
        return Err(AskFault::Memory);
    };
    let Some(json) = read else {
        return Err(AskFault::Unreadable);
    };
    match live_in_json(alloc, &json) {
        Ok(Some(live)) => Ok(live),
        Ok(None) => Err(AskFault::Unreadable),
        Err(_) => Err(AskFault::Memory),
    }
}

/// The handles that this JSON lists. The list of a text is that of its JSON.
#[tactic(auto, using(crate::proofs::Lives::live_in_sound), unfolding(crate::specs::Live::live_in))]
pub fn live_in_json(alloc: Global, json: &Value) -> Result<Option<Seq<Text>>, AllocError>
    ensures read { IfOk result (λ found. found ≡ live_in (view json.now)) }
    ensures sound { IfOk result (λ found. IfSome found (AllByRecursion IsHandleId)) }
{
    let Some(list) = json.as_array() else {
        return Ok(None);
    };
    let items = list.as_slice();
    let mut ids = Vec::new(alloc);
    for item in items {
        let Some(id) = id_in(item) else {
            return Ok(None);
        };
        ids.push(Text::copied(alloc, id)?)?;
    }
    Ok(Some(Seq::of(ids)))
}

#[tactic(auto, unfolding(crate::specs::Live::live_id_in))]
fn id_in(value: &Value) -> Option<&str>
    ensures { option_map (λ t. t.now) result ≡ live_id_in (view value.now) }
{
    let text = value.as_str()?;
    id_of(text)
}
