//! What the members of a JSON object hold.
ghost use Rattle.std.specs.Prelude.{◌≡◌, IfOk, map, option_map};
ghost use Rattle.serde_json.specs.Read.{read};
ghost use Rattle.serde_json.specs.View.{view, items_view, members_view};
ghost use Rattle.ipam_json.specs.Built.{fields_of, members_in};
ghost use Rattle.ipam_json.specs.Members.{truth_at, text_at, whole_at, in_8_bits, in_32_bits, number_at, items_at, list_at, members_at, fields_at, only_member};

use serde_json::{Map, Value};
use std::alloc::{AllocError, Global};

/// The JSON of a text, where it is some.
pub fn json_of(alloc: Global, text: &str) -> Result<Option<Value>, AllocError>
    ensures { IfOk result (λ o. option_map view o ≡ read text.now) }
{
    match Value::from_str(alloc, text) {
        Ok(value) => Ok(Some(value)),
        Err(error) if error.is_memory() => Err(AllocError),
        Err(_) => Ok(None),
    }
}

/// The `true` or `false` of this name.
pub fn truth_at(value: &Value, name: &str) -> Option<bool>
    ensures { result ≡ truth_at name.now (view value.now) }
{
    value.get(name).and_then(Value::as_bool)
}

/// The text of this name.
pub fn text_at<'a>(value: &'a Value, name: &str) -> Option<&'a str>
    ensures { option_map (λ t. t.now) result ≡ text_at name.now (view value.now) }
{
    value.get(name).and_then(Value::as_str)
}

/// The whole number of this name, from 0 to 2^64 - 1.
pub fn whole_at(value: &Value, name: &str) -> Option<u64>
    ensures { result ≡ whole_at name.now (view value.now) }
{
    value.get(name).and_then(Value::as_u64)
}

/// The whole number of this name, where 32 bits hold it.
pub fn number_at(value: &Value, name: &str) -> Option<u32>
    ensures { result ≡ number_at name.now (view value.now) }
{
    let number = whole_at(value, name)?;
    in_32_bits(number)
}

/// The number, where 32 bits hold it.
pub fn in_32_bits(number: u64) -> Option<u32>
    ensures { result ≡ in_32_bits number }
{
    u32::try_from(number).ok()
}

/// The number, where 8 bits hold it.
pub fn in_8_bits(number: u64) -> Option<u8>
    ensures { result ≡ in_8_bits number }
{
    u8::try_from(number).ok()
}

/// The items of the array of this name.
#[tactic(auto, using(crate::proofs::Listed::items_listed))]
pub fn items_at<'a>(value: &'a Value, name: &str) -> Option<&'a [Value]>
    ensures items { option_map (λ l. items_view l.now) result ≡ items_at name.now (view value.now) }
    ensures list { option_map (λ l. map view l.now) result ≡ list_at name.now (view value.now) }
{
    match value.get(name).and_then(Value::as_array) {
        Some(list) => Some(list.as_slice()),
        None => None,
    }
}

/// The members of the object of this name.
#[tactic(auto, using(crate::proofs::Listed::members_listed))]
pub fn members_at<'a>(value: &'a Value, name: &str) -> Option<&'a Map<String, Value>>
    ensures members { option_map (λ m. members_view m.now.entries) result
        ≡ members_at name.now (view value.now) }
    ensures fields { option_map (λ m. fields_of m.now.entries) result
        ≡ fields_at name.now (view value.now) }
{
    value.get(name).and_then(Value::as_object)
}

/// The members of the object.
pub fn members_in(value: &Value) -> Option<&Map<String, Value>>
    ensures { option_map (λ m. fields_of m.now.entries) result ≡ members_in (view value.now) }
{
    value.as_object()
}

/// The name and the value of the one member.
pub fn only_member(members: &Map<String, Value>) -> Option<(&str, &Value)>
    ensures { option_map (λ only. (only.0.now, view only.1.now)) result
        ≡ only_member (members_view members.now.entries) }
{
    let mut entries = members.iter();
    let (name, value) = entries.next()?;
    if entries.next().is_some() {
        return None;
    }
    Some((name.as_str(), value))
}
