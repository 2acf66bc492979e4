ghost use Rattle.std.specs.Prelude.{◌≡◌, Some, IfOk, IfErr, option_and_then};
ghost use Rattle.serde_json.specs.Find.{as_str, as_bool, as_array, as_object};
ghost use Rattle.serde_json.specs.View.{view, items_view, members_view};
ghost use Rattle.ipam_json.specs.Path.{at_path, as_whole};
ghost use Rattle.ipam_json.specs.Faults.{IsFault, IsFaultAt};

use crate::fault::{FieldFault, ReadFault, Want};
use crate::path::find;
use serde_json::{Map, Value};
use std::alloc::Global;

/// The text at the path. A path is member names and decimal indexes joined by dots, as
/// `items.0.spec.cidr`, and the empty path is the value itself.
pub fn text<'a>(alloc: Global, value: &'a Value, path: &str) -> Result<&'a str, ReadFault>
    ensures found { IfOk result
        (λ t. option_and_then as_str (at_path path.now (view value.now)) ≡ Some t.now) }
    ensures fault { IfErr result (IsFault path.now Want.Text
        (option_and_then as_str (at_path path.now (view value.now)))) }
{
    match find(value, path).and_then(Value::as_str) {
        Some(text) => Ok(text),
        None => Err(field_fault(alloc, path, Want::Text)),
    }
}

/// The `true` or `false` at the path.
pub fn truth(alloc: Global, value: &Value, path: &str) -> Result<bool, ReadFault>
    ensures found { IfOk result
        (λ b. option_and_then as_bool (at_path path.now (view value.now)) ≡ Some b) }
    ensures fault { IfErr result (IsFault path.now Want.Truth
        (option_and_then as_bool (at_path path.now (view value.now)))) }
{
    match find(value, path).and_then(Value::as_bool) {
        Some(truth) => Ok(truth),
        None => Err(field_fault(alloc, path, Want::Truth)),
    }
}

/// The whole number at the path, from 0 to 2^64 - 1. `1.0`, `1e2` and `-0` are none.
pub fn whole(alloc: Global, value: &Value, path: &str) -> Result<u64, ReadFault>
    ensures found { IfOk result
        (λ n. option_and_then as_whole (at_path path.now (view value.now)) ≡ Some n) }
    ensures fault { IfErr result (IsFault path.now Want.Whole
        (option_and_then as_whole (at_path path.now (view value.now)))) }
{
    match find(value, path).and_then(Value::as_u64) {
        Some(number) => Ok(number),
        None => Err(field_fault(alloc, path, Want::Whole)),
    }
}

/// The items of the array at the path.
pub fn array<'a>(alloc: Global, value: &'a Value, path: &str) -> Result<&'a [Value], ReadFault>
    ensures found { IfOk result
        (λ items. option_and_then as_array (at_path path.now (view value.now))
        ≡ Some (items_view items.now)) }
    ensures fault { IfErr result (IsFault path.now Want.Array
        (option_and_then as_array (at_path path.now (view value.now)))) }
{
    match find(value, path).and_then(Value::as_array) {
        Some(list) => Ok(list.as_slice()),
        None => Err(field_fault(alloc, path, Want::Array)),
    }
}

/// The members of the object at the path.
pub fn object<'a>(
    alloc: Global,
    value: &'a Value,
    path: &str,
) -> Result<&'a Map<String, Value>, ReadFault>
    ensures found { IfOk result
        (λ m. option_and_then as_object (at_path path.now (view value.now))
        ≡ Some (members_view m.now.entries)) }
    ensures fault { IfErr result (IsFault path.now Want.Object
        (option_and_then as_object (at_path path.now (view value.now)))) }
{
    match find(value, path).and_then(Value::as_object) {
        Some(map) => Ok(map),
        None => Err(field_fault(alloc, path, Want::Object)),
    }
}

fn field_fault(alloc: Global, path: &str, want: Want) -> ReadFault
    ensures { IsFaultAt path.now want result }
{
    match String::from_str(alloc, path) {
        Ok(path) => ReadFault::Field(FieldFault { path, want }),
        Err(_) => ReadFault::Memory,
    }
}
