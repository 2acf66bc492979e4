ghost use Rattle.std.specs.Prelude.{◌≡◌, Some, IfOk, string_bytes};
ghost use Rattle.serde_json.specs.Data.{no_members, object, put};
ghost use Rattle.serde_json.specs.Read.{read};
ghost use Rattle.serde_json.specs.View.{view};
ghost use Rattle.serde_json.specs.Written.{compact_text};
ghost use Rattle.ipam_json.specs.Built.{tagged};
ghost use Rattle.ipam_json.specs.Canonical.{IsCanonical};

use serde_json::{Map, Value, put};
use std::alloc::{AllocError, Global};

/// The text of a canonical value, with no space.
pub fn canonical_text(alloc: Global, value: &Value) -> Result<String, AllocError>
    requires { IsCanonical (view value.now) }
    ensures text { IfOk result (λ s. string_bytes s ≡ compact_text (view value.now)) }
    ensures reads_back { IfOk result (λ s. read (string_bytes s) ≡ Some (view value.now)) }
{
    value.to_string(alloc)
}

/// The object with this one member.
pub fn tagged(alloc: Global, name: &str, value: Value) -> Result<Value, AllocError>
    ensures { IfOk result (λ v. view v ≡ tagged name.now (view value)) }
{
    let mut members = Map::new(alloc);
    put(&mut members, alloc, name, value)?;
    Ok(Value::Object(members))
}

/// The object of these two members.
pub fn two_members(
    alloc: Global,
    first: &str,
    one: Value,
    second: &str,
    other: Value,
) -> Result<Value, AllocError>
    ensures { IfOk result (λ v. view v
        ≡ object (put second.now (view other) (put first.now (view one) no_members))) }
{
    let mut members = Map::new(alloc);
    put(&mut members, alloc, first, one)?;
    put(&mut members, alloc, second, other)?;
    Ok(Value::Object(members))
}
