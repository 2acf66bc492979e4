//! The texts of answers: compact JSON and a line feed.
ghost use Rattle.std.specs.Prelude.{◌≡◌, ◌++◌, false, map, IfOk, OnOk, OnErr, string_bytes};
ghost use Rattle.serde_json.specs.Data.{string, put};
ghost use Rattle.serde_json.specs.View.{view, members_view};
ghost use Rattle.serde_json.specs.Written.{has_float};
ghost use Rattle.ipam_json.specs.Built.{array_of};
ghost use Rattle.cni_types.specs.Texts.{json_line, full_prefix, family_text, interface_text, error_data, error_text, entry_data, result_data, result_text, versions_data, versions_text};

use crate::error::CniError;
use crate::version::Version;
use ipam_addr::{Addr, Family, push_addr};
use ipam_json::{tagged, two_members};
use serde_json::{Map, Value, json, put};
use std::alloc::{AllocError, Global};

/// Appends the text of an error: its version, its number, its details and its message.
#[tactic(auto, unfolding(crate::specs::Texts::error_text), using(crate::proofs::NoFloats::error_has_none))]
pub fn push_error(alloc: Global, out: &mut String, error: &CniError) -> Result<(), AllocError>
    ensures ok { OnOk result (string_bytes out.new ≡ string_bytes out.old ++ error_text error.now) }
    ensures err { OnErr result (string_bytes out.new ≡ string_bytes out.old) }
{
    let json = error_value(alloc, error)?;
    push_line(alloc, out, &json)
}

/// Appends the text of a result: each address with the full prefix of its family, and up to 0.4.0
/// with its family.
#[tactic(auto, unfolding(crate::specs::Texts::result_text), using(crate::proofs::NoFloats::result_has_none))]
pub fn push_result(
    alloc: Global,
    out: &mut String,
    version: Version,
    addresses: &[Addr],
) -> Result<(), AllocError>
    ensures ok { OnOk result
        (string_bytes out.new ≡ string_bytes out.old ++ result_text version addresses.now) }
    ensures err { OnErr result (string_bytes out.new ≡ string_bytes out.old) }
{
    let json = result_value(alloc, version, addresses)?;
    push_line(alloc, out, &json)
}

/// Appends the text of the versions that are supported.
#[tactic(auto, unfolding(crate::specs::Texts::versions_text), using(crate::proofs::NoFloats::versions_have_none))]
pub fn push_versions(alloc: Global, out: &mut String, version: Version) -> Result<(), AllocError>
    ensures ok { OnOk result
        (string_bytes out.new ≡ string_bytes out.old ++ versions_text version) }
    ensures err { OnErr result (string_bytes out.new ≡ string_bytes out.old) }
{
    let json = versions_value(alloc, version)?;
    push_line(alloc, out, &json)
}

/// Appends the text of a value that has no float, ended by a line feed.
fn push_line(alloc: Global, out: &mut String, json: &Value) -> Result<(), AllocError>
    requires { has_float (view json.now) ≡ false }
    ensures ok { OnOk result
        (string_bytes out.new ≡ string_bytes out.old ++ json_line (view json.now)) }
    ensures err { OnErr result (string_bytes out.new ≡ string_bytes out.old) }
{
    let mut line = json.to_string(alloc)?;
    line.push('\n')?;
    out.push_str(line.as_str())
}

#[tactic(auto, unfolding(crate::specs::Texts::error_data))]
fn error_value(alloc: Global, error: &CniError) -> Result<Value, AllocError>
    ensures { IfOk result (λ v. view v ≡ error_data error.now) }
{
    let mut members = Map::new(alloc);
    let number = Value::from(error.code.number());
    put_text(alloc, &mut members, "cniVersion", error.version.text())?;
    put(&mut members, alloc, "code", number)?;
    put_text(alloc, &mut members, "details", error.details.as_str())?;
    put_text(alloc, &mut members, "msg", error.code.message())?;
    Ok(Value::Object(members))
}

fn put_text(
    alloc: Global,
    members: &mut Map<String, Value>,
    name: &str,
    text: &str,
) -> Result<(), AllocError>
    ensures { OnOk result (members_view members.new.entries
        ≡ put name.now (string text.now) (members_view members.old.entries)) }
{
    let value = Value::try_from_str(alloc, text)?;
    put(members, alloc, name, value)
}

#[tactic(auto, unfolding(crate::specs::Texts::result_data))]
fn result_value(alloc: Global, version: Version, addresses: &[Addr]) -> Result<Value, AllocError>
    ensures { IfOk result (λ v. view v ≡ result_data version addresses.now) }
{
    let entries = entries_value(alloc, version, addresses)?;
    let version = Value::try_from_str(alloc, version.text())?;
    two_members(alloc, "cniVersion", version, "ips", entries)
}

fn entries_value(alloc: Global, version: Version, addresses: &[Addr]) -> Result<Value, AllocError>
    ensures { IfOk result (λ v. view v ≡ array_of (map (entry_data version) addresses.now)) }
{
    let mut entries = Vec::new(alloc);
    for address in addresses {
        entries.push(entry_value(alloc, version, *address)?)?;
    }
    Ok(Value::Array(entries))
}

#[tactic(auto, unfolding(crate::specs::Texts::entry_data))]
fn entry_value(alloc: Global, version: Version, address: Addr) -> Result<Value, AllocError>
    ensures { IfOk result (λ v. view v ≡ entry_data version address) }
{
    let interface = Value::String(interface_string(alloc, address)?);
    if version.says_family() {
        let family = Value::try_from_str(alloc, family_text(address.family))?;
        two_members(alloc, "address", interface, "version", family)
    } else {
        tagged(alloc, "address", interface)
    }
}

/// The address with the prefix of a single address.
fn interface_string(alloc: Global, address: Addr) -> Result<String, AllocError>
    ensures { IfOk result (λ s. string_bytes s ≡ interface_text address) }
{
    let mut text = String::new(alloc);
    push_addr(alloc, &mut text, address)?;
    text.push_str(full_prefix(address.family))?;
    Ok(text)
}

fn full_prefix(family: Family) -> &'static str
    ensures { result.now ≡ full_prefix family }
{
    match family {
        Family::V4 => "/32",
        Family::V6 => "/128",
    }
}

fn family_text(family: Family) -> &'static str
    ensures { result.now ≡ family_text family }
{
    match family {
        Family::V4 => "4",
        Family::V6 => "6",
    }
}

#[tactic(auto, unfolding(crate::specs::Texts::versions_data))]
fn versions_value(alloc: Global, version: Version) -> Result<Value, AllocError>
    ensures { IfOk result (λ v. view v ≡ versions_data version) }
{
    let version = version.text();
    json!(in alloc; {
        "cniVersion": version,
        "supportedVersions": ["0.3.0", "0.3.1", "0.4.0", "1.0.0", "1.1.0"]
    })
}
