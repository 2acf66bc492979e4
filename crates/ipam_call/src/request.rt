//! The line that is sent.
ghost use Rattle.std.specs.Prelude.{◌≡◌, IfOk, OnOk, string_bytes, option_map};
ghost use Rattle.serde_json.specs.View.{view, members_view};
ghost use Rattle.ipam_call.specs.Requests.{last_of, with_last, env_members, call_data, cni_call_text, sendable, line_for};

use cni_types::input_text;
use ipam_io::SESSION_LINE_BYTES;
use ipam_text::Text;
use serde_json::{Map, Value, json, put};
use std::alloc::{AllocError, Global};

/// The line that is sent, with its line feed, or none where standard input is too long or no
/// UTF-8, or where the line would be too long.
#[tactic(auto, unfolding(crate::specs::Requests::line_for))]
pub(crate) fn line_for(
    alloc: Global,
    env: &[(Text, Text)],
    input: &[u8],
) -> Result<Option<String>, AllocError>
    ensures { IfOk result
        (λ found. option_map string_bytes found ≡ line_for env.now input.now) }
{
    match input_text(input) {
        Some(text) => line_of(alloc, env, text),
        None => Ok(None),
    }
}

fn line_of(alloc: Global, env: &[(Text, Text)], input: &str) -> Result<Option<String>, AllocError>
    ensures { IfOk result (λ found. option_map string_bytes found
        ≡ sendable (cni_call_text env.now input.now)) }
{
    let mut line = call_string(alloc, env, input)?;
    if line.len() >= SESSION_LINE_BYTES {
        return Ok(None);
    }
    line.push_str("\n")?;
    Ok(Some(line))
}

#[tactic(auto, unfolding(crate::specs::Requests::cni_call_text), using(crate::proofs::NoFloats::call_without))]
fn call_string(alloc: Global, env: &[(Text, Text)], input: &str) -> Result<String, AllocError>
    ensures { IfOk result (λ s. string_bytes s ≡ cni_call_text env.now input.now) }
{
    let json = call_value(alloc, env, input)?;
    json.to_string(alloc)
}

#[tactic(auto, unfolding(crate::specs::Requests::call_data))]
fn call_value(alloc: Global, env: &[(Text, Text)], input: &str) -> Result<Value, AllocError>
    ensures { IfOk result (λ v. view v ≡ call_data env.now input.now) }
{
    let members = Value::Object(env_members(alloc, env)?);
    json!(in alloc; {"env": members, "stdin": input})
}

/// The variables that CNI knows, of those that are there.
#[tactic(auto, unfolding(crate::specs::Requests::env_members))]
fn env_members(alloc: Global, env: &[(Text, Text)]) -> Result<Map<String, Value>, AllocError>
    ensures { IfOk result (λ m. members_view m.entries ≡ env_members env.now) }
{
    let mut members = Map::new(alloc);
    put_last(alloc, &mut members, env, "CNI_ARGS")?;
    put_last(alloc, &mut members, env, "CNI_COMMAND")?;
    put_last(alloc, &mut members, env, "CNI_CONTAINERID")?;
    put_last(alloc, &mut members, env, "CNI_IFNAME")?;
    put_last(alloc, &mut members, env, "CNI_NETNS")?;
    Ok(members)
}

/// Puts the variable of this name, where there is one.
fn put_last(
    alloc: Global,
    members: &mut Map<String, Value>,
    env: &[(Text, Text)],
    name: &str,
) -> Result<(), AllocError>
    ensures { OnOk result (members_view members.new.entries
        ≡ with_last name.now env.now (members_view members.old.entries)) }
{
    let Some(value) = last_of(env, name) else {
        return Ok(());
    };
    let value = Value::try_from_str(alloc, value)?;
    put(members, alloc, name, value)
}

/// The value of the last pair of this name, if there is one.
fn last_of<'a>(env: &'a [(Text, Text)], name: &str) -> Option<&'a str>
    ensures { option_map (λ t. t.now) result ≡ last_of name.now env.now }
{
    let mut found = None;
    for pair in env {
        if pair.0.as_str() == name {
            found = Some(pair.1.as_str());
        }
    }
    found
}
