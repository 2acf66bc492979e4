//! What a good call asks is copied from it.
ghost use Rattle.std.specs.Prelude.{◌≡◌, ◌++◌, IfOk, OnOk, option_map};
ghost use Rattle.serde_json.specs.View.{view, items_view};
ghost use Rattle.cni_types.specs.Asked.{container_handle, handle_asked, items_found, pools_asked, labels_asked, unless_empty, secondary_asked, add_asked, check_asked, gc_asked, status_asked, asked};

use crate::arguments::argument;
use crate::calls::{CniAdd, CniCheck, CniDel, CniGc, CniStatus, Look};
use crate::command::Command;
use crate::configuration::{address_in, wants_ipv4, wants_ipv6};
use crate::environment::value_of;
use crate::members::{inside, text_at, text_of};
use crate::refusal::Variable;
use crate::version::Version;
use ipam_addr::read_addr;
use ipam_json::members_at;
use ipam_text::{Seq, Text};
use serde_json::Value;
use std::alloc::{AllocError, Global};

/// What the command asks.
pub(crate) fn asked(
    alloc: Global,
    command: Command,
    version: Version,
    env: &[(Text, Text)],
    json: &Value,
) -> Result<Look, AllocError>
    ensures { IfOk result (λ look. look ≡ asked command version env.now (view json.now)) }
{
    match command {
        Command::Add => Ok(Look::Add(add_asked(alloc, version, env, json)?)),
        Command::Del => {
            let handle = handle_asked(alloc, env, json)?;
            Ok(Look::Del(CniDel { version, handle }))
        }
        Command::Check => Ok(Look::Check(check_asked(alloc, version, env, json)?)),
        Command::Version => Ok(Look::Version(version)),
        Command::Gc => Ok(Look::Gc(gc_asked(alloc, version, json)?)),
        Command::Status => Ok(Look::Status(status_asked(alloc, version, json)?)),
    }
}

#[tactic(auto, unfolding(crate::specs::Asked::add_asked))]
fn add_asked(
    alloc: Global,
    version: Version,
    env: &[(Text, Text)],
    json: &Value,
) -> Result<CniAdd, AllocError>
    ensures { IfOk result (λ add. add ≡ add_asked version env.now (view json.now)) }
{
    let handle = handle_asked(alloc, env, json)?;
    let node = Text::copied(alloc, text_at(json, "nodename"))?;
    let secondary = secondary_asked(alloc, env, json)?;
    let labels = labels_asked(alloc, json)?;
    let pools4 = pools_asked(alloc, json, "ipv4_pools")?;
    let pools6 = pools_asked(alloc, json, "ipv6_pools")?;
    let asked = argument(value_of(env, Variable::Args), "IP");
    let address = read_addr(asked.as_bytes()).ok();
    Ok(CniAdd {
        version,
        handle,
        node,
        secondary,
        labels,
        ipv4: wants_ipv4(json),
        ipv6: wants_ipv6(json),
        pools4,
        pools6,
        address,
    })
}

fn check_asked(
    alloc: Global,
    version: Version,
    env: &[(Text, Text)],
    json: &Value,
) -> Result<CniCheck, AllocError>
    ensures { IfOk result (λ check. check ≡ check_asked version env.now (view json.now)) }
{
    let items = items_of(inside(json, "prevResult", "ips"));
    let mut addresses = Vec::new(alloc);
    for item in items {
        if let Some(address) = address_in(item) {
            addresses.push(address)?;
        }
    }
    let handle = handle_asked(alloc, env, json)?;
    Ok(CniCheck {
        version,
        handle,
        addresses: Seq::of(addresses),
    })
}

fn gc_asked(alloc: Global, version: Version, json: &Value) -> Result<CniGc, AllocError>
    ensures { IfOk result (λ gc. gc ≡ gc_asked version (view json.now)) }
{
    let name = text_at(json, "name");
    let items = items_of(json.get("cni.dev/valid-attachments"));
    let mut live = Vec::new(alloc);
    for item in items {
        live.push(handle_of(alloc, name, text_at(item, "containerID"))?)?;
    }
    let network = Text::copied(alloc, name)?;
    let node = Text::copied(alloc, text_at(json, "nodename"))?;
    Ok(CniGc {
        version,
        network,
        node,
        live: Seq::of(live),
    })
}

fn status_asked(alloc: Global, version: Version, json: &Value) -> Result<CniStatus, AllocError>
    ensures { IfOk result (λ status. status ≡ status_asked version (view json.now)) }
{
    let node = Text::copied(alloc, text_at(json, "nodename"))?;
    let labels = labels_asked(alloc, json)?;
    let pools4 = pools_asked(alloc, json, "ipv4_pools")?;
    let pools6 = pools_asked(alloc, json, "ipv6_pools")?;
    Ok(CniStatus {
        version,
        node,
        labels,
        ipv4: wants_ipv4(json),
        ipv6: wants_ipv6(json),
        pools4,
        pools6,
    })
}

/// The name of a network, a dot and the id of a container.
fn handle_of(alloc: Global, network: &str, container: &str) -> Result<Text, AllocError>
    ensures { IfOk result (λ handle. handle ≡ container_handle network.now container.now) }
{
    let handle = format!(in alloc; "{network}.{container}")?;
    Ok(Text::of(handle))
}

/// The handle of the call's own container.
fn handle_asked(alloc: Global, env: &[(Text, Text)], json: &Value) -> Result<Text, AllocError>
    ensures { IfOk result (λ handle. handle ≡ handle_asked env.now (view json.now)) }
{
    handle_of(
        alloc,
        text_at(json, "name"),
        value_of(env, Variable::ContainerId),
    )
}

/// The items of the array, or none where there is no array.
fn items_of(found: Option<&Value>) -> &[Value]
    ensures { items_view result.now ≡ items_found (option_map (λ v. view v.now) found.entry) }
{
    match found.and_then(Value::as_array) {
        Some(list) => list.as_slice(),
        None => &[],
    }
}

/// The pools of this name.
fn pools_asked(alloc: Global, json: &Value, name: &str) -> Result<Seq<Text>, AllocError>
    ensures { IfOk result (λ pools. pools ≡ pools_asked name.now (view json.now)) }
{
    let items = items_of(inside(json, "ipam", name));
    let mut texts = Vec::new(alloc);
    for item in items {
        texts.push(Text::copied(alloc, text_of(item))?)?;
    }
    Ok(Seq::of(texts))
}

/// The labels of the node.
fn labels_asked(alloc: Global, json: &Value) -> Result<Seq<(Text, Text)>, AllocError>
    ensures { IfOk result (λ labels. labels ≡ labels_asked (view json.now)) }
{
    let Some(members) = members_at(json, "nodeLabels") else {
        return Ok(Seq::new(alloc));
    };
    let mut labels = Vec::new(alloc);
    for (key, value) in members {
        labels.push(pair(alloc, key.as_str(), text_of(value))?)?;
    }
    Ok(Seq::of(labels))
}

fn pair(alloc: Global, key: &str, value: &str) -> Result<(Text, Text), AllocError>
    ensures { IfOk result (λ pair. pair ≡ (key.now, value.now)) }
{
    let key = Text::copied(alloc, key)?;
    let value = Text::copied(alloc, value)?;
    Ok((key, value))
}

/// What an address is recorded with.
#[tactic(auto, unfolding(crate::specs::Asked::secondary_asked))]
fn secondary_asked(
    alloc: Global,
    env: &[(Text, Text)],
    json: &Value,
) -> Result<Seq<(Text, Text)>, AllocError>
    ensures { IfOk result (λ pairs. pairs ≡ secondary_asked env.now (view json.now)) }
{
    let arguments = value_of(env, Variable::Args);
    let namespace = argument(arguments, "K8S_POD_NAMESPACE");
    let pod = argument(arguments, "K8S_POD_NAME");
    let mut pairs = Vec::new(alloc);
    push_unless_empty(alloc, &mut pairs, "namespace", namespace)?;
    pairs.push(pair(alloc, "network", text_at(json, "name"))?)?;
    pairs.push(pair(alloc, "node", text_at(json, "nodename"))?)?;
    push_unless_empty(alloc, &mut pairs, "pod", pod)?;
    Ok(Seq::of(pairs))
}

fn push_unless_empty(
    alloc: Global,
    pairs: &mut Vec<(Text, Text)>,
    key: &str,
    value: &str,
) -> Result<(), AllocError>
    ensures { OnOk result (pairs.new.items ≡ pairs.old.items ++ unless_empty key.now value.now) }
{
    if value.is_empty() {
        return Ok(());
    }
    pairs.push(pair(alloc, key, value)?)?;
    Ok(())
}
