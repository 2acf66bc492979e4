//! The configuration of a call is tested.
ghost use Rattle.std.specs.Prelude.{◌≡◌, codes};
ghost use Rattle.cni_types.specs.Reading.{inside as found_inside};
ghost use Rattle.serde_json.specs.View.{view};
ghost use Rattle.ipam_addr.specs.Text.{cidr_reading};
ghost use Rattle.cni_types.specs.Configuration.{choice, wants_ipv4, wants_ipv6, is_pool_text, are_pools, has_prefix, address_with_prefix_in, are_addresses, network_tested, families_tested, result_tested, attachment_tested, attachments_tested, configuration_tested};

use crate::command::Command;
use crate::labels::are_labels;
use crate::members::{are_few, inside, is_name_at, text_at, text_of};
use crate::refusal::Member;
use ipam_addr::{Addr, AddrFault, is_name, read_addr, read_cidr};
use ipam_block::CHECKED_MAX;
use ipam_json::{items_at, members_at};
use ipam_pool::MOST_POOLS;
use serde_json::Value;

/// The first member that is bad, in the order in which they are tested.
#[tactic(auto, unfolding(crate::specs::Configuration::wishes_tested, crate::specs::Configuration::check_tested, crate::specs::Configuration::gc_tested))]
pub(crate) fn test_configuration(command: Command, json: &Value) -> Result<(), Member>
    ensures { result ≡ configuration_tested command (view json.now) }
{
    match command {
        Command::Add | Command::Del | Command::Status => {
            test_network(json)?;
            test_families(json)
        }
        Command::Check => {
            test_network(json)?;
            test_families(json)?;
            test_result(json)
        }
        Command::Gc => {
            test_network(json)?;
            test_attachments(json)
        }
        Command::Version => Ok(()),
    }
}

#[tactic(auto, unfolding(crate::specs::Configuration::network_tested))]
fn test_network(json: &Value) -> Result<(), Member>
    ensures { result ≡ network_tested (view json.now) }
{
    if !is_name_at(json, "name") {
        return Err(Member::Name);
    }
    if !is_name_at(json, "nodename") {
        return Err(Member::NodeName);
    }
    if !are_labels(json) {
        return Err(Member::NodeLabels);
    }
    if members_at(json, "ipam").is_none() {
        return Err(Member::Ipam);
    }
    let kind = inside(json, "ipam", "type").and_then(Value::as_str);
    if kind.unwrap_or("") == "calico-ipam" {
        Ok(())
    } else {
        Err(Member::IpamType)
    }
}

#[tactic(auto, unfolding(crate::specs::Configuration::families_tested))]
fn test_families(json: &Value) -> Result<(), Member>
    ensures { result ≡ families_tested (view json.now) }
{
    if choice(json, "assign_ipv4", true).is_none() {
        return Err(Member::AssignIpv4);
    }
    if choice(json, "assign_ipv6", false).is_none() {
        return Err(Member::AssignIpv6);
    }
    if !wants_ipv4(json) && !wants_ipv6(json) {
        return Err(Member::AssignIpv4);
    }
    if !are_pools(json, "ipv4_pools") {
        return Err(Member::Ipv4Pools);
    }
    if !are_pools(json, "ipv6_pools") {
        return Err(Member::Ipv6Pools);
    }
    Ok(())
}

/// Whether the configuration wants an IPv4 address.
pub(crate) fn wants_ipv4(json: &Value) -> bool
    ensures { result ≡ wants_ipv4 (view json.now) }
{
    choice(json, "assign_ipv4", true).unwrap_or(true)
}

/// Whether the configuration wants an IPv6 address.
pub(crate) fn wants_ipv6(json: &Value) -> bool
    ensures { result ≡ wants_ipv6 (view json.now) }
{
    choice(json, "assign_ipv6", false).unwrap_or(false)
}

/// Whether a family is wanted: the truth value of this name or its text, or the default where
/// there is none. `None` where it is neither.
fn choice(json: &Value, name: &str, default: bool) -> Option<bool>
    ensures { result ≡ choice name.now default (view json.now) }
{
    match inside(json, "ipam", name) {
        None => Some(default),
        Some(Value::Bool(truth)) => Some(*truth),
        Some(Value::String(text)) => match text.as_str() {
            "true" => Some(true),
            "false" => Some(false),
            _ => None,
        },
        Some(_) => None,
    }
}

/// Whether the pools of this name are missing or good.
fn are_pools(json: &Value, name: &str) -> bool
    ensures { result ≡ are_pools (found_inside (codes "ipam") name.now (view json.now)) }
{
    let Some(pools) = inside(json, "ipam", name) else {
        return true;
    };
    let Some(list) = pools.as_array() else {
        return false;
    };
    let items = list.as_slice();
    if !are_few(items, MOST_POOLS) {
        return false;
    }
    for item in items {
        if !is_pool_text(text_of(item)) {
            return false;
        }
    }
    true
}

/// Whether it may name a pool, by the pool's name or its CIDR.
fn is_pool_text(text: &str) -> bool
    ensures { result ≡ is_pool_text text.now }
{
    is_name(text.as_bytes()) || read_cidr(text.as_bytes()).is_ok()
}

#[tactic(auto, unfolding(crate::specs::Configuration::result_tested))]
fn test_result(json: &Value) -> Result<(), Member>
    ensures { result ≡ result_tested (view json.now) }
{
    if members_at(json, "prevResult").is_none() {
        return Err(Member::PrevResult);
    }
    if !are_addresses(json) {
        return Err(Member::PrevResultIps);
    }
    Ok(())
}

/// Whether the addresses of the earlier result are missing or good.
fn are_addresses(json: &Value) -> bool
    ensures { result
        ≡ are_addresses (found_inside (codes "prevResult") (codes "ips") (view json.now)) }
{
    let Some(ips) = inside(json, "prevResult", "ips") else {
        return true;
    };
    let Some(list) = ips.as_array() else {
        return false;
    };
    let items = list.as_slice();
    if !are_few(items, CHECKED_MAX) {
        return false;
    }
    for item in items {
        if address_in(item).is_none() {
            return false;
        }
    }
    true
}

/// The address of an object, whose text is an address, `/` and a prefix. Bits below the prefix may
/// be set.
#[tactic(auto, unfolding(crate::specs::Configuration::address_with_prefix))]
pub(crate) fn address_in(value: &Value) -> Option<Addr>
    ensures { result ≡ address_with_prefix_in (view value.now) }
{
    let text = text_at(value, "address");
    if !has_prefix(text) {
        return None;
    }
    match text.split_once('/') {
        Some((address, _)) => read_addr(address.as_bytes()).ok(),
        None => None,
    }
}

fn has_prefix(text: &str) -> bool
    ensures { result ≡ has_prefix (cidr_reading text.now) }
{
    match read_cidr(text.as_bytes()) {
        Ok(_) => true,
        Err(fault) => fault == AddrFault::HostBits,
    }
}

fn test_attachments(json: &Value) -> Result<(), Member>
    ensures { result ≡ attachments_tested (view json.now) }
{
    let Some(items) = items_at(json, "cni.dev/valid-attachments") else {
        return Err(Member::Attachments);
    };
    for (index, item) in items.iter().enumerate() {
        test_attachment(index, item)?;
    }
    Ok(())
}

#[tactic(auto, unfolding(crate::specs::Configuration::attachment_tested))]
fn test_attachment(index: usize, item: &Value) -> Result<(), Member>
    ensures { result ≡ attachment_tested index (view item.now) }
{
    if item.as_object().is_none() {
        return Err(Member::Attachment(index));
    }
    if !is_name_at(item, "containerID") {
        return Err(Member::AttachmentContainer(index));
    }
    match ipam_json::text_at(item, "ifname") {
        Some(_) => Ok(()),
        None => Err(Member::AttachmentInterface(index)),
    }
}
