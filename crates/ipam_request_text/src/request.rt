ghost use Rattle.std.specs.Prelude.{◌≡◌, ◌++◌, IfOk, OnOk, OnErr, string_bytes};
ghost use Rattle.serde_json.specs.Data.{object, string, no_members, put};
ghost use Rattle.serde_json.specs.View.{view, members_view};
ghost use Rattle.ipam_json.specs.Built.{tagged};
ghost use Rattle.ipam_request_text.specs.Members.{with_text, wishes};
ghost use Rattle.ipam_request_text.specs.Requests.{add_members, add_this_data, collect_data, probe_data, one_pool_data, settings_data, change_data, request_data, request_text, live_text};

use crate::members::{
    put_false, put_mode, put_number, put_pairs, put_scope, put_selector, put_texts, put_true,
};
use crate::parts::{address_value, addresses_value, cidr_value, cidrs_value, texts_value};
use ipam_addr::Addr;
use ipam_json::{tagged, two_members};
use ipam_model::{AddRequest, Admin, CollectRequest, ProbeRequest, Request};
use ipam_pool::Pool;
use ipam_records::Config;
use ipam_text::Text;
use serde_json::{Map, Value, put};
use std::alloc::{AllocError, Global};

/// Appends the request's text, which is one line. A member stands in it only where it is not what
/// a request has without it.
pub fn push_request(alloc: Global, out: &mut String, request: &Request) -> Result<(), AllocError>
    ensures ok { OnOk result
        (string_bytes out.new ≡ string_bytes out.old ++ request_text request.now) }
    ensures err { OnErr result (string_bytes out.new ≡ string_bytes out.old) }
{
    let text = request_string(alloc, request)?;
    out.push_str(text.as_str())
}

/// Appends the text of a list of live handles, which is one line.
pub fn push_live(alloc: Global, out: &mut String, live: &[Text]) -> Result<(), AllocError>
    ensures ok { OnOk result (string_bytes out.new ≡ string_bytes out.old ++ live_text live.now) }
    ensures err { OnErr result (string_bytes out.new ≡ string_bytes out.old) }
{
    let text = live_string(alloc, live)?;
    out.push_str(text.as_str())
}

fn live_string(alloc: Global, live: &[Text]) -> Result<String, AllocError>
    ensures { IfOk result (λ s. string_bytes s ≡ live_text live.now) }
{
    let json = texts_value(alloc, live)?;
    json.to_string(alloc)
}

fn request_string(alloc: Global, request: &Request) -> Result<String, AllocError>
    ensures { IfOk result (λ s. string_bytes s ≡ request_text request.now) }
{
    let json = request_value(alloc, request)?;
    json.to_string(alloc)
}

fn request_value(alloc: Global, request: &Request) -> Result<Value, AllocError>
    ensures { IfOk result (λ v. view v ≡ request_data request.now) }
{
    match request {
        Request::Add(add) => tagged(alloc, "add", Value::Object(add_members(alloc, add)?)),
        Request::AddThis(add, address) => add_this_value(alloc, add, *address),
        Request::Del(id) => one_text(alloc, "del", "handle", id),
        Request::Check(id, addresses) => {
            let addresses = addresses_value(alloc, addresses.as_slice())?;
            value_and_text(
                alloc,
                "check",
                "addresses",
                addresses,
                "handle",
                id.as_str(),
            )
        }
        Request::Release(node, cidr) => {
            let cidr = cidr_value(alloc, *cidr)?;
            value_and_text(alloc, "release", "cidr", cidr, "node", node.as_str())
        }
        Request::Collect(collect) => collect_value(alloc, collect),
        Request::Admin(change) => change_value(alloc, change),
        Request::Probe(probe) => probe_value(alloc, probe),
    }
}

fn change_value(alloc: Global, change: &Admin) -> Result<Value, AllocError>
    ensures { IfOk result (λ v. view v ≡ change_data change.now) }
{
    match change {
        Admin::Pool(pool) => pool_value(alloc, pool),
        Admin::Disable(name, disabled) => {
            let disabled = Value::Bool(*disabled);
            value_and_text(
                alloc,
                "disable",
                "disabled",
                disabled,
                "name",
                name.as_str(),
            )
        }
        Admin::Reserve(reservation) => {
            let cidrs = cidrs_value(alloc, reservation.cidrs())?;
            value_and_text(alloc, "reserve", "cidrs", cidrs, "name", reservation.name())
        }
        Admin::Unreserve(name) => one_text(alloc, "unreserve", "name", name),
        Admin::Config(config) => config_value(alloc, config),
    }
}

/// The object of this name that holds one text.
fn one_text(alloc: Global, tag: &str, name: &str, text: &Text) -> Result<Value, AllocError>
    ensures { IfOk result
        (λ v. view v ≡ tagged tag.now (tagged name.now (string text.now))) }
{
    let value = Value::try_from_str(alloc, text.as_str())?;
    let inner = tagged(alloc, name, value)?;
    tagged(alloc, tag, inner)
}

/// The object of this name that holds a value and a text.
fn value_and_text(
    alloc: Global,
    tag: &str,
    first: &str,
    value: Value,
    second: &str,
    text: &str,
) -> Result<Value, AllocError>
    ensures { IfOk result (λ v. view v ≡ tagged tag.now (object
        (put second.now (string text.now) (put first.now (view value) no_members)))) }
{
    let text = Value::try_from_str(alloc, text)?;
    let inner = two_members(alloc, first, value, second, text)?;
    tagged(alloc, tag, inner)
}

fn put_text(
    alloc: Global,
    members: &mut Map<String, Value>,
    name: &str,
    text: &Text,
) -> Result<(), AllocError>
    ensures { OnOk result (members_view members.new.entries
        ≡ with_text name.now text.now (members_view members.old.entries)) }
{
    let value = Value::try_from_str(alloc, text.as_str())?;
    put(members, alloc, name, value)
}

/// Puts which families and pools are wanted, and the labels of the node.
#[tactic(auto, unfolding(crate::specs::Members::wishes))]
fn put_wishes(
    alloc: Global,
    members: &mut Map<String, Value>,
    families: (bool, bool),
    labels: &[(Text, Text)],
    pools4: &[Text],
    pools6: &[Text],
) -> Result<(), AllocError>
    ensures { OnOk result (members_view members.new.entries
        ≡ wishes families.0 families.1 labels.now pools4.now pools6.now
        (members_view members.old.entries)) }
{
    put_false(alloc, members, "ipv4", families.0)?;
    put_true(alloc, members, "ipv6", families.1)?;
    put_pairs(alloc, members, "labels", labels)?;
    put_texts(alloc, members, "pools4", pools4)?;
    put_texts(alloc, members, "pools6", pools6)
}

#[tactic(auto, unfolding(crate::specs::Requests::add_members))]
fn add_members(alloc: Global, add: &AddRequest) -> Result<Map<String, Value>, AllocError>
    ensures { IfOk result (λ m. members_view m.entries ≡ add_members add.now) }
{
    let mut members = Map::new(alloc);
    put_text(alloc, &mut members, "handle", &add.attributes.handle)?;
    put_text(alloc, &mut members, "node", &add.node)?;
    let families = (add.ipv4, add.ipv6);
    let labels = add.labels.as_slice();
    let pools4 = add.pools4.as_slice();
    let pools6 = add.pools6.as_slice();
    put_wishes(alloc, &mut members, families, labels, pools4, pools6)?;
    let secondary = add.attributes.secondary.as_slice();
    put_pairs(alloc, &mut members, "secondary", secondary)?;
    Ok(members)
}

fn add_this_value(alloc: Global, add: &AddRequest, address: Addr) -> Result<Value, AllocError>
    ensures { IfOk result (λ v. view v ≡ add_this_data add.now address) }
{
    let mut members = add_members(alloc, add)?;
    let address = address_value(alloc, address)?;
    put(&mut members, alloc, "address", address)?;
    tagged(alloc, "add", Value::Object(members))
}

#[tactic(auto, unfolding(crate::specs::Requests::collect_members))]
fn collect_value(alloc: Global, collect: &CollectRequest) -> Result<Value, AllocError>
    ensures { IfOk result (λ v. view v ≡ collect_data collect.now) }
{
    let mut members = Map::new(alloc);
    let live = texts_value(alloc, collect.live.as_slice())?;
    put(&mut members, alloc, "live", live)?;
    put_number(alloc, &mut members, "at", collect.at)?;
    put_number(alloc, &mut members, "grace", collect.grace)?;
    put_scope(alloc, &mut members, &collect.scope)?;
    tagged(alloc, "collect", Value::Object(members))
}

#[tactic(auto, unfolding(crate::specs::Requests::probe_members))]
fn probe_value(alloc: Global, probe: &ProbeRequest) -> Result<Value, AllocError>
    ensures { IfOk result (λ v. view v ≡ probe_data probe.now) }
{
    let mut members = Map::new(alloc);
    put_text(alloc, &mut members, "node", &probe.node)?;
    let families = (probe.ipv4, probe.ipv6);
    let labels = probe.labels.as_slice();
    let pools4 = probe.pools4.as_slice();
    let pools6 = probe.pools6.as_slice();
    put_wishes(alloc, &mut members, families, labels, pools4, pools6)?;
    tagged(alloc, "probe", Value::Object(members))
}

#[tactic(auto, unfolding(crate::specs::Requests::pool_members))]
fn pool_value(alloc: Global, pool: &Pool) -> Result<Value, AllocError>
    ensures { IfOk result (λ v. view v ≡ one_pool_data pool.now) }
{
    let mut members = Map::new(alloc);
    let cidr = cidr_value(alloc, pool.cidr)?;
    put(&mut members, alloc, "cidr", cidr)?;
    put_text(alloc, &mut members, "name", &pool.name)?;
    put(&mut members, alloc, "size", Value::from(pool.size))?;
    put_true(alloc, &mut members, "disabled", pool.disabled)?;
    put_mode(alloc, &mut members, pool.mode)?;
    put_selector(alloc, &mut members, &pool.selector)?;
    tagged(alloc, "pool", Value::Object(members))
}

#[tactic(auto, unfolding(crate::specs::Requests::config_members))]
fn config_value(alloc: Global, config: &Config) -> Result<Value, AllocError>
    ensures { IfOk result (λ v. view v ≡ settings_data config.now) }
{
    let mut members = Map::new(alloc);
    put_false(alloc, &mut members, "autoAllocateBlocks", config.auto)?;
    let most = u64::from(config.max_blocks);
    put_number(alloc, &mut members, "maxBlocksPerHost", most)?;
    put_true(alloc, &mut members, "strictAffinity", config.strict)?;
    tagged(alloc, "config", Value::Object(members))
}
