//! The JSON of what answers are made of.
ghost use Rattle.std.specs.Prelude.{◌≡◌, codes, map, IfOk, OnOk, string_bytes};
ghost use Rattle.serde_json.specs.Data.{string, no_members, put};
ghost use Rattle.serde_json.specs.View.{view, members_view};
ghost use Rattle.ipam_json.specs.Built.{array_of, tagged, whole_data};
ghost use Rattle.ipam_addr.specs.Text.{address_text, cidr_text_of};
ghost use Rattle.ipam_answer_text.specs.Answers.{scan_data, given_data, given_this_data, item_data, family_number};

use ipam_addr::{Addr, Cidr, Family, push_addr, push_cidr};
use ipam_json::tagged;
use ipam_model::{Given, GivenThis, Item, Scan};
use serde_json::{Map, Value, put};
use std::alloc::{AllocError, Global};

pub(crate) fn address_string(alloc: Global, address: Addr) -> Result<String, AllocError>
    ensures { IfOk result (λ s. string_bytes s ≡ address_text address) }
{
    let mut text = String::new(alloc);
    push_addr(alloc, &mut text, address)?;
    Ok(text)
}

/// The text of the CIDR.
pub fn cidr_string(alloc: Global, cidr: Cidr) -> Result<String, AllocError>
    ensures { IfOk result (λ s. string_bytes s ≡ cidr_text_of cidr) }
{
    let mut text = String::new(alloc);
    push_cidr(alloc, &mut text, cidr)?;
    Ok(text)
}

fn family_number(family: Family) -> u8
    ensures { result ≡ family_number family }
{
    match family {
        Family::V4 => 4,
        Family::V6 => 6,
    }
}

/// The moments of the reads of the blocks, of the configuration and of the pools.
fn three_moments(alloc: Global, b: u64, c: u64, p: u64) -> Result<Map<String, Value>, AllocError>
    ensures { IfOk result (λ m. members_view m.entries ≡ put (codes "p") (whole_data p)
        (put (codes "c") (whole_data c) (put (codes "b") (whole_data b) no_members))) }
{
    let mut members = Map::new(alloc);
    put(&mut members, alloc, "b", Value::from(b))?;
    put(&mut members, alloc, "c", Value::from(c))?;
    put(&mut members, alloc, "p", Value::from(p))?;
    Ok(members)
}

/// Puts the moments of the list of affinities and of the read of the reservations.
fn put_moments(
    alloc: Global,
    members: &mut Map<String, Value>,
    f: u64,
    r: u64,
) -> Result<(), AllocError>
    ensures { OnOk result (members_view members.new.entries
        ≡ put (codes "r") (whole_data r) (put (codes "f") (whole_data f)
        (members_view members.old.entries))) }
{
    put(members, alloc, "f", Value::from(f))?;
    put(members, alloc, "r", Value::from(r))
}

fn put_address(
    alloc: Global,
    members: &mut Map<String, Value>,
    address: Addr,
) -> Result<(), AllocError>
    ensures { OnOk result (members_view members.new.entries
        ≡ put (codes "address") (string (address_text address)) (members_view members.old.entries)) }
{
    let text = address_string(alloc, address)?;
    put(members, alloc, "address", Value::String(text))
}

#[tactic(auto, unfolding(crate::specs::Answers::scan_data))]
pub(crate) fn scan_value(alloc: Global, scan: &Scan) -> Result<Value, AllocError>
    ensures { IfOk result (λ v. view v ≡ scan_data scan.now) }
{
    let mut members = three_moments(alloc, scan.b, scan.c, scan.p)?;
    put_moments(alloc, &mut members, scan.f, scan.r)?;
    let family = family_number(scan.family);
    put(&mut members, alloc, "family", Value::from(family))?;
    Ok(Value::Object(members))
}

#[tactic(auto, unfolding(crate::specs::Answers::given_data))]
fn given_value(alloc: Global, given: &Given) -> Result<Value, AllocError>
    ensures { IfOk result (λ v. view v ≡ given_data given.now) }
{
    let mut members = three_moments(alloc, given.b, given.c, given.p)?;
    put_moments(alloc, &mut members, given.f, given.r)?;
    put_address(alloc, &mut members, given.address)?;
    put(&mut members, alloc, "w", Value::from(given.w))?;
    Ok(Value::Object(members))
}

#[tactic(auto, unfolding(crate::specs::Answers::given_this_data))]
pub(crate) fn added_this_value(alloc: Global, given: &GivenThis) -> Result<Value, AllocError>
    ensures { IfOk result (λ v. view v ≡ tagged (codes "addedThis") (given_this_data given.now)) }
{
    let mut members = three_moments(alloc, given.b, given.c, given.p)?;
    put_address(alloc, &mut members, given.address)?;
    put(&mut members, alloc, "w", Value::from(given.w))?;
    tagged(alloc, "addedThis", Value::Object(members))
}

#[tactic(auto, unfolding(crate::specs::Answers::item_data))]
fn item_value(alloc: Global, item: &Item) -> Result<Value, AllocError>
    ensures { IfOk result (λ v. view v ≡ item_data item.now) }
{
    let mut members = Map::new(alloc);
    put_address(alloc, &mut members, item.address)?;
    put(&mut members, alloc, "freed", Value::Bool(item.freed))?;
    let handle = Value::try_from_str(alloc, item.handle.as_str())?;
    put(&mut members, alloc, "handle", handle)?;
    put(&mut members, alloc, "stamp", Value::from(item.stamp))?;
    Ok(Value::Object(members))
}

pub(crate) fn ready_value(alloc: Global, scans: &[Scan]) -> Result<Value, AllocError>
    ensures { IfOk result
        (λ v. view v ≡ tagged (codes "ready") (array_of (map scan_data scans.now))) }
{
    let mut list = Vec::new(alloc);
    for scan in scans {
        list.push(scan_value(alloc, scan)?)?;
    }
    tagged(alloc, "ready", Value::Array(list))
}

pub(crate) fn added_value(alloc: Global, givens: &[Given]) -> Result<Value, AllocError>
    ensures { IfOk result
        (λ v. view v ≡ tagged (codes "added") (array_of (map given_data givens.now))) }
{
    let mut list = Vec::new(alloc);
    for given in givens {
        list.push(given_value(alloc, given)?)?;
    }
    tagged(alloc, "added", Value::Array(list))
}

pub(crate) fn items_value(alloc: Global, items: &[Item]) -> Result<Value, AllocError>
    ensures { IfOk result (λ v. view v ≡ array_of (map item_data items.now)) }
{
    let mut list = Vec::new(alloc);
    for item in items {
        list.push(item_value(alloc, item)?)?;
    }
    Ok(Value::Array(list))
}
