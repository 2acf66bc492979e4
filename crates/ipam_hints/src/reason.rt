//! Why a member of a document is refused.
use ipam_addr::{read_addr, read_cidr};
use ipam_json::items_at;
use ipam_resources::{Member, Place};
use serde_json::Value;
use std::alloc::{AllocError, Global};

/// The most ranges of a reservation.
const MOST_RANGES: usize = 64;

/// The line of why the member at this place is refused.
pub(crate) fn reason_of(alloc: Global, json: &Value, place: Place) -> Result<String, AllocError> {
    let path = path_of(alloc, place)?;
    let path = path.as_str();
    match value_at(json, place) {
        None => format!(in alloc; "{path} is missing"),
        Some(value) => reason_of_value(alloc, path, place.member, value),
    }
}

/// The path as the refusal writes it.
fn path_of(alloc: Global, place: Place) -> Result<String, AllocError> {
    let name = place.member.name();
    let member = match place.member.part() {
        Some(part) => format!(in alloc; "{part}.{name}")?,
        None => String::from_str(alloc, name)?,
    };
    let member = member.as_str();
    match place.item {
        Some(item) => format!(in alloc; "items.{item}.{member}"),
        None => String::from_str(alloc, member),
    }
}

/// What stands at the place.
fn value_at(json: &Value, place: Place) -> Option<&Value> {
    let resource = match place.item {
        Some(item) => items_at(json, "items")?.get(item)?,
        None => json,
    };
    let part = match place.member.part() {
        Some(part) => resource.get(part)?,
        None => resource,
    };
    part.get(place.member.name())
}

fn reason_of_value(
    alloc: Global,
    path: &str,
    member: Member,
    value: &Value,
) -> Result<String, AllocError> {
    match (member, value) {
        (Member::Cidr, Value::String(text)) => cidr_reason(alloc, path, text.as_str()),
        (Member::ReservedCidrs, Value::Array(ranges)) => {
            ranges_reason(alloc, path, ranges.as_slice())
        }
        _ => {
            let wants = wanted(member);
            let found = value.to_string(alloc)?;
            let found = shortened(found.as_str());
            format!(in alloc; "{path} wants {wants}, and is {found}")
        }
    }
}

/// What may stand there.
fn wanted(member: Member) -> &'static str {
    match member {
        Member::Kind => {
            "IPPool, IPReservation, IPAMConfig, IPAMConfiguration, or List, IPPoolList or IPReservationList"
        }
        Member::Items => "an array of resources",
        Member::Name => {
            "a text of 1 to 253 letters, digits, `_`, `.` and `-`, of which the first is a letter or digit"
        }
        Member::Cidr => "the text of a CIDR",
        Member::BlockSize => "a whole number from 0 to 255",
        Member::Disabled | Member::StrictAffinity | Member::AutoAllocateBlocks => "true or false",
        Member::NodeSelector => "the text of a selector of at most 1,024 bytes",
        Member::AllowedUses => "an array that is empty or lists Workload",
        Member::AssignmentMode => "Automatic or Manual",
        Member::ReservedCidrs => "an array of at most 64 CIDRs and addresses",
        Member::MaxBlocksPerHost => "a whole number from 0 to 4294967295",
    }
}

/// The first characters of a value that may be long.
fn shortened(text: &str) -> &str {
    match text.char_indices().nth(60) {
        Some((end, _)) => text.get(..end).unwrap_or(text),
        None => text,
    }
}

fn cidr_reason(alloc: Global, path: &str, text: &str) -> Result<String, AllocError> {
    let shown = shortened(text);
    match read_cidr(text.as_bytes()) {
        Err(fault) => format!(in alloc; "{path} is {shown:?}: {fault}"),
        Ok(_) => format!(in alloc; "{path} is {shown:?}"),
    }
}

fn ranges_reason(alloc: Global, path: &str, ranges: &[Value]) -> Result<String, AllocError> {
    let count = ranges.len();
    if count > MOST_RANGES {
        return format!(in alloc; "{path} has {count} ranges, and may have 64");
    }
    for (index, range) in ranges.iter().enumerate() {
        match range.as_str() {
            Some(text) if is_range(text) => {}
            Some(text) => return range_reason(alloc, path, index, text),
            None => return format!(in alloc; "{path}.{index} is no text of a CIDR or an address"),
        }
    }
    format!(in alloc; "{path} is refused")
}

fn is_range(text: &str) -> bool {
    read_cidr(text.as_bytes()).is_ok() || read_addr(text.as_bytes()).is_ok()
}

fn range_reason(alloc: Global, path: &str, index: usize, text: &str) -> Result<String, AllocError> {
    let shown = shortened(text);
    match read_cidr(text.as_bytes()) {
        Err(fault) => format!(in alloc; "{path}.{index} is {shown:?}: {fault}"),
        Ok(_) => format!(in alloc; "{path}.{index} is {shown:?}"),
    }
}
