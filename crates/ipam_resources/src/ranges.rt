//! The ranges of a reservation: CIDRs, and addresses that stand for the CIDRs of them alone.
ghost use Rattle.std.specs.Prelude.{◌≡◌, [], ◌∷◌, ◌++◌, IfOk, option_map};
ghost use Rattle.std.specs.Prelude.{Some};
ghost use Rattle.ipam_addr.specs.Text.{address_of};
ghost use Rattle.serde_json.specs.View.{view, items_view};
ghost use Rattle.ipam_resources.specs.Values.{cidr_of_address, range_of, range_in, ranges_after, ranges_in};

use ipam_addr::{Addr, Cidr, cidr, read_addr};
use ipam_record_text::cidr_of;
use serde_json::Value;
use std::alloc::{AllocError, Global};

/// The ranges that the JSON is an array of.
#[tactic(auto, unfolding(crate::specs::Values::ranges_in))]
pub(crate) fn ranges_in(alloc: Global, json: &Value) -> Result<Option<Vec<Cidr>>, AllocError>
    ensures { IfOk result (λ found. option_map (λ v. v.items) found ≡ ranges_in (view json.now)) }
{
    let Some(items) = json.as_array() else {
        return Ok(None);
    };
    ranges_of(alloc, items.as_slice())
}

fn ranges_of(alloc: Global, items: &[Value]) -> Result<Option<Vec<Cidr>>, AllocError>
    ensures { IfOk result
        (λ found. option_map (λ v. v.items) found ≡ ranges_after [] (items_view items.now)) }
{
    let mut ranges = Vec::new(alloc);
    for item in items {
        let Some(range) = range_in(item) else {
            return Ok(None);
        };
        ranges.push(range)?;
    }
    Ok(Some(ranges))
}

#[tactic(auto, unfolding(crate::specs::Values::range_in))]
fn range_in(json: &Value) -> Option<Cidr>
    ensures { result ≡ range_in (view json.now) }
{
    let text = json.as_str()?;
    range_of(text)
}

/// The CIDR that the text writes, or that of the address that it writes.
#[tactic(auto, unfolding(crate::specs::Values::range_of))]
fn range_of(text: &str) -> Option<Cidr>
    ensures { result ≡ range_of text.now }
{
    match cidr_of(text) {
        Some(cidr) => Some(cidr),
        None => address_range(text),
    }
}

fn address_range(text: &str) -> Option<Cidr>
    ensures { result ≡ option_map cidr_of_address (address_of text.now) }
{
    match read_addr(text.as_bytes()) {
        Ok(address) => whole(address),
        Err(_) => None,
    }
}

/// The CIDR of the address alone.
fn whole(address: Addr) -> Option<Cidr>
    ensures { result ≡ Some (cidr_of_address address) }
{
    cidr(address, address.family.width()).ok()
}
