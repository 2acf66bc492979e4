ghost use Rattle.std.specs.Prelude.{◌≡◌, ◌++◌, ℕ, OnOk, IfOk, bytes_eq, position};
ghost use Rattle.std.specs.List.{list_any};
ghost use Rattle.ipam_records.specs.Listing.{rows_of};
ghost use Rattle.ipam_model.specs.Pairs.{has_value};
ghost use Rattle.ipam_collect.specs.Suspects.{leaks_in_block};
ghost use Rattle.ipam_model.specs.Remove.{suspects, leaks_in_row, may_leak, is_in_scope};

use crate::live::Live;
use crate::suspect::Suspect;
use ipam_block::{Allocation, Block};
use ipam_model::CollectRequest;
use ipam_records::{Listing, Record};
use ipam_text::{Seq, Text};
use std::alloc::{AllocError, Global};

/// What the blocks hold in scope for handles that are not in the request's list, by family and
/// address.
pub(crate) fn suspects_in(
    alloc: Global,
    request: &CollectRequest,
    listing: &Listing,
) -> Result<Seq<Suspect>, AllocError>
    ensures { IfOk result (λ found. found ≡ suspects request.now (rows_of listing.now)) }
{
    let live = Live::of(alloc, request.live.as_slice())?;
    let mut found = Seq::new(alloc);
    for page in listing.pages() {
        push_page(&mut found, request, &live, page)?;
    }
    Ok(found)
}

fn push_page(
    found: &mut Seq<Suspect>,
    request: &CollectRequest,
    live: &Live,
    page: &[(u64, Record)],
) -> Result<(), AllocError>
    requires { live.now ≡ request.now.live }
    ensures { OnOk result (found.new ≡ found.old ++ suspects request.now page.now) }
{
    for row in page {
        push_row(found, request, live, &row.1)?;
    }
    Ok(())
}

fn push_row(
    found: &mut Seq<Suspect>,
    request: &CollectRequest,
    live: &Live,
    row: &Record,
) -> Result<(), AllocError>
    requires { live.now ≡ request.now.live }
    ensures { OnOk result ((revision : ℕ) → found.new ≡ found.old ++ leaks_in_row request.now (revision, row.now)) }
{
    match row {
        Record::Block(block) => push_block(found, request, live, block),
        _ => Ok(()),
    }
}

fn push_block(
    found: &mut Seq<Suspect>,
    request: &CollectRequest,
    live: &Live,
    block: &Block,
) -> Result<(), AllocError>
    requires { live.now ≡ request.now.live }
    ensures { OnOk result (found.new ≡ found.old ++ leaks_in_block request.now block.now) }
{
    // A block whose CIDR is read is known to be sound.
    let _cidr = block.cidr();
    for allocation in block.allocations() {
        if may_leak(request, live, allocation) {
            found.push(Suspect::of(block, allocation)?)?;
        }
    }
    Ok(())
}

fn may_leak(request: &CollectRequest, live: &Live, allocation: &Allocation) -> bool
    requires { live.now ≡ request.now.live }
    ensures { result ≡ may_leak request.now allocation.now }
{
    is_in_scope(&request.scope, allocation)
        && !live.has(allocation.attributes.get().handle.as_str())
}

/// Whether the allocation was made for the network on the node.
fn is_in_scope(scope: &Option<(Text, Text)>, allocation: &Allocation) -> bool
    ensures { result ≡ is_in_scope scope.now allocation.now }
{
    let pairs = allocation.attributes.get().secondary.as_slice();
    match scope {
        Some((network, node)) => {
            has_value(pairs, "network", network.as_str()) && has_value(pairs, "node", node.as_str())
        }
        None => true,
    }
}

/// Whether the key has this value.
fn has_value(pairs: &[(Text, Text)], key: &str, value: &str) -> bool
    ensures { result ≡ has_value key.now (bytes_eq value.now) pairs.now }
{
    match place_of(pairs, key) {
        Some(place) => is_text(value, &pairs[place].1),
        None => false,
    }
}

fn is_text(value: &str, other: &Text) -> bool
    ensures { result ≡ bytes_eq value.now other.now }
{
    value == other.as_str()
}

/// The place of the key.
fn place_of(pairs: &[(Text, Text)], key: &str) -> Option<usize>
    ensures { result ≡ position (λ pair. bytes_eq pair.0 key.now) pairs.now }
{
    pairs.iter().position(|pair| pair.0.as_str() == key)
}
