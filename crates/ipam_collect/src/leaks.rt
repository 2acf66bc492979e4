ghost use Rattle.std.specs.Prelude.{◌≡◌, ◌<◌, ◌≤◌, ◌%◌, ◌^◌, ◌&&◌, ℕ, not, Some, IfOk};
ghost use Rattle.std.specs.List.{list_any};
ghost use Rattle.ipam_block.specs.Operations.{ordinal_address};
ghost use Rattle.ipam_records.specs.Listing.{rows_of};
ghost use Rattle.ipam_model.specs.Owners.{is_owner_in, same_owner, same_address, owner_of, owners_in_row};
ghost use Rattle.ipam_model.specs.Remove.{leaks, is_live};
ghost use Rattle.ipam_records.specs.Datastore.{row_of};
ghost use Rattle.ipam_records.specs.declared.key.Key.TheVariants as key;
ghost use Rattle.ipam_collect.specs.Leaks.{AreSoundRows, block_around, owners_found};

use crate::live::Live;
use crate::suspect::Suspect;
use ipam_addr::{Addr, Cidr, cidr};
use ipam_block::{Allocation, Block};
use ipam_records::{Listing, Record};
use ipam_text::{Seq, Text};
use std::alloc::{AllocError, Global};

/// How many sizes of blocks there are: the bits after the prefix are at most 12.
const BLOCK_SIZES: u8 = 13;

/// The suspects that hold their addresses still, for handles that are not in this list either.
pub(crate) fn leaks_of(
    alloc: Global,
    suspects: &[Suspect],
    live: &[Text],
    listing: &Listing,
) -> Result<Seq<Suspect>, AllocError>
    requires { AreSoundRows (rows_of listing.now) }
    ensures { IfOk result (λ found. found ≡ leaks suspects.now live.now (rows_of listing.now)) }
{
    let live = Live::of(alloc, live)?;
    let mut found = Seq::new(alloc);
    for suspect in suspects {
        if is_leak(suspect, &live, listing) {
            found.push(suspect.clone()?)?;
        }
    }
    Ok(found)
}

fn is_leak(suspect: &Suspect, live: &Live, listing: &Listing) -> bool
    requires { AreSoundRows (rows_of listing.now) }
    ensures { result ≡ (is_owner_in (rows_of listing.now) suspect.now.owner
        && not (is_live live.now suspect.now.owner.handle)) }
{
    holds_still(suspect, listing) && !live.has(suspect.handle())
}

/// Whether the address is recorded in one of the blocks as the suspect has it. Most suspects are
/// found where they were.
fn holds_still(suspect: &Suspect, listing: &Listing) -> bool
    requires { AreSoundRows (rows_of listing.now) }
    ensures { result ≡ is_owner_in (rows_of listing.now) suspect.now.owner }
{
    if holds_in(suspect, listing, suspect.block()) {
        return true;
    }
    holds_around(suspect, listing)
}

/// Whether the address is recorded as the suspect has it in a block of any size. Looks at the
/// block of each size that would have the address.
fn holds_around(suspect: &Suspect, listing: &Listing) -> bool
    requires { AreSoundRows (rows_of listing.now) }
    ensures { result ≡ is_owner_in (rows_of listing.now) suspect.now.owner }
{
    for bits in 0..BLOCK_SIZES {
        if holds_in_size(suspect, listing, bits) {
            return true;
        }
    }
    false
}

/// Whether it is recorded in the block with this many bits after the prefix.
fn holds_in_size(suspect: &Suspect, listing: &Listing, bits: u8) -> bool
    requires { bits < 13 }
    ensures { result ≡ list_any (same_owner suspect.now.owner)
        (owners_found (row_of (key.Block (block_around suspect.now.owner.address bits)) (rows_of listing.now))) }
{
    match around(suspect.address(), bits) {
        Some(block) => holds_in(suspect, listing, block),
        None => false,
    }
}

/// The block around the address, with this many bits after the prefix.
fn around(addr: Addr, bits: u8) -> Option<Cidr>
    requires { bits < 13 }
    ensures { result ≡ Some (block_around addr bits) }
{
    let low = low_part(addr.number, bits);
    let first = Addr {
        family: addr.family,
        number: addr.number - low,
    };
    match cidr(first, addr.family.width() - bits) {
        Ok(block) => Some(block),
        Err(_) => None,
    }
}

/// The number that the last bits make.
fn low_part(number: u128, bits: u8) -> u128
    requires { bits < 13 }
    ensures value { result ≡ number % 2 ^ bits }
    ensures small { result ≤ number }
{
    number % (1 << bits)
}

/// Whether it is recorded in the block of this CIDR.
fn holds_in(suspect: &Suspect, listing: &Listing, cidr: Cidr) -> bool
    ensures { result ≡ list_any (same_owner suspect.now.owner)
        (owners_found (row_of (key.Block cidr) (rows_of listing.now))) }
{
    match listing.find(cidr) {
        Some((_, row)) => is_in_row(suspect, row),
        None => false,
    }
}

#[tactic(auto, using(crate::proofs::SuspectLemmas::list_any_map))]
fn is_in_row(suspect: &Suspect, row: &Record) -> bool
    ensures { (revision : ℕ) → result ≡ list_any (same_owner suspect.now.owner) (owners_in_row (revision, row.now)) }
{
    match row {
        Record::Block(block) => is_in_block(suspect, block),
        _ => false,
    }
}

fn is_in_block(suspect: &Suspect, block: &Block) -> bool
    ensures { result ≡ list_any (λ a. same_owner suspect.now.owner (owner_of block.now.cidr a)) block.now.allocations }
{
    let cidr = block.cidr();
    block
        .allocations()
        .iter()
        .any(|allocation| is_owner(suspect, cidr, allocation))
}

fn is_owner(suspect: &Suspect, cidr: Cidr, allocation: &Allocation) -> bool
    ensures { result ≡ same_owner suspect.now.owner (owner_of cidr allocation.now) }
{
    is_address(suspect.address(), cidr, allocation.ordinal)
        && suspect.handle() == allocation.attributes.get().handle.as_str()
        && suspect.stamp() == allocation.stamp
}

/// Whether the address is that of the ordinal.
#[tactic(auto, using(crate::proofs::SuspectLemmas::too_far))]
fn is_address(address: Addr, cidr: Cidr, ordinal: u16) -> bool
    ensures { result ≡ same_address address (ordinal_address cidr ordinal) }
{
    let base = cidr.base();
    match base.number.checked_add(u128::from(ordinal)) {
        Some(number) => address.family == base.family && address.number == number,
        None => false,
    }
}
