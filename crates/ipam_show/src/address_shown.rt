//! `show ADDRESS`: one address is shown.
ghost use Rattle.std.specs.Prelude.{◌≡◌, ◌++◌, IfOk, OnOk, string_bytes};
ghost use Rattle.serde_json.specs.View.{view};
ghost use Rattle.serde_json.specs.Written.{compact_text};
ghost use Rattle.ipam_block_text.specs.Body.{secondary_data};
ghost use Rattle.ipam_records.specs.Pages.{rows_of_pages};
ghost use Rattle.ipam_show.specs.Address.{address_shown, handle_text, has_pool, held_at, held_in, held_in_block, held_text, lent_holding, place_text, unheld_word};
ghost use Rattle.ipam_show.specs.Words.{node_word};

use crate::keeping::{block_pages, pools_kept, reservations_kept};
use ipam_addr::{Addr, Spared, push_addr, push_cidr};
use ipam_block::{Attributes, Block};
use ipam_pool::Reserved;
use ipam_records::Record;
use ipam_store::Store;
use ipam_text::Text;
use serde_json::{Map, Value, put};
use std::alloc::{AllocError, Global};

/// What the address is: free, reserved or in no pool, in a line; or in use, and then its handle, its
/// attributes, its block and the block's node, in a line each.
pub fn show_address(alloc: Global, store: &Store, addr: Addr) -> Result<String, AllocError>
    ensures { IfOk result (λ text. string_bytes text ≡ address_shown addr store.now.store) }
{
    let mut text = String::new(alloc);
    push_addr(alloc, &mut text, addr)?;
    match held_in(block_pages(store), addr) {
        Some((block, attributes)) => push_held(alloc, &mut text, block, attributes)?,
        None => text.push_str(unheld_word(alloc, store, addr)?)?,
    }
    Ok(text)
}

/// The block that the address is assigned in, and what it is recorded to.
fn held_in(pages: &[Vec<(u64, Record)>], addr: Addr) -> Option<(&Block, &Attributes)>
    ensures { lent_holding result ≡ held_in addr (rows_of_pages pages.now) }
{
    for page in pages {
        if let Some(found) = held_in_rows(page, addr) {
            return Some(found);
        }
    }
    None
}

fn held_in_rows(rows: &[(u64, Record)], addr: Addr) -> Option<(&Block, &Attributes)>
    ensures { lent_holding result ≡ held_in addr rows.now }
{
    for row in rows {
        if let Some(found) = held_at(&row.1, addr) {
            return Some(found);
        }
    }
    None
}

fn held_at(kept: &Record, addr: Addr) -> Option<(&Block, &Attributes)>
    ensures { lent_holding result ≡ held_at addr kept.now }
{
    match kept {
        Record::Block(block) => held_in_block(block, addr),
        _ => None,
    }
}

fn held_in_block(block: &Block, addr: Addr) -> Option<(&Block, &Attributes)>
    ensures { lent_holding result ≡ held_in_block addr block.now }
{
    let cidr = block.cidr();
    if !cidr.contains(addr) {
        return None;
    }
    let offset = (addr.number - cidr.base().number) as u16;
    match block.holder(offset) {
        Some((attributes, _)) => Some((block, attributes)),
        None => None,
    }
}

/// The words for an address that is not assigned, with a line feed.
fn unheld_word(alloc: Global, store: &Store, addr: Addr) -> Result<&'static str, AllocError>
    ensures { IfOk result (λ word. word.now ≡ unheld_word addr store.now.store) }
{
    if !has_pool(store, addr) {
        return Ok(" in no pool\n");
    }
    let reserved = Reserved::of(alloc, reservations_kept(store))?;
    if reserved.is_reserved(addr) {
        Ok(" reserved\n")
    } else {
        Ok(" free\n")
    }
}

/// Whether some pool has the address.
fn has_pool(store: &Store, addr: Addr) -> bool
    ensures { result ≡ has_pool addr store.now.store }
{
    pools_kept(store)
        .iter()
        .any(|pool| pool.cidr.contains(addr))
}

#[tactic(auto, unfolding(crate::specs::Address::held_text))]
fn push_held(
    alloc: Global,
    text: &mut String,
    block: &Block,
    attributes: &Attributes,
) -> Result<(), AllocError>
    ensures { OnOk result (string_bytes text.new ≡ string_bytes text.old ++ held_text block.now attributes.now) }
{
    push_handle(text, attributes)?;
    let pairs = pairs_string(alloc, attributes.secondary.as_slice())?;
    text.push_str(pairs.as_str())?;
    push_place(alloc, text, block)
}

/// Appends the handle.
#[tactic(auto, unfolding(crate::specs::Address::handle_text))]
fn push_handle(text: &mut String, attributes: &Attributes) -> Result<(), AllocError>
    ensures { OnOk result (string_bytes text.new ≡ string_bytes text.old ++ handle_text attributes.now) }
{
    text.push_str(" in use\nhandle ")?;
    text.push_str(attributes.handle.as_str())?;
    text.push_str("\nattributes ")
}

/// Appends the block, and its node.
#[tactic(auto, unfolding(crate::specs::Address::place_text))]
fn push_place(alloc: Global, text: &mut String, block: &Block) -> Result<(), AllocError>
    ensures { OnOk result (string_bytes text.new ≡ string_bytes text.old ++ place_text block.now) }
{
    text.push_str("\nblock ")?;
    push_cidr(alloc, text, block.cidr())?;
    text.push_str("\nnode ")?;
    text.push_str(node_of(block))?;
    text.push_str("\n")
}

/// The block's node, or `-`.
fn node_of(block: &Block) -> &str
    ensures { result.now ≡ node_word block.now.node }
{
    match block.node() {
        Some(node) => node,
        None => "-",
    }
}

/// The pairs as one JSON object.
fn pairs_string(alloc: Global, pairs: &[(Text, Text)]) -> Result<String, AllocError>
    ensures { IfOk result (λ text. string_bytes text ≡ compact_text (secondary_data pairs.now)) }
{
    pairs_value(alloc, pairs)?.to_string(alloc)
}

fn pairs_value(alloc: Global, pairs: &[(Text, Text)]) -> Result<Value, AllocError>
    ensures { IfOk result (λ json. view json ≡ secondary_data pairs.now) }
{
    let mut members = Map::new(alloc);
    for pair in pairs {
        let value = Value::try_from_str(alloc, pair.1.as_str())?;
        put(&mut members, alloc, pair.0.as_str(), value)?;
    }
    Ok(Value::Object(members))
}
