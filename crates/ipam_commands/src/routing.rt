//! `routes NODE`: writes the blocks of a node.
ghost use Rattle.std.specs.Prelude.{◌≡◌, ◌++◌, IfOk, OnOk, string_bytes};
ghost use Rattle.ipam_records.specs.Listing.{rows_of};
ghost use Rattle.ipam_records.specs.Pages.{rows_of_pages};
ghost use Rattle.ipam_records.specs.Datastore.{rows_of_kind};
ghost use Rattle.ipam_records.specs.declared.key.Kind.TheVariants as kind;
ghost use Rattle.ipam_commands.specs.Telling.{ReportsRows, Writes};
ghost use Rattle.ipam_commands.specs.Texts.{line_if_route, is_confirmed, is_route, route_line, route_lines, routes_text};

use crate::loading::Loaded;
use crate::reporting::{TellsRows, tell_rows};
use crate::status::Status;
use ipam_addr::push_cidr;
use ipam_block::{Affinity, State};
use ipam_io::Sink;
use ipam_keeper::Keeper;
use ipam_records::{Call, Kind, Record, Reply};
use ipam_store::Store;
use std::alloc::{AllocError, Global};

/// Writes the CIDR of each confirmed affinity of the node, a line each, by family and base.
pub fn routes<K: Sink, D: Keeper>(alloc: Global, sink: &mut K, keeper: &mut D, node: &str) -> Status
    ensures told { ReportsRows (D.rows keeper.old) (D.faults keeper.old) (D.faults keeper.new) (λ rows store. routes_text node.now store)
        (λ text own. Writes (K.written sink.old) (K.written sink.new)
        (K.write_faults sink.old) (K.write_faults sink.new) text own result) }
    ensures same_rows { D.rows keeper.new ≡ D.rows keeper.old }
    ensures same { D.name keeper.new ≡ D.name keeper.old }
    ensures rest { K.write_rest sink.new ≡ K.write_rest sink.old }
{
    tell_rows(alloc, &Routing { alloc, node }, sink, keeper)
}

/// The routes of this node.
#[derive(Drop)]
struct Routing<'a> {
    alloc: Global,
    node: &'a str,
}

impl<'a> TellsRows for Routing<'a> {
    ghost wants = { λ _. Unit {0} };

    ghost says = { λ routing rows store. routes_text routing.node.now store };

    fn text(&self, loaded: &Loaded) -> Result<String, AllocError> {
        routes_text(self.alloc, self.node, &loaded.store)
    }
}

fn routes_text(alloc: Global, node: &str, store: &Store) -> Result<String, AllocError>
    ensures { IfOk result (λ text. string_bytes text ≡ routes_text node.now store.now.store) }
{
    let mut text = String::new(alloc);
    let pages = affinity_pages(store);
    for page in pages {
        push_page(alloc, &mut text, node, page)?;
    }
    Ok(text)
}

/// The rows of the affinities, page by page.
fn affinity_pages(store: &Store) -> &[Vec<(u64, Record)>]
    ensures { rows_of_pages result.now ≡ rows_of_kind kind.Affinity store.now.store }
{
    match store.reply(&Call::List(Kind::Affinity)) {
        Reply::Listed(listing) => listing.pages(),
        _ => &[],
    }
}

fn push_page(
    alloc: Global,
    text: &mut String,
    node: &str,
    page: &Vec<(u64, Record)>,
) -> Result<(), AllocError>
    ensures { OnOk result (string_bytes text.new ≡ string_bytes text.old ++ route_lines node.now page.now.items) }
{
    for row in page {
        push_route(alloc, text, node, &row.1)?;
    }
    Ok(())
}

/// Appends the line of the record, if it is a confirmed affinity of the node.
fn push_route(
    alloc: Global,
    text: &mut String,
    node: &str,
    found: &Record,
) -> Result<(), AllocError>
    ensures { OnOk result (string_bytes text.new ≡ string_bytes text.old ++ route_line node.now found.now) }
{
    match found {
        Record::Affinity(affinity) => push_affinity(alloc, text, node, affinity),
        _ => Ok(()),
    }
}

#[tactic(auto, unfolding(crate::specs::Texts::line_if_route))]
fn push_affinity(
    alloc: Global,
    text: &mut String,
    node: &str,
    affinity: &Affinity,
) -> Result<(), AllocError>
    ensures { OnOk result (string_bytes text.new ≡ string_bytes text.old ++ line_if_route node.now affinity.now) }
{
    if !is_route(node, affinity) {
        return Ok(());
    }
    push_cidr(alloc, text, affinity.cidr)?;
    text.push_str("\n")
}

/// Whether it is a confirmed affinity of the node.
fn is_route(node: &str, affinity: &Affinity) -> bool
    ensures { result ≡ is_route node.now affinity.now }
{
    affinity.node.as_str() == node && is_confirmed(affinity.state)
}

fn is_confirmed(state: State) -> bool
    ensures { result ≡ is_confirmed state }
{
    match state {
        State::Confirmed => true,
        State::Pending | State::PendingDeletion => false,
    }
}
