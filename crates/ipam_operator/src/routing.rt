//! `routes NODE`: the blocks of a node.
ghost use Rattle.std.specs.Prelude.{◌≡◌, ◌++◌, ℕ, List, [], Result, Ok, Err, IfOk, IfSome, OnOk, option_map, string_bytes};
ghost use Rattle.std.specs.Io.KnownBytes.{prepend_known};
ghost use Rattle.std.specs.Result.{result_map_both};
ghost use Rattle.serde_json.specs.View.{items_view, view};
ghost use Rattle.ipam_operator.specs.declared.asking.AskFault.{AskFault as Fault};
ghost use Rattle.ipam_operator.specs.Asking.{Asks};
ghost use Rattle.ipam_operator.specs.Routes.{route_text, route_texts, routes_line, routes_of_line};
ghost use Rattle.ipam_operator.specs.Routing.{routes_end, routes_said};
ghost use Rattle.ipam_operator.specs.Telling.{Says};

use crate::answer::json_of_line;
use crate::asking::{AskFault, REPLY_BYTES, ask};
use crate::end::End;
use crate::telling::{tell, tell_fault};
use ipam_addr::{push_cidr, read_cidr};
use ipam_io::{Lines, Link, Sink};
use ipam_json::{items_at, text_at};
use serde_json::Value;
use std::alloc::{AllocError, Global};

/// Asks the daemon for all routes, and writes the CIDR of each that is the node's, a line each, in the
/// order of the reply, which is by family and base.
pub fn routes<K: Sink, L: Link>(alloc: Global, sink: &mut K, link: &mut L, node: &str) -> End
    ensures told { (came : Result (List ℕ) Fault) × (held : List ℕ)
        × Asks (routes_of_line node.now) routes_line came
        (record {
          sent = L.written link.old;
          send_faults = L.write_faults link.old;
          coming = L.left link.old;
          read_faults = L.read_faults link.old;
        })
        (record {
          sent = L.written link.new;
          send_faults = L.write_faults link.new;
          coming = prepend_known held (L.left link.new);
          read_faults = L.read_faults link.new;
        })
        × Says (came ≡ Err Fault.Memory) (K.written sink.old) (K.written sink.new)
        (K.write_faults sink.old) (K.write_faults sink.new) (routes_said came) (routes_end came) result }
    ensures rest { K.write_rest sink.new ≡ K.write_rest sink.old }
{
    match come_to(alloc, link, node) {
        Ok(text) => tell(sink, text.as_str(), End::Done),
        Err(fault) => tell_fault(sink, fault),
    }
}

/// What is written of the reply.
fn come_to<L: Link>(alloc: Global, link: &mut L, node: &str) -> Result<String, AskFault>
    ensures asked { (held : List ℕ)
        × Asks (routes_of_line node.now) routes_line (result_map_both string_bytes (λ why. why) result)
        (record {
          sent = L.written link.old;
          send_faults = L.write_faults link.old;
          coming = L.left link.old;
          read_faults = L.read_faults link.old;
        })
        (record {
          sent = L.written link.new;
          send_faults = L.write_faults link.new;
          coming = prepend_known held (L.left link.new);
          read_faults = L.read_faults link.new;
        }) }
{
    let mut lines = Lines::<REPLY_BYTES>::new(alloc);
    match ask(link, &mut lines, "{\"routes\":true}\n") {
        Ok(line) => match routes_of_line(alloc, node, line.as_slice()) {
            Ok(Some(text)) => Ok(text),
            Ok(None) => Err(AskFault::Reply),
            Err(AllocError) => Err(AskFault::Memory),
        },
        Err(fault) => Err(fault),
    }
}

/// The lines of the node's routes, where the line is a list of routes.
#[tactic(auto, unfolding(crate::specs::Routes::routes_of_line, crate::specs::Routes::routes_in))]
fn routes_of_line(alloc: Global, node: &str, line: &[u8]) -> Result<Option<String>, AllocError>
    ensures { IfOk result (λ found. option_map string_bytes found ≡ routes_of_line node.now line.now) }
{
    let Some(json) = json_of_line(alloc, line)? else {
        return Ok(None);
    };
    match items_at(&json, "routes") {
        Some(items) => route_texts(alloc, node, items),
        None => Ok(None),
    }
}

fn route_texts(alloc: Global, node: &str, items: &[Value]) -> Result<Option<String>, AllocError>
    ensures { IfOk result (λ found. option_map string_bytes found ≡ route_texts node.now [] (items_view items.now)) }
{
    let mut text = String::new(alloc);
    for item in items {
        let Some(more) = route_text(alloc, node, item)? else {
            return Ok(None);
        };
        text.push_str(more.as_str())?;
    }
    Ok(Some(text))
}

#[tactic(auto, unfolding(crate::specs::Routes::route_text))]
fn route_text(alloc: Global, node: &str, item: &Value) -> Result<Option<String>, AllocError>
    ensures { IfOk result (λ found. option_map string_bytes found ≡ route_text node.now (view item.now)) }
{
    let Some(text) = text_at(item, "cidr") else {
        return Ok(None);
    };
    let Ok(cidr) = read_cidr(text.as_bytes()) else {
        return Ok(None);
    };
    let Some(other) = text_at(item, "node") else {
        return Ok(None);
    };
    let mut line = String::new(alloc);
    if other == node {
        push_cidr(alloc, &mut line, cidr)?;
        line.push_str("\n")?;
    }
    Ok(Some(line))
}
