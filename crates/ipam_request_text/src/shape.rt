//! Which members each object of a request may have.
ghost use Rattle.std.specs.Prelude.{◌≡◌, ◌||◌, bytes_eq};
ghost use Rattle.serde_json.specs.View.{members_view};
ghost use Rattle.ipam_request_text.specs.Shapes.{in_probe, in_add, in_pool, may_have, are_known, change_named, shape_named};

use serde_json::{Map, Value};

/// An object of a request, by the members that it may have: those under the names of requests, and
/// the scope of a collection.
#[derive(Clone, Copy)]
pub enum Shape {
    /// `add`: `address`, `handle`, `ipv4`, `ipv6`, `labels`, `node`, `pools4`, `pools6` and
    /// `secondary`.
    Add,
    /// `del`: `handle`.
    Del,
    /// `check`: `addresses` and `handle`.
    Check,
    /// `release`: `cidr` and `node`.
    Release,
    /// `collect`: `at`, `grace`, `live` and `scope`.
    Collect,
    /// `probe`: `ipv4`, `ipv6`, `labels`, `node`, `pools4` and `pools6`.
    Probe,
    /// `pool`: `cidr`, `disabled`, `mode`, `name`, `selector` and `size`.
    Pool,
    /// `disable`: `disabled` and `name`.
    Disable,
    /// `reserve`: `cidrs` and `name`.
    Reserve,
    /// `unreserve`: `name`.
    Unreserve,
    /// `config`: `autoAllocateBlocks`, `maxBlocksPerHost` and `strictAffinity`.
    Config,
    /// `scope` of a collection: `network` and `node`. No request has this name.
    Scope,
}

/// The shape of the object that stands under this name in a request.
pub(crate) fn shape_named(name: &str) -> Option<Shape>
    ensures { result ≡ shape_named name.now }
{
    if name == "add" {
        Some(Shape::Add)
    } else if name == "del" {
        Some(Shape::Del)
    } else if name == "check" {
        Some(Shape::Check)
    } else if name == "release" {
        Some(Shape::Release)
    } else if name == "collect" {
        Some(Shape::Collect)
    } else if name == "probe" {
        Some(Shape::Probe)
    } else {
        change_named(name)
    }
}

fn change_named(name: &str) -> Option<Shape>
    ensures { result ≡ change_named name.now }
{
    if name == "pool" {
        Some(Shape::Pool)
    } else if name == "disable" {
        Some(Shape::Disable)
    } else if name == "reserve" {
        Some(Shape::Reserve)
    } else if name == "unreserve" {
        Some(Shape::Unreserve)
    } else if name == "config" {
        Some(Shape::Config)
    } else {
        None
    }
}

/// Whether no member is unknown.
pub(crate) fn are_known(shape: Shape, members: &Map<String, Value>) -> bool
    ensures { result ≡ are_known shape (members_view members.now.entries) }
{
    for (name, _) in members {
        if !may_have(shape, name.as_str()) {
            return false;
        }
    }
    true
}

fn may_have(shape: Shape, name: &str) -> bool
    ensures { result ≡ may_have shape name.now }
{
    match shape {
        Shape::Add => in_add(name),
        Shape::Del => name == "handle",
        Shape::Check => is_either(name, "addresses", "handle"),
        Shape::Release => is_either(name, "cidr", "node"),
        Shape::Collect => matches!(name, "at" | "grace" | "live" | "scope"),
        Shape::Probe => in_probe(name),
        Shape::Pool => in_pool(name),
        Shape::Disable => is_either(name, "disabled", "name"),
        Shape::Reserve => is_either(name, "cidrs", "name"),
        Shape::Unreserve => name == "name",
        Shape::Config => matches!(
            name,
            "autoAllocateBlocks" | "maxBlocksPerHost" | "strictAffinity"
        ),
        Shape::Scope => is_either(name, "network", "node"),
    }
}

fn is_either(name: &str, one: &str, other: &str) -> bool
    ensures { result ≡ (bytes_eq name.now one.now || bytes_eq name.now other.now) }
{
    name == one || name == other
}

fn in_probe(name: &str) -> bool
    ensures { result ≡ in_probe name.now }
{
    matches!(
        name,
        "ipv4" | "ipv6" | "labels" | "node" | "pools4" | "pools6"
    )
}

fn in_add(name: &str) -> bool
    ensures { result ≡ in_add name.now }
{
    in_probe(name) || matches!(name, "address" | "handle" | "secondary")
}

fn in_pool(name: &str) -> bool
    ensures { result ≡ in_pool name.now }
{
    matches!(
        name,
        "cidr" | "disabled" | "mode" | "name" | "selector" | "size"
    )
}
