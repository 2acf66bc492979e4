//! Members of a resource that nobody reads.
use crate::kind::{Kind, Reading, kind_of, meant_by, reading_of};
use ipam_json::{items_at, members_at, text_at};
use serde_json::{Map, Value};
use std::alloc::{AllocError, Global};

/// The most lines of one document: a person reads no more.
const MOST_LINES: usize = 32;

/// Adds a line for each unread member of the resource that the document is, or of those that it lists.
pub(crate) fn push_unread(
    alloc: Global,
    lines: &mut Vec<String>,
    json: &Value,
) -> Result<(), AllocError> {
    match items_at(json, "items") {
        Some(items) if kind_of(json).is_none() => {
            for item in items {
                push_resource(alloc, lines, item)?;
            }
            Ok(())
        }
        _ => push_resource(alloc, lines, json),
    }
}

fn push_resource(
    alloc: Global,
    lines: &mut Vec<String>,
    resource: &Value,
) -> Result<(), AllocError> {
    match (kind_of(resource), members_at(resource, "spec")) {
        (Some(kind), Some(members)) => push_members(alloc, lines, resource, kind, members),
        _ => Ok(()),
    }
}

fn push_members(
    alloc: Global,
    lines: &mut Vec<String>,
    resource: &Value,
    kind: Kind,
    members: &Map<String, Value>,
) -> Result<(), AllocError> {
    for (name, _) in members {
        let name = name.as_str();
        if lines.len() < MOST_LINES && reading_of(kind, name) == Reading::Unread {
            lines.push(line_of(alloc, resource, kind, name)?)?;
        }
    }
    Ok(())
}

fn line_of(
    alloc: Global,
    resource: &Value,
    kind: Kind,
    member: &str,
) -> Result<String, AllocError> {
    let said = text_at(resource, "kind").unwrap_or("");
    let name = name_of(resource);
    match meant_by(kind, member) {
        Some(read) => {
            format!(in alloc; "{said} {name}: spec.{member} is not read: the member is spec.{read}")
        }
        None => format!(in alloc; "{said} {name}: spec.{member} is not read"),
    }
}

/// The resource's name. A configuration without one has the name `default`.
pub(crate) fn name_of(resource: &Value) -> &str {
    match resource.get("metadata") {
        Some(metadata) => text_at(metadata, "name").unwrap_or("default"),
        None => "default",
    }
}
