//! How a document's pool differs from the one of its name that is there.
use ipam_addr::push_cidr;
use ipam_json::{items_at, json_of, text_at, whole_at};
use ipam_model::Admin;
use ipam_pool::Pool;
use ipam_resources::{Resource, read_resources};
use serde_json::Value;
use std::alloc::{AllocError, Global};

/// Whether the document is read and has a pool, so that the pools that are there may be why it is refused.
pub fn names_pools(alloc: Global, document: &[u8]) -> bool {
    match read_resources(alloc, document) {
        Ok(resources) => resources
            .as_slice()
            .iter()
            .any(|resource| matches!(&resource.change, Admin::Pool(_))),
        Err(_) => false,
    }
}

/// A line for each pool of the document that has another CIDR or block size than the pool of its name in `kept`, the
/// row of the pools as `get pools` writes it. Fails where there is no memory.
pub fn pool_hints(alloc: Global, document: &[u8], kept: &str) -> Result<Vec<String>, AllocError> {
    let mut lines = Vec::new(alloc);
    let Some(json) = json_of(alloc, body_of(kept))? else {
        return Ok(lines);
    };
    let Ok(resources) = read_resources(alloc, document) else {
        return Ok(lines);
    };
    let there = items_at(&json, "pools").unwrap_or(&[]);
    for resource in resources.as_slice() {
        push_difference(alloc, &mut lines, resource, there)?;
    }
    Ok(lines)
}

/// What stands behind the key and the revision of a row's line.
fn body_of(line: &str) -> &str {
    match line.split_once(" {") {
        Some((front, _)) => line.get(front.len()..).unwrap_or(""),
        None => "",
    }
}

fn push_difference(
    alloc: Global,
    lines: &mut Vec<String>,
    resource: &Resource,
    there: &[Value],
) -> Result<(), AllocError> {
    let Admin::Pool(pool) = &resource.change else {
        return Ok(());
    };
    for other in there {
        if text_at(other, "name") == Some(pool.name.as_str()) {
            push_differing(alloc, lines, pool, other)?;
        }
    }
    Ok(())
}

fn push_differing(
    alloc: Global,
    lines: &mut Vec<String>,
    pool: &Pool,
    other: &Value,
) -> Result<(), AllocError> {
    let mut cidr = String::new(alloc);
    push_cidr(alloc, &mut cidr, pool.cidr)?;
    let name = pool.name.as_str();
    let cidr = cidr.as_str();
    let there = text_at(other, "cidr").unwrap_or("");
    let size = u64::from(pool.size);
    let kept = whole_at(other, "blockSize").unwrap_or(size);
    if cidr != there || size != kept {
        lines.push(format!(in alloc;
            "IPPool {name} is there with cidr {there} and blockSize {kept}, and the document has {cidr} and {size}: neither can change, and a document without blockSize has 26, or 122 of IPv6"
        )?)?;
    }
    Ok(())
}
