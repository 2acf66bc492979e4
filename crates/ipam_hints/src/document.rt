//! What a document says that is refused or not read.
use crate::reason::reason_of;
use crate::unread::push_unread;
use ipam_resources::{DocumentFault, read_resources};
use serde_json::Value;
use std::alloc::{AllocError, Global};
use std::str;

/// The most bytes of a document that has hints. A longer one was made by a program.
pub const HINTED_MAX: usize = 1_048_576;

/// A line for each thing that a person should know of the document: why it is refused, and which members of its
/// resources nobody reads. None where all of it is read. Fails where there is no memory.
pub fn document_hints(alloc: Global, document: &[u8]) -> Result<Vec<String>, AllocError> {
    match str::from_utf8(document) {
        Ok(text) => text_hints(alloc, document, text),
        Err(error) => {
            let at = error.valid_up_to();
            one(
                alloc,
                format!(in alloc; "the document is no UTF-8 from its byte {at} on")?,
            )
        }
    }
}

fn one(alloc: Global, line: String) -> Result<Vec<String>, AllocError> {
    let mut lines = Vec::new(alloc);
    lines.push(line)?;
    Ok(lines)
}

fn text_hints(alloc: Global, document: &[u8], text: &str) -> Result<Vec<String>, AllocError> {
    match Value::from_str(alloc, text) {
        Ok(json) if json.is_object() => object_hints(alloc, document, &json),
        Ok(_) => one(
            alloc,
            String::from_str(
                alloc,
                "the document is JSON, but no object of one resource or a list of them",
            )?,
        ),
        Err(error) if error.is_memory() => Err(AllocError),
        Err(error) => one(
            alloc,
            format!(in alloc; "the document is no JSON: {error}")?,
        ),
    }
}

fn object_hints(alloc: Global, document: &[u8], json: &Value) -> Result<Vec<String>, AllocError> {
    let mut lines = Vec::new(alloc);
    match read_resources(alloc, document) {
        Err(DocumentFault::Memory) => return Err(AllocError),
        Err(DocumentFault::Member(place)) => lines.push(reason_of(alloc, json, place)?)?,
        _ => {}
    }
    push_unread(alloc, &mut lines, json)?;
    Ok(lines)
}
