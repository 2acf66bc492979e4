use crate::lines::bytes_of;
use ipam_json::{FieldFault, ReadFault, array, canonical_text, object, text, truth, whole};
use serde_json::Value;
use std::alloc::{AllocError, Global};
use std::fmt::Display;
use std::str;

const NESTED: &str =
    "{\"items\": [{\"spec\": {\"cidr\": \"10.0.0.0/8\", \"open\": true, \"\": 7}}, \
    [], 18446744073709551615], \"twice\": 1, \"one\": 1.0, \"hundred\": 1e2, \"zero\": -0, \
    \"large\": 18446744073709551616, \"nothing\": null, \"0\": {\"1\": false}, \"twice\": 2}";

/// What is read of the value at the path, of an array and of an object its length.
fn read(alloc: Global, value: &Value, kind: &str, path: &str) -> Result<String, ReadFault> {
    match kind {
        "text" => shown(alloc, text(alloc, value, path)?),
        "truth" => shown(alloc, truth(alloc, value, path)?),
        "whole" | "five" => shown(alloc, whole(alloc, value, path)?),
        "array" => shown(alloc, array(alloc, value, path)?.len()),
        _ => shown(alloc, object(alloc, value, path)?.len()),
    }
}

fn shown<T: Display + Drop>(alloc: Global, found: T) -> Result<String, ReadFault> {
    Ok(format!(in alloc; "{found}")?)
}

/// What was read, or what a fault wants and at which path.
fn told(alloc: Global, read: Result<String, ReadFault>) -> Result<String, AllocError> {
    match read {
        Ok(found) => Ok(found),
        Err(ReadFault::Field(FieldFault { path, want })) => {
            format!(in alloc; "{want:?} at {path}")
        }
        Err(ReadFault::Memory) => Err(AllocError),
    }
}

/// What is read at the path of `KIND PATH`, where `five` asks for the whole number of the text `5`.
pub(crate) fn field_answer(alloc: Global, question: &str) -> Result<String, AllocError> {
    let Some((kind, path)) = question.split_once(' ') else {
        return Err(AllocError);
    };
    let json = if kind == "five" { "5" } else { NESTED };
    match Value::from_str(alloc, json) {
        Ok(value) => told(alloc, read(alloc, &value, kind, path)),
        Err(_) => Err(AllocError),
    }
}

/// The text as JSON, where `␤` stands for a line feed.
pub(crate) fn written_answer(alloc: Global, text: &str) -> Result<String, AllocError> {
    let written = bytes_of(alloc, text)?;
    let written = str::from_utf8(&written).unwrap_or("no text");
    canonical_text(alloc, &Value::try_from_str(alloc, written)?)
}
