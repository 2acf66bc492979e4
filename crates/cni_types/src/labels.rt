//! The labels of the node, in the configuration.
ghost use Rattle.std.specs.Prelude.{◌≡◌, ◌&&◌, codes};
ghost use Rattle.std.specs.List.{list_all};
ghost use Rattle.serde_json.specs.Find.{get};
ghost use Rattle.serde_json.specs.View.{view, members_view};
ghost use Rattle.cni_types.specs.Configuration.{is_key_byte, is_label_key, is_label_value, are_labels};
ghost use Rattle.cni_types.specs.Reading.{are_few_members};

use ipam_select::{LABEL_KEY_BYTES_MAX, LABEL_VALUE_BYTES_MAX, LABELS_MAX};
use serde_json::{Map, Value};

/// Whether the labels are missing or good.
pub(crate) fn are_labels(json: &Value) -> bool
    ensures { result ≡ are_labels (get (codes "nodeLabels") (view json.now)) }
{
    let Some(labels) = json.get("nodeLabels") else {
        return true;
    };
    let Some(members) = labels.as_object() else {
        return false;
    };
    if !are_few_members(members) {
        return false;
    }
    for (key, value) in members {
        if !is_label(key.as_bytes(), value) {
            return false;
        }
    }
    true
}

#[tactic(auto, using(crate::proofs::Counts::members_counted))]
fn are_few_members(members: &Map<String, Value>) -> bool
    ensures { result ≡ are_few_members (members_view members.now.entries) }
{
    members.len() <= LABELS_MAX
}

fn is_label(key: &[u8], value: &Value) -> bool
    ensures { result ≡ (is_label_key key.now && is_label_value (view value.now)) }
{
    !key.is_empty()
        && key.len() <= LABEL_KEY_BYTES_MAX
        && are_label_bytes(key)
        && is_label_value(value)
}

fn are_label_bytes(bytes: &[u8]) -> bool
    ensures { result ≡ list_all is_key_byte bytes.now }
{
    bytes.iter().all(|&byte| is_label_byte(byte))
}

/// Whether it is a letter, a digit, `_`, `.`, `-` or `/`.
fn is_label_byte(byte: u8) -> bool
    ensures { result ≡ is_key_byte byte }
{
    byte.is_ascii_alphanumeric() || byte == b'_' || byte == b'.' || byte == b'-' || byte == b'/'
}

fn is_label_value(value: &Value) -> bool
    ensures { result ≡ is_label_value (view value.now) }
{
    match value.as_str() {
        Some(text) => text.len() <= LABEL_VALUE_BYTES_MAX,
        None => false,
    }
}
