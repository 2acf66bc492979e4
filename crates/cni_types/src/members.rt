//! What the members of a JSON object hold. None of this takes memory.
ghost use Rattle.std.specs.Prelude.{◌≡◌, option_map};
ghost use Rattle.serde_json.specs.View.{view, items_view};
ghost use Rattle.cni_types.specs.Reading.{text_or_empty as text_in, text_or_empty_at as text_of_name, inside as found_inside, is_name_at as has_name, are_few as are_at_most};

use ipam_addr::is_name;
use serde_json::Value;

/// The text, or the empty one where it is no text.
pub(crate) fn text_of(value: &Value) -> &str
    ensures { result.now ≡ text_in (view value.now) }
{
    match value.as_str() {
        Some(text) => text,
        None => "",
    }
}

/// The text of this name, or the empty one.
pub(crate) fn text_at<'a>(value: &'a Value, name: &str) -> &'a str
    ensures { result.now ≡ text_of_name name.now (view value.now) }
{
    match ipam_json::text_at(value, name) {
        Some(text) => text,
        None => "",
    }
}

/// The member of a member.
pub(crate) fn inside<'a>(value: &'a Value, outer: &str, name: &str) -> Option<&'a Value>
    ensures { option_map (λ v. view v.now) result
        ≡ found_inside outer.now name.now (view value.now) }
{
    let object = value.get(outer)?;
    object.get(name)
}

pub(crate) fn is_name_at(value: &Value, name: &str) -> bool
    ensures { result ≡ has_name name.now (view value.now) }
{
    is_name(text_at(value, name).as_bytes())
}

#[tactic(auto, using(crate::proofs::Counts::items_counted))]
pub(crate) fn are_few(items: &[Value], most: usize) -> bool
    ensures { result ≡ are_at_most most (items_view items.now) }
{
    items.len() <= most
}
