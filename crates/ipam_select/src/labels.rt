ghost use Rattle.std.specs.Prelude.{◌≡◌, true};
ghost use Rattle.std.specs.List.{list_any};
ghost use Rattle.ipam_select.specs.Admitting.{carries, same, has_part, begins_with, ends_with};

use ipam_text::Text;

/// The key is there.
pub(crate) fn has_key(labels: &[(Text, Text)], key: &Text) -> bool
    ensures { result ≡ carries key.now (λ value. true) labels.now }
{
    labels.iter().any(|label| label.0 == *key)
}

/// The key is there with this value.
pub(crate) fn has_value(labels: &[(Text, Text)], key: &Text, value: &Text) -> bool
    ensures { result ≡ carries key.now (λ found. same found value.now) labels.now }
{
    labels
        .iter()
        .any(|label| label.0 == *key && label.1 == *value)
}

/// The key is there with one of these values.
pub(crate) fn has_one_of(labels: &[(Text, Text)], key: &Text, values: &[Text]) -> bool
    ensures { result
        ≡ carries key.now (λ found. list_any (λ value. same found value) values.now) labels.now }
{
    labels
        .iter()
        .any(|label| label.0 == *key && is_one_of(&label.1, values))
}

/// The key is there, and this is a part of its value.
pub(crate) fn contains(labels: &[(Text, Text)], key: &Text, part: &Text) -> bool
    ensures { result ≡ carries key.now (has_part part.now) labels.now }
{
    labels.iter().any(|label| label.0 == *key && has_part(label.1.as_bytes(), part.as_bytes()))
}

/// The key is there, and its value begins with this.
pub(crate) fn starts(labels: &[(Text, Text)], key: &Text, part: &Text) -> bool
    ensures { result ≡ carries key.now (begins_with part.now) labels.now }
{
    labels.iter().any(|label| label.0 == *key && begins_with(&label.1, part.as_bytes()))
}

/// The key is there, and its value ends with this.
pub(crate) fn ends(labels: &[(Text, Text)], key: &Text, part: &Text) -> bool
    ensures { result ≡ carries key.now (ends_with part.now) labels.now }
{
    labels.iter().any(|label| label.0 == *key && ends_with(&label.1, part.as_bytes()))
}

fn is_one_of(found: &Text, values: &[Text]) -> bool
    ensures { result ≡ list_any (λ value. same found.now value) values.now }
{
    values.iter().any(|value| *found == *value)
}

fn begins_with(text: &Text, part: &[u8]) -> bool
    ensures { result ≡ begins_with part.now text.now }
{
    text.as_bytes().starts_with(part)
}

fn has_part(text: &[u8], part: &[u8]) -> bool
    ensures { result ≡ has_part part.now text.now }
{
    for at in 0..text.len() {
        if text[at..].starts_with(part) {
            return true;
        }
    }
    part.is_empty()
}

fn ends_with(text: &Text, part: &[u8]) -> bool
    ensures { result ≡ ends_with part.now text.now }
{
    text.as_bytes().ends_with(part)
}
