//! The variable `CNI_ARGS`: items with `;` between them, each a key, `=` and a value.
ghost use Rattle.std.specs.Prelude.{◌≡◌, if◌then◌else◌};
ghost use Rattle.std.specs.List.{list_all, after_first};
ghost use Rattle.cni_types.specs.Environment.{items_of, is_equals, is_argument, item_has_key, argument as value_of_key};

/// Whether each item is empty or has a `=`.
pub(crate) fn are_items(text: &str) -> bool
    ensures { result ≡ list_all is_argument (items_of text.now) }
{
    let mut rest = text;
    'items: while let Some((item, more)) = rest.split_once(';') {
        if !is_argument(item) {
            return false;
        }
        rest = more;
    }
    is_argument(rest)
}

fn is_argument(item: &str) -> bool
    ensures { result ≡ is_argument item.now }
{
    item.is_empty() || item.split_once('=').is_some()
}

/// The value of a key: of its last item, and empty where it has none.
pub(crate) fn argument<'a>(text: &'a str, key: &str) -> &'a str
    ensures { result.now ≡ value_of_key key.now text.now }
{
    let mut rest = text;
    let mut found = "";
    'items: while let Some((item, more)) = rest.split_once(';') {
        found = value_or(found, item, key);
        rest = more;
    }
    value_or(found, rest, key)
}

/// The item's value where it has this key, else what was found before.
fn value_or<'a>(found: &'a str, item: &'a str, key: &str) -> &'a str
    ensures { result.now ≡ (if item_has_key key.now item.now then after_first is_equals item.now
        else found.now) }
{
    match item.split_once('=') {
        Some((name, value)) => { if name == key { value } else { found } }
        None => found,
    }
}
