ghost use Rattle.std.specs.Prelude.{◌≡◌, ℕ, ◌^◌, ◌≤◌, Some, IfSome, IfNone, option_map, option_and_then};
ghost use Rattle.std.specs.Char.{is_ascii_digit};
ghost use Rattle.std.specs.List.{list_all};
ghost use Rattle.serde_json.specs.Find.{get_item};
ghost use Rattle.serde_json.specs.View.{view, items_view};
ghost use Rattle.ipam_json.specs.Path.{at_path, step as one_step, is_index as has_index_form, index_of as index_from, has_leading_zero as leads_with_zero};

use serde_json::Value;

/// The value that the path leads to.
pub(crate) fn find<'a>(value: &'a Value, path: &str) -> Option<&'a Value>
    ensures { option_map (λ v. view v.now) result ≡ at_path path.now (view value.now) }
{
    if path.is_empty() {
        return Some(value);
    }
    let mut target = value;
    let mut rest = path;
    'names: while let Some((name, more)) = rest.split_once('.') {
        target = step(target, name)?;
        rest = more;
    }
    step(target, rest)
}

fn step<'a>(target: &'a Value, name: &str) -> Option<&'a Value>
    ensures { option_map (λ v. view v.now) result ≡ one_step name.now (view target.now) }
{
    match target {
        Value::Object(_) => target.get(name),
        Value::Array(list) => item(list, name),
        _ => None,
    }
}

fn item<'a>(list: &'a Vec<Value>, name: &str) -> Option<&'a Value>
    ensures { option_map (λ v. view v.now) result
        ≡ option_and_then (λ i. get_item i (items_view list.now.items)) (index_from name.now) }
{
    let count = list.len();
    match index_of(name) {
        Some(index) if index < count => Some(&list[index]),
        _ => None,
    }
}

fn index_of(name: &str) -> Option<usize>
    ensures index { IfSome result (λ i. index_from name.now ≡ Some i) }
    ensures too_large { IfNone result ((i : ℕ) → index_from name.now ≡ Some i → 2 ^ 64 ≤ i) }
{
    if is_index(name.as_bytes()) {
        name.parse().ok()
    } else {
        None
    }
}

/// Whether the bytes are decimal digits, with no `0` before another.
pub fn is_index(name: &[u8]) -> bool
    ensures { result ≡ has_index_form name.now }
{
    !name.is_empty() && !has_leading_zero(name) && are_digits(name)
}

fn are_digits(name: &[u8]) -> bool
    ensures { result ≡ list_all is_ascii_digit name.now }
{
    name.iter().all(u8::is_ascii_digit)
}

fn has_leading_zero(digits: &[u8]) -> bool
    ensures { result ≡ leads_with_zero digits.now }
{
    digits.len() > 1 && digits[0] == b'0'
}
