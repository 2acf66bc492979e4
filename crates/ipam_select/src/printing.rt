ghost use Rattle.std.specs.Prelude.{◌≡◌, ◌++◌, ◌∷◌, [], true, codes, OnOk};
ghost use Rattle.std.specs.String.{string_bytes};
ghost use Rattle.ipam_select.specs.Formula.{formula, formulas};
ghost use Rattle.ipam_select.specs.Words.{lacks};
ghost use Rattle.ipam_select.specs.Printing.{printed, quote_of, quoted_text, values_text, value_lead, member_lead, needs_parentheses, wrapped, members_text};

use crate::selector::Selector;
use ipam_text::Text;
use std::alloc::AllocError;

/// Appends the printed form, which is read as the selector again where it was read of some text.
/// After an error the text may have got a part of it.
#[cycle(print)]
pub fn push_selector(out: &mut String, selector: &Selector) -> Result<(), AllocError>
    ensures { OnOk result (string_bytes out.new
        ≡ string_bytes out.old ++ printed (formula selector.now)) }
{
    match selector {
        Selector::All => out.push_str("all()"),
        Selector::Has(key) => push_has(out, key),
        Selector::Is(key, value) => push_compared(out, key, " == ", value),
        Selector::Not(member) => push_negation(out, member),
        Selector::In(key, values) => push_in(out, key, values),
        Selector::Contains(key, part) => push_compared(out, key, " contains ", part),
        Selector::Starts(key, part) => push_compared(out, key, " starts with ", part),
        Selector::Ends(key, part) => push_compared(out, key, " ends with ", part),
        Selector::And(members) => push_members(out, members, true),
        Selector::Or(members) => push_members(out, members, false),
    }
}

#[cycle(print)]
fn push_negation(out: &mut String, member: &Selector) -> Result<(), AllocError>
    ensures { OnOk result (string_bytes out.new ≡ string_bytes out.old
        ++ (codes "!" ++ wrapped (needs_parentheses true (formula member.now)) (printed (formula member.now)))) }
{
    out.push_str("!")?;
    push_member(out, member, true)
}

/// The members of an And, which are tight, or of an Or.
#[cycle(print)]
fn push_members(out: &mut String, members: &[Selector], tight: bool) -> Result<(), AllocError>
    ensures { OnOk result (string_bytes out.new ≡ string_bytes out.old
        ++ members_text tight true (formulas members.now)) }
{
    let mut first = true;
    for member in members {
        push_member_lead(out, tight, first)?;
        push_member(out, member, tight)?;
        first = false;
    }
    Ok(())
}

/// A member, in parentheses where it needs them.
#[cycle(print)]
fn push_member(out: &mut String, member: &Selector, tight: bool) -> Result<(), AllocError>
    ensures { OnOk result (string_bytes out.new ≡ string_bytes out.old
        ++ wrapped (needs_parentheses tight (formula member.now)) (printed (formula member.now))) }
{
    if !member.needs_parentheses(tight) {
        return push_selector(out, member);
    }
    out.push_str("(")?;
    push_selector(out, member)?;
    out.push_str(")")
}

fn push_has(out: &mut String, key: &Text) -> Result<(), AllocError>
    ensures { OnOk result (string_bytes out.new ≡ string_bytes out.old
        ++ (codes "has(" ++ (key.now ++ codes ")"))) }
{
    out.push_str("has(")?;
    out.push_str(key.as_str())?;
    out.push_str(")")
}

/// A key, an operator and a value.
fn push_compared(
    out: &mut String,
    key: &Text,
    operator: &str,
    value: &Text,
) -> Result<(), AllocError>
    ensures { OnOk result (string_bytes out.new ≡ string_bytes out.old
        ++ (key.now ++ (operator.now ++ quoted_text value.now))) }
{
    out.push_str(key.as_str())?;
    out.push_str(operator)?;
    push_quoted(out, value)
}

fn push_in(out: &mut String, key: &Text, values: &[Text]) -> Result<(), AllocError>
    ensures { OnOk result (string_bytes out.new ≡ string_bytes out.old
        ++ (key.now ++ (codes " in {" ++ (values_text true values.now ++ codes "}")))) }
{
    out.push_str(key.as_str())?;
    out.push_str(" in {")?;
    push_values(out, values)?;
    out.push_str("}")
}

fn push_values(out: &mut String, values: &[Text]) -> Result<(), AllocError>
    ensures { OnOk result (string_bytes out.new ≡ string_bytes out.old
        ++ values_text true values.now) }
{
    let mut first = true;
    for value in values {
        push_value_lead(out, first)?;
        push_quoted(out, value)?;
        first = false;
    }
    Ok(())
}

fn push_member_lead(out: &mut String, tight: bool, first: bool) -> Result<(), AllocError>
    ensures { OnOk result (string_bytes out.new ≡ string_bytes out.old ++ member_lead tight first) }
{
    if first {
        Ok(())
    } else if tight {
        out.push_str(" && ")
    } else {
        out.push_str(" || ")
    }
}

fn push_value_lead(out: &mut String, first: bool) -> Result<(), AllocError>
    ensures { OnOk result (string_bytes out.new ≡ string_bytes out.old ++ value_lead first) }
{
    if first { Ok(()) } else { out.push_str(", ") }
}

fn push_quoted(out: &mut String, value: &Text) -> Result<(), AllocError>
    ensures { OnOk result (string_bytes out.new ≡ string_bytes out.old ++ quoted_text value.now) }
{
    let quote = quote_of(value.as_bytes());
    out.push_str(quote)?;
    out.push_str(value.as_str())?;
    out.push_str(quote)
}

/// `'`, unless the value has one.
fn quote_of(value: &[u8]) -> &'static str
    ensures { result.now ≡ quote_of value.now ∷ [] }
{
    if lacks(value, b'\'') { "'" } else { "\"" }
}

/// The byte isn't in the text.
pub(crate) fn lacks(text: &[u8], byte: u8) -> bool
    ensures { result ≡ lacks byte text.now }
{
    text.iter().all(|found| *found != byte)
}

impl Selector {
    /// In a negation or an And, which are tight, or else in an Or.
    pub(crate) fn needs_parentheses(&self, tight: bool) -> bool
        ensures { result ≡ needs_parentheses tight (formula self.now) }
    {
        match self {
            Selector::And(_) => tight,
            Selector::Or(_) => true,
            _ => false,
        }
    }
}
