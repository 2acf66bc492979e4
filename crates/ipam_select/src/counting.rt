ghost use Rattle.std.specs.Prelude.{◌≡◌, ◌+◌, ◌-◌, ◌^◌, ◌<◌, min, length};
ghost use Rattle.ipam_select.specs.Formula.{formula, formulas};
ghost use Rattle.ipam_select.specs.Printing.{printed_len, members_len, wrapped_len, needs_parentheses, values_len, quoted_len};

use crate::selector::Selector;
use ipam_text::Text;

impl Selector {
    /// How many bytes the printed form has, or the greatest number there is.
    #[cycle(count)]
    pub(crate) fn printed_len(&self) -> usize
        ensures { result ≡ min (printed_len (formula self.now)) (2 ^ 64 - 1) }
    {
        match self {
            Selector::All => 5,
            Selector::Has(key) => key.as_bytes().len().saturating_add(5),
            Selector::Is(key, value) => compared_len(key, value, 4),
            Selector::Not(member) => member_len(member, true).saturating_add(1),
            Selector::In(key, values) => in_len(key, values),
            Selector::Contains(key, part) => compared_len(key, part, 10),
            Selector::Starts(key, part) => compared_len(key, part, 13),
            Selector::Ends(key, part) => compared_len(key, part, 11),
            Selector::And(members) => members_len(members, true),
            Selector::Or(members) => members_len(members, false),
        }
    }
}

#[cycle(count)]
fn member_len(member: &Selector, tight: bool) -> usize
    ensures { result ≡ min (wrapped_len (needs_parentheses tight (formula member.now)) (printed_len (formula member.now))) (2 ^ 64 - 1) }
{
    let count = member.printed_len();
    if member.needs_parentheses(tight) {
        count.saturating_add(2)
    } else {
        count
    }
}

#[cycle(count)]
fn members_len(members: &[Selector], tight: bool) -> usize
    ensures { result ≡ min (members_len tight 0 (formulas members.now)) (2 ^ 64 - 1) }
{
    let mut total: usize = 0;
    let mut lead = 0;
    for member in members {
        total = total
            .saturating_add(lead)
            .saturating_add(member_len(member, tight));
        lead = 4;
    }
    total
}

fn compared_len(key: &Text, value: &Text, operator: usize) -> usize
    ensures { result ≡ min (length key.now + (quoted_len value.now + operator)) (2 ^ 64 - 1) }
{
    let quoted = value.as_bytes().len().saturating_add(2);
    key.as_bytes()
        .len()
        .saturating_add(quoted)
        .saturating_add(operator)
}

fn in_len(key: &Text, values: &[Text]) -> usize
    ensures { result ≡ min (length key.now + (values_len 0 values.now + 6)) (2 ^ 64 - 1) }
{
    key.as_bytes()
        .len()
        .saturating_add(values_len(values))
        .saturating_add(6)
}

fn values_len(values: &[Text]) -> usize
    ensures { result ≡ min (values_len 0 values.now) (2 ^ 64 - 1) }
{
    let mut total: usize = 0;
    let mut lead = 0;
    for value in values {
        let quoted = value.as_bytes().len().saturating_add(2);
        total = total.saturating_add(lead).saturating_add(quoted);
        lead = 2;
    }
    total
}
