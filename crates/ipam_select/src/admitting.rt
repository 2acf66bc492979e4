ghost use Rattle.std.specs.Prelude.{◌≡◌};
ghost use Rattle.ipam_select.specs.Formula.{formula, formulas};
ghost use Rattle.ipam_select.specs.Admitting.{admits, all_admit, some_admits};

use crate::labels::{contains, ends, has_key, has_one_of, has_value, starts};
use crate::selector::Selector;
use ipam_text::Text;

impl Selector {
    /// Whether a node with these labels is one that the selector means.
    #[cycle(admits)]
    pub fn admits(&self, labels: &[(Text, Text)]) -> bool
        ensures { result ≡ admits (formula self.now) labels.now }
    {
        match self {
            Selector::All => true,
            Selector::Has(key) => has_key(labels, key),
            Selector::Is(key, value) => has_value(labels, key, value),
            Selector::Not(member) => !member.admits(labels),
            Selector::And(members) => all_admit(members, labels),
            Selector::Or(members) => some_admits(members, labels),
            Selector::In(key, values) => has_one_of(labels, key, values),
            Selector::Contains(key, part) => contains(labels, key, part),
            Selector::Starts(key, part) => starts(labels, key, part),
            Selector::Ends(key, part) => ends(labels, key, part),
        }
    }
}

#[cycle(admits)]
fn all_admit(members: &[Selector], labels: &[(Text, Text)]) -> bool
    ensures { result ≡ all_admit (formulas members.now) labels.now }
{
    for member in members {
        if !member.admits(labels) {
            return false;
        }
    }
    true
}

#[cycle(admits)]
fn some_admits(members: &[Selector], labels: &[(Text, Text)]) -> bool
    ensures { result ≡ some_admits (formulas members.now) labels.now }
{
    for member in members {
        if member.admits(labels) {
            return true;
        }
    }
    false
}
