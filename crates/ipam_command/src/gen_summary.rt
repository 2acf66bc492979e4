//! The numbers of the summary, and its text.
ghost use Rattle.std.specs.Prelude.{◌≡◌, ◌++◌, length, IfOk, OnOk, string_bytes};
ghost use Rattle.ipam_model.specs.Owners.{owners};
ghost use Rattle.ipam_command.specs.Numbers.{owned_in};
ghost use Rattle.ipam_command.specs.Summary.{number_line, summary_text};

use ipam_records::Record;
use ipam_store::Store;
use std::alloc::{AllocError, Global};

/// Numbers that were counted.
#[derive(Clone, Copy)]
pub(crate) struct Numbers {
    pub(crate) requests: u32,
    pub(crate) entries: u64,
    pub(crate) owners: u128,
    pub(crate) again: u64,
    pub(crate) exhausted: u64,
    pub(crate) freed: u64,
}

impl Numbers {
    ghost use Rattle.ipam_command.specs.Numbers.{summary_in};

    /// A line for each number.
    #[tactic(auto, unfolding(crate::specs::Summary::summary_text))]
    pub(crate) fn text(&self, alloc: Global) -> Result<String, AllocError>
        ensures { IfOk result (λ text. string_bytes text ≡ summary_text (summary_in self.now)) }
    {
        let mut text = String::new(alloc);
        push_line(alloc, &mut text, "requests", u128::from(self.requests))?;
        push_line(alloc, &mut text, "entries", u128::from(self.entries))?;
        push_line(alloc, &mut text, "owners", self.owners)?;
        push_line(alloc, &mut text, "again", u128::from(self.again))?;
        push_line(alloc, &mut text, "exhausted", u128::from(self.exhausted))?;
        push_line(alloc, &mut text, "freed", u128::from(self.freed))?;
        Ok(text)
    }
}

/// Appends the line of the number of this name.
#[tactic(auto, unfolding(crate::specs::Summary::number_line))]
fn push_line(alloc: Global, text: &mut String, name: &str, number: u128) -> Result<(), AllocError>
    ensures { OnOk result (string_bytes text.new ≡ string_bytes text.old ++ number_line name.now number) }
{
    let line = format!(in alloc; "{name} {number}\n")?;
    text.push_str(line.as_str())
}

/// How many addresses are owned.
pub(crate) fn owners(store: &Store) -> u128
    ensures { result ≡ length (owners store.now.store) }
{
    let mut count: u128 = 0;
    for place in 0..store.rows() {
        let (_revision, value) = store.row(place);
        count += owned_in(value) as u128;
    }
    count
}

/// How many addresses the record owns.
fn owned_in(value: &Record) -> usize
    ensures { result ≡ owned_in value.now }
{
    match value {
        Record::Block(block) => block.allocations().len(),
        _ => 0,
    }
}
