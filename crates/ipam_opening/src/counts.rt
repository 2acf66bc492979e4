ghost use Rattle.std.specs.Prelude.{◌≡◌, ℕ, List, IfOk, None};
ghost use Rattle.std.specs.List.{count_by};
ghost use Rattle.std.specs.Option.{option_copied};
ghost use Rattle.ipam_block.specs.Operations.{is_owned};
ghost use Rattle.ipam_model.specs.Opened.{readable};
ghost use Rattle.ipam_opening.specs.Given.{IsRead};
ghost use Rattle.ipam_opening.specs.Counts.{count_found, held_in, with_short, with_shorts, with_shorts_in, first_short};

use crate::earlier::earlier;
use crate::given::{Given, Reading};
use ipam_addr::Cidr;
use ipam_block::Block;
use ipam_records::{Key, Record, key_text};
use ipam_text::Text;
use std::alloc::{AllocError, Global};
use std::collections::BTreeMap;

impl Given<'_> {
    /// The first key of a handle, there or not, that counts fewer addresses of some block than it
    /// owns there.
    pub(crate) fn first_short(&self, alloc: Global) -> Result<Option<Text>, AllocError>
        requires { IsRead self.now }
        ensures { IfOk result (λ first. first
            ≡ first_short (readable self.now.rows.now) None self.now.readings.now) }
    {
        let mut first: Option<Text> = None;
        for reading in self.readings {
            first = self.with_shorts_in(alloc, first, reading)?;
        }
        Ok(first)
    }

    fn with_shorts_in(
        &self,
        alloc: Global,
        first: Option<Text>,
        reading: &Reading,
    ) -> Result<Option<Text>, AllocError>
        requires { IsRead self.now }
        ensures { IfOk result (λ f. f ≡ with_shorts_in (readable self.now.rows.now) first reading.now) }
    {
        match reading {
            Ok(Record::Block(block)) => self.with_shorts(alloc, block, first),
            _ => Ok(first),
        }
    }

    fn with_shorts(
        &self,
        alloc: Global,
        block: &Block,
        first: Option<Text>,
    ) -> Result<Option<Text>, AllocError>
        requires { IsRead self.now }
        ensures { IfOk result (λ f. f
            ≡ with_shorts (readable self.now.rows.now) block.now first block.now.allocations) }
    {
        let held = held_counts(alloc, block)?;
        let mut first = first;
        for allocation in block.allocations() {
            let id = &allocation.attributes.get().handle;
            first = self.with_short(alloc, block, id, held_of(&held, id), first)?;
        }
        Ok(first)
    }

    // The first key, where the handle of this id, which owns so many addresses of the block, is one
    // more if it is short.
    fn with_short(
        &self,
        alloc: Global,
        block: &Block,
        id: &Text,
        held: usize,
        first: Option<Text>,
    ) -> Result<Option<Text>, AllocError>
        requires read { IsRead self.now }
        requires held { held ≡ count_by (is_owned id.now) block.now.allocations }
        ensures { IfOk result (λ f. f ≡ with_short (readable self.now.rows.now) block.now id.now first) }
    {
        let key = Key::Handle(id.clone()?);
        let counted = count_found(block.cidr(), self.find(alloc, &key)?);
        if (counted as usize) < held {
            let text = Text::of(key_text(alloc, &key)?);
            return Ok(earlier(first, Some(text)));
        }
        Ok(first)
    }
}

fn count_found(cidr: Cidr, found: Option<&Record>) -> u32
    ensures { result ≡ count_found cidr (option_copied found.entry) }
{
    match found {
        Some(Record::Handle(handle)) => handle.count(cidr),
        _ => 0,
    }
}

/// How many addresses of the block each handle owns, by its id. They are counted once for all
/// handles: a block may have thousands of addresses.
fn held_counts<'a>(alloc: Global, block: &'a Block) -> Result<BTreeMap<&'a str, usize>, AllocError>
    ensures { IfOk result (λ counts. (id : List ℕ) → held_in counts id
        ≡ count_by (is_owned id) block.now.allocations) }
{
    let mut counts = BTreeMap::new(alloc);
    for allocation in block.allocations() {
        *counts
            .entry(allocation.attributes.get().handle.as_str())?
            .or_insert(0) += 1;
    }
    Ok(counts)
}

fn held_of(counts: &BTreeMap<&str, usize>, id: &Text) -> usize
    ensures { result ≡ held_in counts.now id.now }
{
    counts.get(id.as_str()).copied().unwrap_or(0)
}
