ghost use Rattle.std.specs.Prelude.{◌≡◌, [], ◌∷◌, IsNone, IsTrue, IfSome};
ghost use Rattle.ipam_records.specs.Listing.{rows_of};
ghost use Rattle.ipam_records.specs.Pages.{rows_of_pages};
ghost use Rattle.ipam_choice.specs.Blocks.{cidr_in, cidrs_in, is_in_before, EndsBefore, IsPartFrom};

use ipam_addr::Cidr;
use ipam_records::{Listing, Record};

/// The blocks of a listing that are still to come, by family, base and prefix.
#[derive(Clone, Copy)]
pub(crate) struct Ahead<'a> {
    /// What is left of a page.
    page: &'a [(u64, Record)],
    /// The pages after it.
    pages: &'a [Vec<(u64, Record)>],
}

impl<'a> Ahead<'a> {
    ghost use Rattle.ipam_choice.specs.Ahead.{cidrs_left, rows_left};

    /// All blocks but such as stand before this one. Takes no memory.
    pub(crate) fn of(blocks: &Listing<'a>, first: Cidr) -> Ahead<'a>
        ensures { IsPartFrom first (cidrs_in (rows_of blocks.now)) (cidrs_left result) }
    {
        let pages = pages_from(blocks, first);
        Ahead { page: &[], pages }
    }

    /// Goes past the next block. Takes no memory.
    pub(crate) fn next_block(&mut self) -> Option<Cidr>
        ensures some { IfSome result (λ cidr. cidrs_left self.old ≡ cidr ∷ cidrs_left self.new) }
        ensures none { IsNone result → cidrs_left self.old ≡ [] }
    {
        while let Some(row) = self.next_row() {
            if let Some(cidr) = cidr_in(&row.1) {
                return Some(cidr);
            }
        }
        None
    }

    fn next_row(&mut self) -> Option<&'a (u64, Record)>
        ensures some { IfSome result (λ row. rows_left self.old ≡ row.now ∷ rows_left self.new) }
        ensures none { IsNone result → rows_left self.old ≡ [] }
    {
        while self.page.is_empty() {
            let (page, pages) = self.pages.split_first()?;
            self.page = page.as_slice();
            self.pages = pages;
        }
        let (row, page) = self.page.split_first()?;
        self.page = page;
        Some(row)
    }
}

// The pages but some at the front, all of whose blocks stand before this one.
fn pages_from<'a>(blocks: &Listing<'a>, first: Cidr) -> &'a [Vec<(u64, Record)>]
    ensures { IsPartFrom first (cidrs_in (rows_of blocks.now)) (cidrs_in (rows_of_pages result.now)) }
{
    let pages = blocks.pages();
    let mut low = 0;
    let mut high = pages.len();
    while low < high {
        let middle = low + (high - low) / 2;
        if ends_before(&pages[middle], first) {
            low = middle + 1;
        } else {
            high = middle;
        }
    }
    let (_, behind) = pages.split_at(low);
    behind
}

// Whether the page's last row is a block that stands before this one.
fn ends_before(page: &[(u64, Record)], first: Cidr) -> bool
    ensures { IsTrue result → EndsBefore first page.now }
{
    match page.split_last() {
        Some((row, _)) => is_before(&row.1, first),
        None => false,
    }
}

// Whether the record is a block that stands before this one.
fn is_before(kept: &Record, first: Cidr) -> bool
    ensures { result ≡ is_in_before first (cidr_in kept.now) }
{
    match cidr_in(kept) {
        Some(cidr) => cidr.cmp(&first).is_lt(),
        None => false,
    }
}

// The block of the record, where it is a block's.
fn cidr_in(kept: &Record) -> Option<Cidr>
    ensures { result ≡ cidr_in kept.now }
{
    match kept {
        Record::Block(block) => Some(block.cidr()),
        _ => None,
    }
}
