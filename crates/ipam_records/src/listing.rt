ghost use Rattle.std.specs.Prelude.{◌≡◌, ◌<◌, ◌^◌, length, slice_get, option_map, Some};
ghost use Rattle.std.specs.Option.{ForSome, ForNone};
ghost use Rattle.std.specs.List.Sorted.{IsStrictlySortedBy};
ghost use Rattle.ipam_block.specs.Order.{cidr_cmp};
ghost use Rattle.std.proofs.Props.{props};
ghost use Rattle.ipam_records.specs.Pages.{rows_of_pages};
ghost use Rattle.ipam_records.specs.BlockLists.{cidrs_of_node, cidrs_unowned, cidrs_roomy, named_lists, AreNamedLists, AreListsOf, AreBlocks, HasNoBlock};

use crate::key_ref::KeyRef;
use crate::record::Record;
use crate::search::{list_of, row_in};
use ipam_addr::Cidr;

/// The lists of blocks that are kept beside their rows.
#[derive(Clone, Copy)]
struct Index<'a> {
    /// Each node's blocks, under the bytes of its name.
    owned: &'a [(Vec<u8>, Vec<Cidr>)],
    unowned: &'a [Cidr],
    roomy: &'a [Cidr],
}

/// Rows of the datastore, each a revision and a record, which stand in pages and are lent without
/// being copied. Rows of blocks come with the lists of them.
#[derive(Clone, Copy)]
pub struct Listing<'a> {
    pages: &'a [Vec<(u64, Record)>],
    /// None where no row is a block.
    index: Option<Index<'a>>,
    ghost few: { length (rows_of_pages pages.now) < 2 ^ 32 },
    ghost none: { ForNone index (HasNoBlock (rows_of_pages pages.now)) } by { Prim.hlevel props },
    ghost blocks: { ForSome index (λ lists. AreBlocks (rows_of_pages pages.now)) } by { Prim.hlevel props },
    ghost named: { ForSome index (λ lists. AreNamedLists (named_lists lists.owned.now)) } by { Prim.hlevel props },
    ghost indexed: { ForSome index (λ lists. AreListsOf (rows_of_pages pages.now) (named_lists lists.owned.now) lists.unowned.now lists.roomy.now) } by { Prim.hlevel props },
}

impl<'a> Listing<'a> {
    ghost use Rattle.ipam_records.specs.Listing.{rows_of};
    ghost use Rattle.ipam_records.specs.Datastore.{row_of};
    ghost use Rattle.ipam_records.specs.declared.key.Key.TheVariants as key;

    /// The rows of these pages, one page after the other, none of which is a block. Takes no
    /// memory.
    pub fn over(pages: &'a [Vec<(u64, Record)>]) -> Listing<'a>
        requires few { length (rows_of_pages pages.now) < 2 ^ 32 }
        requires no_block { HasNoBlock (rows_of_pages pages.now) }
        ensures { rows_of result ≡ rows_of_pages pages.now }
    {
        Listing { pages, index: None }
    }

    /// The rows of these pages, one page after the other, all of which are blocks by family, base
    /// and prefix, each CIDR once. `owned` has the blocks of each node that has one, under the
    /// bytes of its name and in their order, `unowned` the blocks without a node, and `roomy`
    /// those with a free address. Takes no memory.
    pub fn indexed(
        pages: &'a [Vec<(u64, Record)>],
        owned: &'a [(Vec<u8>, Vec<Cidr>)],
        unowned: &'a [Cidr],
        roomy: &'a [Cidr],
    ) -> Listing<'a>
        requires few { length (rows_of_pages pages.now) < 2 ^ 32 }
        requires blocks { AreBlocks (rows_of_pages pages.now) }
        requires named { AreNamedLists (named_lists owned.now) }
        requires lists { AreListsOf (rows_of_pages pages.now) (named_lists owned.now) unowned.now roomy.now }
        ensures { rows_of result ≡ rows_of_pages pages.now }
    {
        Listing {
            pages,
            index: Some(Index {
                owned,
                unowned,
                roomy,
            }),
        }
    }

    /// How many rows there are.
    pub fn len(&self) -> usize
        ensures { result ≡ length (rows_of self.now) }
    {
        let mut count = 0;
        for page in self.pages {
            count += page.len();
        }
        count
    }

    /// The pages of rows, one after the other. Takes no memory.
    pub fn pages(&self) -> &'a [Vec<(u64, Record)>]
        ensures { rows_of_pages result.now ≡ rows_of self.now }
    {
        self.pages
    }

    /// The revision and the record of the row at this place.
    pub fn at(&self, place: usize) -> (u64, &'a Record)
        requires { place < length (rows_of self.now) }
        ensures { slice_get (rows_of self.now) place ≡ Some (result.0, result.1.now) }
    {
        let mut left = place;
        for page in self.pages {
            if left < page.len() {
                let row = &page[left];
                return (row.0, &row.1);
            }
            left -= page.len();
        }
        unreachable!()
    }

    /// The blocks with this node, by family, base and prefix. Takes no memory.
    pub fn of_node(&self, node: &str) -> &'a [Cidr]
        ensures value { result.now ≡ cidrs_of_node node.now (rows_of self.now) }
        ensures ascending { IsStrictlySortedBy cidr_cmp result.now }
    {
        match self.index {
            Some(lists) => list_of(lists.owned, node),
            None => &[],
        }
    }

    /// The blocks without a node, by family, base and prefix. Takes no memory.
    pub fn unowned(&self) -> &'a [Cidr]
        ensures value { result.now ≡ cidrs_unowned (rows_of self.now) }
        ensures ascending { IsStrictlySortedBy cidr_cmp result.now }
    {
        match self.index {
            Some(lists) => lists.unowned,
            None => &[],
        }
    }

    /// The blocks with a free address, by family, base and prefix. Takes no memory.
    pub fn roomy(&self) -> &'a [Cidr]
        ensures value { result.now ≡ cidrs_roomy (rows_of self.now) }
        ensures ascending { IsStrictlySortedBy cidr_cmp result.now }
    {
        match self.index {
            Some(lists) => lists.roomy,
            None => &[],
        }
    }

    /// The revision and the record of this block. None exactly where it has no row. Takes no
    /// memory.
    pub fn find(&self, cidr: Cidr) -> Option<(u64, &'a Record)>
        ensures { option_map (λ found. (found.0, found.1.now)) result ≡ row_of (key.Block cidr) (rows_of self.now) }
    {
        if self.index.is_none() {
            return None;
        }
        let row = row_in(self.pages, &KeyRef::Block(cidr))?;
        Some((row.0, &row.1))
    }
}
