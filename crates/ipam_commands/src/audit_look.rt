//! What is looked up in the datastore.
ghost use Rattle.std.specs.Prelude.{◌≡◌};
ghost use Rattle.std.specs.List.{count_by};
ghost use Rattle.std.specs.Option.{option_copied};
ghost use Rattle.ipam_block.specs.Operations.{is_owned};
ghost use Rattle.ipam_records.specs.declared.key.Key.TheVariants as key;
ghost use Rattle.ipam_records.specs.Datastore.{rows_of_kind, row_of};
ghost use Rattle.ipam_records.specs.Listing.{rows_of};
ghost use Rattle.ipam_records.specs.Sound.{IsDatastore};
ghost use Rattle.ipam_model.specs.CountLaw.{held_count};
ghost use Rattle.ipam_commands.specs.Reported.{has_node};
ghost use Rattle.ipam_commands.specs.Parts.{block_in_row};

use ipam_addr::Cidr;
use ipam_block::Block;
use ipam_records::{Call, Key, Kind, Listing, Record, Reply};
use ipam_store::Store;

/// The rows of the kind.
pub(crate) fn listing(store: &Store, kind: Kind) -> Listing<'_>
    ensures rows { rows_of result ≡ rows_of_kind kind store.now.store }
    ensures sound { IsDatastore store.now.store }
{
    match store.reply(&Call::List(kind)) {
        Reply::Listed(listing) => listing,
        _ => unreachable!(),
    }
}

/// The block of this CIDR.
fn block(store: &Store, cidr: Cidr) -> Option<&Block>
    ensures { option_copied result ≡ block_in_row (row_of (key.Block cidr) store.now.store.rows) }
{
    match store.reply(&Call::Get(Key::Block(cidr))) {
        Reply::Found(_, Record::Block(block)) => Some(block),
        _ => None,
    }
}

/// How many addresses of the block the handle owns.
pub(crate) fn held_count(store: &Store, handle: &str, cidr: Cidr) -> usize
    ensures { result ≡ held_count store.now.store handle.now cidr }
{
    match block(store, cidr) {
        Some(block) => held(block, handle),
        None => 0,
    }
}

fn held(block: &Block, handle: &str) -> usize
    ensures { result ≡ count_by (is_owned handle.now) block.now.allocations }
{
    block
        .allocations()
        .iter()
        .filter(|allocation| allocation.attributes.get().handle.as_str() == handle)
        .count()
}

/// Whether the block is there with this node.
pub(crate) fn has_node(store: &Store, node: &str, cidr: Cidr) -> bool
    ensures { result ≡ has_node store.now.store node.now cidr }
{
    match block(store, cidr) {
        Some(block) => block.node() == Some(node),
        None => false,
    }
}
