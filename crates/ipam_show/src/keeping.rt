//! What a datastore keeps, as a request reads it.
ghost use Rattle.std.specs.Prelude.{◌≡◌, All, IfOk};
ghost use Rattle.ipam_records.specs.Pages.{rows_of_pages};
ghost use Rattle.ipam_show.specs.Left.{IsOfSlots};
ghost use Rattle.ipam_show.specs.Kept.{blocks_kept, pools_kept, reservations_kept, state_kept};

use ipam_addr::Cidr;
use ipam_block::State;
use ipam_pool::{Pool, Reservation};
use ipam_records::{Call, Key, Kind, Record, Reply};
use ipam_store::Store;
use ipam_text::Text;
use std::alloc::{AllocError, Global};

/// The pools. None where their row is missing.
pub fn pools_kept(store: &Store) -> &[Pool]
    ensures pools { result.now ≡ pools_kept store.now.store }
    ensures slots { All IsOfSlots result.now }
{
    match store.reply(&Call::Get(Key::Pools)) {
        Reply::Found(_, Record::Pools(table)) => table.pools(),
        _ => &[],
    }
}

/// The reservations. None where their row is missing.
pub(crate) fn reservations_kept(store: &Store) -> &[Reservation]
    ensures { result.now ≡ reservations_kept store.now.store }
{
    match store.reply(&Call::Get(Key::Reservations)) {
        Reply::Found(_, Record::Reservations(list)) => list.as_slice(),
        _ => &[],
    }
}

/// The rows of the blocks, page by page.
pub(crate) fn block_pages(store: &Store) -> &[Vec<(u64, Record)>]
    ensures { rows_of_pages result.now ≡ blocks_kept store.now.store }
{
    store.pages(Kind::Block)
}

/// The state of the node's affinity to the block, where there is one.
pub(crate) fn state_kept(
    alloc: Global,
    store: &Store,
    node: &str,
    cidr: Cidr,
) -> Result<Option<State>, AllocError>
    ensures { IfOk result (λ state. state ≡ state_kept store.now.store node.now cidr) }
{
    let call = Call::Get(Key::Affinity(Text::copied(alloc, node)?, cidr));
    match store.reply(&call) {
        Reply::Found(_, Record::Affinity(affinity)) => Ok(Some(affinity.state)),
        _ => Ok(None),
    }
}
