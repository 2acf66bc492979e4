ghost use Rattle.std.specs.Prelude.{◌≡◌, IfOk, option_map};
ghost use Rattle.ipam_records.specs.Listing.{rows_of};
ghost use Rattle.ipam_records.specs.Said.{said};
ghost use Rattle.ipam_model.specs.Reads.{handle_said, block_said, pools_said, reservations_said, rows_said};
ghost use Rattle.ipam_parts.specs.Reading.{found_revision, lent_block};

use ipam_block::{Block, Handle};
use ipam_pool::{PoolTable, Reservation};
use ipam_records::{Listing, Record, Reply};
use ipam_text::Text;
use std::alloc::{AllocError, Global};

/// The handle that was found, or one of this id without counts.
pub fn handle_in(alloc: Global, id: &str, reply: &Reply) -> Result<Handle, AllocError>
    ensures { IfOk result (λ h. h ≡ handle_said id.now (said reply.now)) }
{
    match reply {
        Reply::Found(_, Record::Handle(handle)) => handle.clone(),
        _ => Ok(Handle::new(alloc, Text::copied(alloc, id)?)),
    }
}

/// The revision of what was found.
pub fn revision_in(reply: &Reply) -> Option<u64>
    ensures { result ≡ found_revision (said reply.now) }
{
    match reply {
        Reply::Found(revision, _) => Some(*revision),
        _ => None,
    }
}

/// The block that was found, with its revision.
pub fn block_in<'a>(reply: &Reply<'a>) -> Option<(u64, &'a Block)>
    ensures { lent_block result ≡ block_said (said reply.now) }
{
    match *reply {
        Reply::Found(revision, Record::Block(block)) => Some((revision, block)),
        _ => None,
    }
}

/// A copy of the pools that were found.
pub fn pools_in(alloc: Global, reply: &Reply) -> Result<PoolTable, AllocError>
    ensures { IfOk result (λ pools. pools ≡ pools_said (said reply.now)) }
{
    match reply {
        Reply::Found(_, Record::Pools(pools)) => pools.clone(),
        _ => Ok(PoolTable::new(alloc)),
    }
}

/// The reservations that were found.
pub fn reservations_in<'a>(reply: &Reply<'a>) -> &'a [Reservation]
    ensures { result.now ≡ reservations_said (said reply.now) }
{
    match *reply {
        Reply::Found(_, Record::Reservations(reservations)) => reservations.as_slice(),
        _ => &[],
    }
}

/// The rows that were listed.
pub fn listing_in<'a>(reply: &Reply<'a>) -> Listing<'a>
    ensures { rows_of result ≡ rows_said (said reply.now) }
{
    match *reply {
        Reply::Listed(listing) => listing,
        _ => Listing::over(&[]),
    }
}
