//! The feed of routes, which takes each write that is done.
ghost use Rattle.std.specs.Prelude.{◌≡◌, ◌+◌, List, [], IfOk, OnOk};
ghost use Rattle.std.specs.Option.{option_copied, ForSome};
ghost use Rattle.ipam_records.specs.declared.call.Write.{Write as OneWrite};
ghost use Rattle.ipam_records.specs.Datastore.{Datastore};
ghost use Rattle.ipam_store.specs.Feed.{write_revision};
ghost use Rattle.ipam_store.specs.Follows.{Follows};
ghost use Rattle.ipam_store.specs.Turned.{IsPreparedFor};
ghost use Rattle.ipam_shared.specs.Feed.{with_write, counter_with};

use ipam_records::{Call, Kind, Reply, Write};
use ipam_store::{Ring, Store};
use std::alloc::{AllocError, Global};

/// The feed of a datastore, before anything is written.
pub(crate) fn open_ring(alloc: Global, store: &Store) -> Result<Ring, AllocError>
    ensures { IfOk result (λ ring. Follows ring store.now.store []) }
{
    let call = Call::List(Kind::Affinity);
    let reply = store.reply(&call);
    drop(call);
    let Reply::Listed(listing) = reply else {
        unreachable!()
    };
    let ring = Ring::open(alloc, &listing, store.counter())?;
    Ok(ring)
}

/// Makes the feed ready for the write, where there is one. What it follows stays.
pub(crate) fn prepare(ring: &mut Ring, write: Option<&Write>) -> Result<(), AllocError>
    requires next { ForSome (option_copied write) (λ one. write_revision one ≡ ring.old.counter + 1) }
    ensures follows { (base : Datastore) (writes : List OneWrite)
        → Follows ring.old base writes → Follows ring.new base writes }
    ensures counter { ring.new.counter ≡ ring.old.counter }
    ensures prepared { OnOk result (ForSome (option_copied write.entry) (IsPreparedFor ring.new)) }
{
    match write {
        Some(write) => ring.prepare(write),
        None => Ok(()),
    }
}

/// Has the feed take the write, where there is one. Takes no memory.
pub(crate) fn push(ring: &mut Ring, write: Option<&Write>)
    requires { ForSome (option_copied write) (IsPreparedFor ring.old) }
    ensures follows { (base : Datastore) (writes : List OneWrite)
        → Follows ring.old base writes → Follows ring.new base (with_write (option_copied write.entry) writes) }
    ensures counter { ring.new.counter ≡ counter_with (option_copied write.entry) ring.old.counter }
{
    if let Some(write) = write {
        ring.push(write);
    }
}
