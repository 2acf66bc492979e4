//! The affinities that are left over.
ghost use Rattle.std.specs.Prelude.{◌≡◌, ◌++◌, ◌&&◌, not, IfOk, OnOk};
ghost use Rattle.ipam_records.specs.declared.key.Kind.TheVariants as kind;
ghost use Rattle.ipam_records.specs.Datastore.{rows_of_kind};
ghost use Rattle.ipam_commands.specs.Reported.{stale_of, stale_in, stray_of, stray_in, is_pending, has_node};

use crate::audit_look::{has_node, listing};
use ipam_addr::Cidr;
use ipam_block::{Affinity, State};
use ipam_records::{Kind, Record};
use ipam_store::Store;
use ipam_text::Text;
use std::alloc::{AllocError, Global};

/// The affinities that are pending deletion: the node and the block of each.
pub(crate) fn stale(alloc: Global, store: &Store) -> Result<Vec<(Text, Cidr)>, AllocError>
    ensures { IfOk result (λ found. found.items ≡ stale_in (rows_of_kind kind.Affinity store.now.store)) }
{
    let mut found = Vec::new(alloc);
    for page in listing(store, Kind::Affinity).pages() {
        add_stale(&mut found, page)?;
    }
    Ok(found)
}

fn add_stale(found: &mut Vec<(Text, Cidr)>, rows: &[(u64, Record)]) -> Result<(), AllocError>
    ensures { OnOk result (found.new.items ≡ found.old.items ++ stale_in rows.now) }
{
    for row in rows {
        if let Some(affinity) = stale_of(&row.1)? {
            found.push(affinity)?;
        }
    }
    Ok(())
}

fn stale_of(kept: &Record) -> Result<Option<(Text, Cidr)>, AllocError>
    ensures { IfOk result (λ found. found ≡ stale_of kept.now) }
{
    match kept {
        Record::Affinity(affinity) => {
            if affinity.state == State::PendingDeletion {
                Ok(Some((affinity.node.clone()?, affinity.cidr)))
            } else {
                Ok(None)
            }
        }
        _ => Ok(None),
    }
}

/// The pending ones whose block is missing or has not their node.
pub(crate) fn stray(alloc: Global, store: &Store) -> Result<Vec<(Text, Cidr)>, AllocError>
    ensures { IfOk result (λ found. found.items
        ≡ stray_in store.now.store (rows_of_kind kind.Affinity store.now.store)) }
{
    let mut found = Vec::new(alloc);
    for page in listing(store, Kind::Affinity).pages() {
        add_stray(&mut found, store, page)?;
    }
    Ok(found)
}

fn add_stray(
    found: &mut Vec<(Text, Cidr)>,
    store: &Store,
    rows: &[(u64, Record)],
) -> Result<(), AllocError>
    ensures { OnOk result (found.new.items ≡ found.old.items ++ stray_in store.now.store rows.now) }
{
    for row in rows {
        if let Some(affinity) = stray_of(store, &row.1)? {
            found.push(affinity)?;
        }
    }
    Ok(())
}

fn stray_of(store: &Store, kept: &Record) -> Result<Option<(Text, Cidr)>, AllocError>
    ensures { IfOk result (λ found. found ≡ stray_of store.now.store kept.now) }
{
    match kept {
        Record::Affinity(affinity) => {
            if is_stray(store, affinity) {
                Ok(Some((affinity.node.clone()?, affinity.cidr)))
            } else {
                Ok(None)
            }
        }
        _ => Ok(None),
    }
}

fn is_stray(store: &Store, affinity: &Affinity) -> bool
    ensures { result ≡ is_pending affinity.now.state && not (has_node store.now.store affinity.now.node affinity.now.cidr) }
{
    affinity.state == State::Pending && !has_node(store, affinity.node.as_str(), affinity.cidr)
}
