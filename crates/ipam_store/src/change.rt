ghost use Rattle.std.specs.Prelude.{◌≡◌, IfOk};
ghost use Rattle.ipam_store.specs.Feed.{write_revision};
ghost use Rattle.ipam_store.specs.Turned.{change_meant};

use crate::route::Route;
use ipam_block::State;
use ipam_records::{Key, Record, Write};
use std::alloc::AllocError;

/// A route that a write of this revision gave or took.
pub struct Change {
    pub revision: u64,
    pub route: Route,
    /// Whether the route came, and did not go.
    pub up: bool,
}

impl Drop for Change {
    fn drop(self) {
        let Change {
            revision: _,
            route: _,
            up: _,
        } = self;
    }
}

impl Clone for Change {
    ghost is_clone = { λ old new. new ≡ old };

    fn clone(&self) -> Result<Change, AllocError> {
        let route = self.route.clone()?;
        Ok(Change {
            revision: self.revision,
            route,
            up: self.up,
        })
    }
}

pub(crate) fn write_revision(write: &Write) -> u64
    ensures { result ≡ write_revision write.now }
{
    match write {
        Write::Put(revision, _) | Write::Remove(revision, _) => *revision,
    }
}

/// The change that the write makes, unless the routes are so already.
pub(crate) fn change_meant(write: &Write) -> Result<Option<Change>, AllocError>
    ensures { IfOk result (λ change. change ≡ change_meant write.now) }
{
    match write {
        Write::Put(revision, Record::Affinity(affinity)) => Ok(Some(Change {
            revision: *revision,
            route: Route {
                node: affinity.node.clone()?,
                cidr: affinity.cidr,
            },
            up: affinity.state == State::Confirmed,
        })),
        Write::Remove(revision, Key::Affinity(node, cidr)) => Ok(Some(Change {
            revision: *revision,
            route: Route {
                node: node.clone()?,
                cidr: *cidr,
            },
            up: false,
        })),
        _ => Ok(None),
    }
}
