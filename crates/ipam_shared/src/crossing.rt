// The laws, as functions.
ghost use Rattle.std.specs.Prelude.{◌≡◌};

use crate::shared::Shared;
use ipam_keeper::{Keeper, MemoryKeeper};

// Takes what may be handed to another thread and used by many.
fn cross<S: Send + Sync>(_it: &S) {}

// Takes what may be handed to another thread.
fn hand<S: Send>(_it: &S) {}

/// A shared cluster may be handed to another thread and used by many, where its keeper may be handed
/// over. The function does nothing: that it may make its call is the law.
pub fn may_be_shared<D: Keeper + Send>(shared: &Shared<D>) {
    cross(shared);
}

/// A keeper in memory may be handed to another thread.
pub fn memory_may_cross(keeper: &MemoryKeeper) {
    hand(keeper);
}
