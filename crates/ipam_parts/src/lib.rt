//! What the procedures of several requests are made of: how a write ended, what is left of the
//! races and claims, and a block as it was read. And two procedures: how a node claims a block, and how its affinity
//! to one is released.
#![tactic(auto)]

mod amount;
mod claim;
mod found;
mod freeing;
mod left;
mod lowering;
mod queue;
mod raising;
mod reading;
mod release;
mod write_end;

pub use amount::Amount;
pub use claim::{ClaimProc, ClaimTurned};
pub use found::{BlockCidr, FoundBlock, found_block};
pub use freeing::{Freeing, FreeingTurned, Picks};
pub use left::{after_claim, after_lost, all_left, lost_so_far};
pub use lowering::{Lowering, LoweringTurned};
pub use queue::first_of;
pub use raising::{Raising, RaisingTurned};
pub use reading::{block_in, handle_in, listing_in, pools_in, reservations_in, revision_in};
pub use release::{ReleaseAffinityProc, ReleaseTurned};
pub use std::alloc::AllocError as Memory;
pub use write_end::WriteEnd;
