//! A lock whose holders take turns, and whose history each of them knows.
//!
//! A value under the lock stands for a history: where it started, and the entries that steps added, the newest
//! first. Whoever may take turns has a pass, which knows the history up to its last turn. One lock has at most
//! 64 passes, each with a number of its own, and an entry carries the number of the pass that made it.
#![tactic(auto)]

mod booked;
mod desk;
mod limits;
mod lock;
mod numbers;
mod plays;
mod turns;
mod view;

pub use booked::{Booked, Step};
pub use limits::{FIRST_TURNS, MOST_PASSES, SPLIT_TURNS};
pub use lock::TurnLock;
pub use turns::Turns;
pub use view::View;
