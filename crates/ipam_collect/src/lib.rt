//! How the addresses are collected that no live handle holds: one procedure.
#![tactic(auto)]

mod collect;
mod frees;
mod leaks;
mod live;
mod suspect;
mod suspects;
mod tally;

pub use collect::{CollectProc, CollectTurned, Grace};
pub use std::alloc::AllocError as Memory;
