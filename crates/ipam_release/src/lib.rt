//! How what a handle holds is freed and looked at: three procedures. And how an operator changes the pools, the
//! reservations and the configuration: one procedure.
#![tactic(auto)]

mod admin;
mod change;
mod check;
mod del;
mod free;
mod pools;
mod reservations;

pub use admin::{AdminProc, AdminTurned};
pub use check::{CheckProc, CheckTurned};
pub use del::{DelProc, DelTurned};
pub use free::{FreeProc, FreeTurned};
pub use std::alloc::AllocError as Memory;
