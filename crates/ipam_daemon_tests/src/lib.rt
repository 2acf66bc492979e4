//! Sessions over a link and a keeper in memory, each by a gate. The title of a scenario begins with its kind, then
//! steps follow, and after a step the lines that are wanted of it, as `= session Closed`.
//!
//! And cases over a kept cluster, of which writes and settlings fail in some, and over one that several passes share.
//! The first line of a case says which it is. How long it took goes to standard error. `ipam_tests` has the scenarios
//! and the cases.
#![tactic(auto)]

mod accepting;
mod asks;
mod cases;
mod counting;
mod ends;
mod keepers;
mod pair;
mod queues;
mod requests;
mod rows;
mod runs;
mod served;
mod sessions;
mod shared_cases;
mod silent;
mod sleeps;
mod steps;
mod team;
mod threads;
mod told;
mod two;
mod workers;

pub use cases::report;
pub use shared_cases::shared_told;
