//! How an address is assigned: an ADD of one address, an ADD without an address, which takes one of each family that
//! is wanted, and a look at what an ADD would take.
#![tactic(auto)]

mod add;
mod add_this;
mod assigning;
mod claiming;
mod grant;
mod place;
mod probe;
mod reading;
mod rounds;
mod scanning;
mod serving;
mod spare;
mod stopping;
mod usable;

pub use add::{AddProc, AddTurned};
pub use add_this::{AddThisProc, AddThisTurned};
pub use assigning::{Assigning, AssigningTurned};
pub use claiming::claimed;
pub use grant::{Grant, Obtained, Spot};
pub use place::Place;
pub use probe::{ProbeProc, ProbeTurned};
pub use reading::config_in;
pub use rounds::Rounds;
pub use scanning::{Learned, Scanned, Scanning};
pub use serving::{Serving, ServingTurned};
pub use spare::Spare;
pub use std::alloc::AllocError as Memory;
pub use stopping::{add_stopped, add_this_stopped};
pub use usable::{names_for, usable_place};
