//! Laws of histories. Each function does nothing: its contract is the law, and the proof is of the
//! model alone.
#![tactic(auto)]

pub mod affinities;
pub mod alone;
pub mod answers;
pub mod blocks;
pub mod bounds;
pub mod counts;
pub mod courses;
pub mod datastore;
pub mod faults;
pub mod labels;
pub mod opening;
pub mod owners;
pub mod records;
pub mod stands;
pub mod whole;
pub mod writes;
