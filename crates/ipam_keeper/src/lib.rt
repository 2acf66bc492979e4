//! Where rows are kept outside of the process: a trait whose clauses say what a load, a put and a
//! removal do, and a keeper in memory for tests.
#![tactic(auto)]

mod keeper;
mod memory;
mod rows;

pub use ipam_records::Row;
pub use keeper::{KeepFault, Keeper};
pub use memory::MemoryKeeper;
