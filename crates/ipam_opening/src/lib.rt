//! Opening rows: texts that another process or this one kept become a datastore, or their first
//! fault is found.
#![tactic(auto)]

mod counts;
mod earlier;
mod fault;
mod given;
mod limits;
mod load;
mod opening;
mod rows;
mod rule;

pub use fault::OpenFault;
pub use opening::open;
