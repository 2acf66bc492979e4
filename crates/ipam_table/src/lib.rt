//! A keeper of rows over a table whose statements may fail, and may take back the transaction that they are in.
#![tactic(auto)]

mod batch;
mod fault;
mod keeper;
mod memory;
mod once;
mod table;
mod tally;
mod transaction;

pub use fault::TableFault;
pub use keeper::TableKeeper;
pub use memory::{FailingCall, MemoryCause, MemoryTable};
pub use once::{put_at_once, remove_at_once};
pub use table::Table;
pub use transaction::Transaction;
