//! A keeper of rows over one table of a SQLite file.
#![tactic(auto)]

mod copied;
mod fault;
mod header;
mod keeper;
mod lazy;
mod loading;
mod log_frames;
mod names;
mod opening;
mod place;
mod table;
mod tally;
mod turn;

pub use fault::StorageFault;
pub use keeper::{SqliteKeeper, open_keeper, open_served};
pub use lazy::{FileKeeper, fold_log};
pub use place::{Place, Waiting, daemon_at};
pub use table::SqliteTable;
pub use turn::{Pauses, Tries, wait_for};
