//! The operator's words over a session of the daemon. Each word asks by lines of a session, and writes
//! what the same word writes over a database file.
//!
//! `get`, `show` and `audit` read the daemon's rows page by page. A backup takes all rows of one moment, of a daemon or
//! of a keeper, and puts them into a new database.
#![tactic(auto)]

mod answer;
mod applying;
mod asking;
mod auditing;
mod backing;
mod datastore;
mod end;
mod filling;
mod getting;
mod looking;
mod moment;
mod page;
mod paging;
mod releasing;
mod routing;
mod row;
mod showing;
mod standing;
mod target;
mod telling;
mod unreserving;

pub use answer::{OperatorAnswer, json_of_line};
pub use applying::apply;
pub use asking::{AskFault, REPLY_BYTES, ask};
pub use auditing::audit;
pub use backing::{back_up_asked, back_up_kept};
pub use datastore::datastore_of;
pub use end::End;
pub use getting::get;
pub use moment::MOST_TRIES;
pub use paging::{ask_kinds, ask_rows};
pub use releasing::release;
pub use routing::routes;
pub use showing::show;
pub use target::Target;
pub use telling::{tell, tell_fault, tell_made, unreached};
pub use unreserving::{NO_RESERVATION, unreserve};
