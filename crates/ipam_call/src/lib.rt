//! The client of the daemon: one CNI call is one line of a session, over any link and by an address. And what the
//! process's environment says of a CNI call, of the database and of the daemon.
//!
//! An entry of the environment is bytes, mostly `NAME=value`. What is no text is never taken for one.
#![tactic(auto)]

mod asking;
mod call_environment;
mod calling;
mod connecting;
mod daemon;
mod database;
mod end;
mod fixed;
mod input;
mod laws;
mod patience;
mod reply;
mod request;
mod run;
mod telling;
mod unreached;
mod values;
mod variable;
mod version;

pub use asking::exchange;
pub use call_environment::call_variables;
pub use calling::call;
pub use connecting::{Connector, Connects};
pub use daemon::daemon_named;
pub use database::{DATABASE, Database, database_named};
pub use end::{CallEnd, CallFault, DaemonReply};
pub use fixed::{FixedError, fixed_text};
pub use input::read_input;
pub use ipam_io::InputFault;
pub use ipam_socket::{DialError, Limits};
pub use laws::what_is_no_text_is_refused;
pub use patience::{CONNECT_SECONDS, MOST_CONNECT_SECONDS, connect_seconds};
pub use run::run_call;
pub use std::alloc::AllocError as Memory;
pub use telling::{tell_end, tell_no_memory};
pub use unreached::tell_unreached;
pub use variable::Variable;
pub use version::version_for;
