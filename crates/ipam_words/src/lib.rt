//! The words of the command line: which command they name. Beside them those of an audit over a daemon, of
//! backups and of reservations that are taken back, and the help of one word.
#![tactic(auto)]

mod command;
mod daemon;
mod given;
mod help;
mod kind;
mod reading;
mod show_words;
mod texts;
mod upkeep;
mod view;

pub use command::Command;
pub use daemon::{DaemonAsk, daemon_asked};
pub use given::words_given;
pub use help::{help_of, help_text};
pub use kind::RowKind;
pub use reading::{MOST_GENERATED, MOST_WORKERS, read_words};
pub use texts::{HELP, VERSION};
pub use upkeep::{Upkeep, UpkeepAsk, help_asked, upkeep_asked};
pub use view::{Choice, Form, View};
