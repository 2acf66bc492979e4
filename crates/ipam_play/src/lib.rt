//! Scripts are played: what their lines ask happens to a cluster, and a journal tells of it. Lines are read from a
//! source as they come, and the journal is written to a sink as it grows.
#![tactic(auto)]

mod cluster;
mod end;
mod ends;
mod fault;
mod game;
mod gathering;
mod halt;
mod lines;
mod offset;
mod opener;
mod output;
mod player;
mod playing;
mod refusal;
mod run;

pub use end::PlayEnd;
pub use fault::PlayFault;
pub use lines::{Next, ScriptFault, ScriptLines};
pub use player::Player;
pub use refusal::LineRefusal;
pub use run::play;
pub use std::alloc::AllocError as Memory;
