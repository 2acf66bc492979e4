//! One session of the node daemon: lines are read, what each asks is done in the session's slot of a
//! shared cluster, and each is replied to.
//!
//! How sessions let each other finish: a queue before each request, and a sleep after each lost race.
//! Neither is a lock: whoever waits goes on after a time, whatever others do.
#![tactic(auto)]

mod ends;
mod gates;
mod lines;
mod looks;
mod losses;
mod opening;
mod patience;
mod queue;
mod queued;
mod ran;
mod requests;
mod session;
mod settling;
mod sleeps;
mod turns;
mod wishes;

pub use ends::SessionEnd;
pub use gates::SessionGate;
pub use ipam_io::{Clock, Link, Passed, Point};
pub use ipam_session::{Refusal, Reply};
pub use ipam_shared::{Keeper, Pass, Shared};
pub use lines::answer_line;
pub use opening::Opening;
pub use patience::Patience;
pub use queue::{MOST_WAITS, Others, Place, Queue};
pub use queued::Queued;
pub use ran::{Broken, Ran};
pub use requests::{run_call, run_feed, run_request};
pub use session::serve_session;
pub use wishes::ReadsWishes;
