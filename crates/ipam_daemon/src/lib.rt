//! The daemon: it holds a keeper's rows, and serves sessions at a socket file or over TCP.
//!
//! Each worker is a thread with a pass of its own of the shared cluster, and serves one connection
//! after another. The thread that accepts connections keeps each until something comes of it, hands it over through a
//! channel, and looks at the alarm of the workers between two tries. Where a client is silent between two lines, the
//! worker leaves the session, and gives the connection back to that thread. One more thread writes lines on standard
//! error.
#![tactic(auto)]

mod alarm;
mod asking;
mod channel;
mod common;
mod connection;
mod crew;
mod desk;
mod ending;
mod handing;
mod host;
mod last_line;
mod leaving;
mod notes;
mod opening;
mod pausing;
mod served;
mod serves;
mod serving;
mod staff;
mod worker;

pub use alarm::{Alarm, Watch};
pub use ending::log_end;
pub use handing::{Attends, Hands, Takes, Watches, hand_over_all, work};
pub use host::Host;
pub use ipam_serve::{Keeper, Opening, SessionEnd};
pub use ipam_socket::{
    Address, Bell, Came, Connection, Limits, Listens, Passing, SocketListener, Stream,
};
pub use last_line::tell_in_time;
pub use leaving::{Leaves, LeavingEnd, TakesNow};
pub use notes::{Note, Tells};
pub use opening::{new_opening, open_kept};
pub use pausing::Pauses;
pub use served::{Served, tell_served};
pub use serves::Serves;
pub use serving::serve;
pub use staff::{Staff, engage};
