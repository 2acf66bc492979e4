//! The sockets between the daemon and its clients: a Unix stream socket file or a TCP address, with
//! the time that each side waits for the other, and a look whether the peer is still there.
#![tactic(auto)]

mod address;
mod bell;
mod bound;
mod connection;
mod dialing;
mod entrance;
mod file;
mod gate;
mod idle;
mod limits;
mod link;
mod listener;
mod listening;
mod passing;
mod ready;
mod stream;
mod waits;

pub use address::Address;
pub use bell::Bell;
pub use connection::Connection;
pub use dialing::{DialError, dial};
pub use gate::{Peer, PeerGate, StreamPeer};
pub use ipam_io::Failed;
pub use limits::Limits;
pub use link::SocketLink;
pub use listener::SocketListener;
pub use listening::{Came, Listens};
pub use passing::Passing;
pub use stream::{Connected, Stream, may_begin};
pub use waits::Waits;
