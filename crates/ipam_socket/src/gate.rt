//! A gate that stops a session whose peer is gone.
ghost use Rattle.std.specs.Prelude.{◌≡◌, ◌≤◌, ℕ};
ghost use Rattle.std.specs.Bool.{OnTrue, OnFalse};
ghost use Rattle.ipam_io.specs.Counts.{Rose, next_count};
ghost use Rattle.ipam_io.specs.Passing.{OnStop, OnGo};
ghost use Rattle.ipam_socket.specs.Links.{peer_of, looks_of, gone_of, whose};

use crate::connection::Connection;
use crate::stream::Connected;
use ipam_io::{Gate, Passed, Point};

/// What is looked at to see whether somebody still waits for the reply.
pub trait Peer {
    /// How many looks were made.
    ghost looks: { Self → ℕ };

    /// How many of them found nobody.
    ghost gone: { Self → ℕ };

    /// Looks whether somebody is there.
    fn is_there(&mut self) -> bool
        ensures looked { looks self.new ≡ next_count (looks self.old) }
        ensures there { OnTrue result (gone self.new ≡ gone self.old) }
        ensures nobody { OnFalse result (Rose (gone self.old) (gone self.new)) }
        ensures never_falls { gone self.old ≤ gone self.new };

    /// From now on its session may be left between two lines, or may not.
    fn set_idle(&self, is_idle: bool);
}

/// The peer of a connection.
#[derive(Drop)]
pub struct StreamPeer<'a> {
    connection: &'a Connection,
    looks: u64,
    gone: u64,
}

impl StreamPeer<'_> {
    /// The peer of this connection, at which nobody has looked.
    pub fn new(connection: &Connection) -> StreamPeer<'_>
        ensures connection { whose result ≡ connection.now }
        ensures looks { looks_of result ≡ 0 }
        ensures gone { gone_of result ≡ 0 }
    {
        StreamPeer {
            connection,
            looks: 0,
            gone: 0,
        }
    }
}

impl Peer for StreamPeer<'_> {
    ghost looks = { looks_of };

    ghost gone = { gone_of };

    fn is_there(&mut self) -> bool {
        self.looks = self.looks.saturating_add(1);
        let is_there = self.connection.stream().has_peer();
        if !is_there {
            self.gone = self.gone.saturating_add(1);
        }
        is_there
    }

    fn set_idle(&self, is_idle: bool) {
        self.connection.set_idle(is_idle);
    }
}

/// A gate that looks at the peer at each pass, and stops where nobody is there. It does not tell how
/// many passes were made at a turn.
#[derive(Drop)]
pub struct PeerGate<P> {
    peer: P,
}

impl<P: Peer> PeerGate<P> {
    /// A gate that looks at this peer.
    pub fn new(peer: P) -> PeerGate<P>
        ensures { peer_of result ≡ peer }
    {
        PeerGate { peer }
    }

    /// From now on the session may be left between two lines, or may not.
    pub fn set_idle(&self, is_idle: bool) {
        self.peer.set_idle(is_idle);
    }
}

impl<P: Peer> Gate for PeerGate<P> {
    ghost use Rattle.std.specs.Prelude.{None};

    ghost stops = { λ gate. P.gone (peer_of gate) };

    ghost turns = { λ _. None };

    /// Looks once, and stops exactly where nobody is there.
    fn pass(&mut self, _point: Point) -> Passed
        ensures looked { P.looks (peer_of self.new) ≡ next_count (P.looks (peer_of self.old)) }
        ensures stop { OnStop result (Rose (P.gone (peer_of self.old)) (P.gone (peer_of self.new))) }
        ensures go { OnGo result (P.gone (peer_of self.new) ≡ P.gone (peer_of self.old)) }
        ensures never_falls { P.gone (peer_of self.old) ≤ P.gone (peer_of self.new) }
    {
        if self.peer.is_there() {
            Passed::Go
        } else {
            Passed::Stop
        }
    }
}
