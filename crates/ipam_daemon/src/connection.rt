//! A session over a connection: over a link of it, and by a gate of it.
ghost use Rattle.std.specs.Prelude.{◌≡◌, ℕ, List, None};
ghost use Rattle.std.specs.Arc.{arc_value};
ghost use Rattle.std.specs.Io.KnownBytes.{prepend_known};
ghost use Rattle.ipam_io.specs.Counts.{next_count};
ghost use Rattle.ipam_serve.specs.Lines.{server_at};
ghost use Rattle.ipam_serve.specs.Sessions.{Session, talk_at};
ghost use Rattle.ipam_daemon.specs.Connections.{IsServedOver};
ghost use Rattle.ipam_socket.specs.Links.{connection_of, peer_of, whose};

use crate::asking::Asking;
use crate::desk::Desk;
use crate::serves::Serves;
use ipam_io::Link;
use ipam_serve::{SessionEnd, SessionGate};
use ipam_socket::{Connection, Limits, PeerGate, SocketLink, StreamPeer};
use std::sync::Wait;
use std::time::Clock;

/// What makes the link and the gate of a connection.
pub(crate) trait Opens<T, L, G> {
    /// It is a link of this connection.
    ghost is_link: { T → L → Type 0 };

    /// It is a gate that looks at the peer of this connection.
    ghost is_gate: { T → G → Type 0 };

    /// A link of the connection.
    fn link(&self, connection: T) -> L
        ensures { is_link connection result };

    /// A gate that looks at its peer.
    fn gate(&self, connection: T) -> G
        ensures { is_gate connection result };
}

/// Serves a session over a link of the connection and by a gate of it, to its end. Both come back as the session
/// left them.
pub(crate) fn serve_connection<
    R: Wait,
    S: Serves,
    C: Clock,
    T: Copy,
    L: Link,
    G: SessionGate,
    O: Opens<T, L, G>,
>(rt: &R, desk: &mut Desk<S, C>, opens: &O, connection: T) -> (SessionEnd, L, G)
    ensures served { IsServedOver O.is_link O.is_gate connection (λ link gate. (held : List ℕ) × Session S.keeps result.0
        (talk_at (server_at desk.old.pass (G.turns gate) None) (arc_value desk.old.opening) (G.lines gate) (L.left link) (L.written link))
        (talk_at (server_at desk.new.pass (G.turns result.2) None) (arc_value desk.old.opening) (G.lines result.2) (prepend_known held (L.left result.1)) (L.written result.1))) }
    ensures counted { desk.new.sessions ≡ next_count desk.old.sessions }
{
    let mut link = opens.link(connection);
    let mut gate = opens.gate(connection);
    let end = desk.serve(rt, &mut gate, &mut link);
    (end, link, gate)
}

/// Makes links of sockets, with this clock and these limits, and gates that look at their peers.
#[derive(Drop)]
pub(crate) struct Sockets<C> {
    pub(crate) clock: C,
    pub(crate) limits: Limits,
}

impl<'a, C: Clock + Copy> Opens<
    &'a Connection,
    SocketLink<C, &'a Connection>,
    Asking<StreamPeer<'a>>,
> for Sockets<C> {
    ghost is_link = { λ connection link. connection_of link ≡ connection };

    ghost is_gate = { λ connection gate. whose (peer_of gate.gate) ≡ connection.now };

    fn link(&self, connection: &'a Connection) -> SocketLink<C, &'a Connection> {
        SocketLink::of_session(self.clock, connection, self.limits)
    }

    fn gate(&self, connection: &'a Connection) -> Asking<StreamPeer<'a>> {
        Asking {
            gate: PeerGate::new(StreamPeer::new(connection)),
            lines: 0,
            turns: 0,
        }
    }
}
