//! The gate of a worker's sessions.
ghost use Rattle.std.specs.Prelude.{◌≡◌, ◌≤◌, Some};
ghost use Rattle.ipam_io.specs.Counts.{Rose};
ghost use Rattle.ipam_io.specs.Passing.{OnGo, OnStop, count_of_turns};
ghost use Rattle.ipam_serve.specs.Asking.{count_of_lines};
ghost use Rattle.ipam_socket.specs.Links.{peer_of};

use ipam_io::{Gate, Passed, Point};
use ipam_serve::{Pass, SessionGate};
use ipam_socket::{Peer, PeerGate};

/// A gate that looks at the peer at each turn, and counts the passes before a line and those at a turn. Before
/// a line it doesn't look: only what is read shows whether the peer closed after its last reply.
#[derive(Drop)]
pub(crate) struct Asking<P> {
    pub(crate) gate: PeerGate<P>,
    pub(crate) lines: u64,
    pub(crate) turns: u64,
}

impl<P: Peer> SessionGate for Asking<P> {
    ghost stops = { λ gate. P.gone (peer_of gate.gate) };

    ghost turns = { λ gate. Some gate.turns };

    ghost lines = { λ gate. Some gate.lines };

    // it found somebody there
    ghost admits = { λ before _ _ after. P.gone (peer_of after.gate) ≡ P.gone (peer_of before.gate) };

    /// At a turn it looks once, and stops exactly where nobody is there. Before a line it goes on, and the session may
    /// be left then if nothing runs in it: no reply depends on anything else that a session has.
    fn pass(&mut self, point: Point, session: &Pass) -> Passed
        ensures looked { P.looks (peer_of self.new.gate) ≡ count_of_turns point (P.looks (peer_of self.old.gate)) }
        ensures before_line { point ≡ Point.Line → result ≡ Passed.Go }
        ensures stop { OnStop result (Rose (P.gone (peer_of self.old.gate)) (P.gone (peer_of self.new.gate))) }
        ensures go { OnGo result (P.gone (peer_of self.new.gate) ≡ P.gone (peer_of self.old.gate)) }
        ensures never_falls { P.gone (peer_of self.old.gate) ≤ P.gone (peer_of self.new.gate) }
        ensures turn { self.new.turns ≡ count_of_turns point self.old.turns }
        ensures line { self.new.lines ≡ count_of_lines point self.old.lines }
    {
        match point {
            Point::Line => {
                self.lines = self.lines.saturating_add(1);
                self.gate.set_idle(!session.running());
                Passed::Go
            }
            Point::Turn => {
                self.turns = self.turns.saturating_add(1);
                self.gate.pass(point)
            }
        }
    }
}
