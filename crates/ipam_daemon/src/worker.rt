//! Who serves connections.
ghost use Rattle.std.specs.Prelude.{◌≡◌, None};
ghost use Rattle.std.specs.Arc.{arc_value};
ghost use Rattle.ipam_io.specs.Counts.{next_count};
ghost use Rattle.ipam_shared.specs.Passes.{runs_in};
ghost use Rattle.ipam_daemon.specs.Alarms.{IsHeeded};
ghost use Rattle.ipam_daemon.specs.Connections.{IsAttended, IsServedLent};

use crate::alarm::Alarm;
use crate::asking::Asking;
use crate::common::Common;
use crate::connection::{Sockets, serve_connection};
use crate::desk::Desk;
use crate::handing::Attends;
use crate::leaving::{Leaves, LeavingEnd};
use crate::notes::{Note, Notes, Tells};
use crate::serves::Serves;
use ipam_io::SystemClock;
use ipam_serve::{Queued, SessionEnd};
use ipam_shared::Pass;
use ipam_socket::{Connection, Limits, SocketLink, StreamPeer};
use log::Log;
use std::alloc::Global;
use std::sync::Wait;
use std::time::Clock;

/// Serves a session over each connection, for as long as its peer is there and keeps the limits. A session whose client
/// is silent between two lines is left, and goes on as another one.
#[derive(Drop)]
pub(crate) struct Worker<S: Serves, C> {
    desk: Desk<S, C>,
    clock: C,
    limits: Limits,
    alarm: Alarm,
    notes: Notes,
    leaving: LeavingEnd<Connection>,
}

impl<S: Serves, C: Clock + Copy> Worker<S, C> {
    /// A worker that serves sessions by this pass, with what it has in common with others and within these
    /// limits.
    #[tactic(auto, using(crate::proofs::Idle::is_idle))]
    pub(crate) fn new(
        alloc: Global,
        common: Common<S>,
        pass: Pass,
        clock: C,
        limits: Limits,
    ) -> Worker<S, C>
        requires own { pass.lock ≡ S.id (arc_value common.shared) }
        requires idle { runs_in pass ≡ None }
        ensures pass { result.desk.pass ≡ pass }
        ensures sessions { result.desk.sessions ≡ 0 }
    {
        let Common {
            shared,
            opening,
            queue,
            alarm,
            notes,
            leaving,
        } = common;
        Worker {
            desk: Desk {
                alloc,
                shared,
                opening,
                patience: Queued::new(queue, pass.slot()),
                pass,
                clock: SystemClock::new(clock),
                sessions: 0,
            },
            clock,
            limits,
            alarm,
            notes,
            leaving,
        }
    }

    /// Serves a session over the connection to its end, and notes the end unless it was left. Exactly where it ended
    /// since the keeper failed, it raises the alarm.
    fn serve<R: Wait + Log>(&mut self, rt: &R, connection: &Connection) -> SessionEnd
        ensures served { IsAttended C S.keeps (arc_value self.old.desk.opening) self.old.desk.pass self.new.desk.pass connection.entry result }
        ensures counted { self.new.desk.sessions ≡ next_count self.old.desk.sessions }
        ensures heeded { IsHeeded result self.old.alarm.raises self.new.alarm.raises }
    {
        let sockets = Sockets {
            clock: self.clock,
            limits: self.limits,
        };
        let (end, link, gate): (
            SessionEnd,
            SocketLink<C, &Connection>,
            Asking<StreamPeer<'_>>,
        ) = serve_connection(rt, &mut self.desk, &sockets, connection);
        drop(gate);
        let note = if link.is_refused() {
            Note::Refused
        } else {
            Note::Ended(end)
        };
        self.alarm.heed(end);
        if !connection.is_left() {
            self.notes.tell(rt, note);
        }
        end
    }
}

impl<S: Serves, C: Clock + Copy> Attends<Connection> for Worker<S, C> {
    ghost attended = { λ worker. worker.desk.sessions };

    ghost serves = { λ before connection after. IsServedLent C S.keeps (arc_value before.desk.opening) before.desk.pass after.desk.pass connection };

    /// Serves a session over the connection to its end, and notes the end. Where the session was left, the connection
    /// goes back to who keeps it.
    fn attend<R: Wait + Log + Clock>(&mut self, rt: &R, connection: Connection) {
        self.serve(rt, &connection);
        if connection.is_left() {
            self.leaving.leave(rt, connection);
        }
    }
}
