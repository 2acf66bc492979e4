//! Who serves sessions by a pass.
ghost use Rattle.std.specs.Prelude.{◌≡◌, ℕ, List, None, IsNone};
ghost use Rattle.std.specs.Arc.{arc_value};
ghost use Rattle.std.specs.Io.KnownBytes.{prepend_known};
ghost use Rattle.ipam_io.specs.Counts.{next_count};
ghost use Rattle.ipam_shared.specs.Passes.{IsSamePass, runs_in};
ghost use Rattle.ipam_serve.specs.Lines.{server_at};
ghost use Rattle.ipam_serve.specs.Sessions.{RoseIf, Session, is_halted, is_read_fault, is_write_fault, talk_at};

use crate::serves::Serves;
use ipam_io::{Link, SystemClock};
use ipam_serve::{Opening, Queued, SessionEnd, SessionGate};
use ipam_shared::Pass;
use std::alloc::Global;
use std::sync::{Arc, Wait};
use std::time::Clock;

/// Serves one session after another, by a pass of its own and with the clock of this runtime, and
/// counts them.
#[derive(Drop)]
pub(crate) struct Desk<S: Serves, C> {
    pub(crate) alloc: Global,
    pub(crate) shared: Arc<S, Global>,
    pub(crate) opening: Arc<Opening, Global>,
    pub(crate) pass: Pass,
    pub(crate) clock: SystemClock<C>,
    pub(crate) patience: Queued,
    pub(crate) sessions: u64,
    ghost own: { pass.lock ≡ S.id (arc_value shared) },
    ghost idle: { IsNone (runs_in pass) },
}

impl<S: Serves, C: Clock> Desk<S, C> {
    /// Serves a session over the link to its end, as `serve_session` does. What the client began and
    /// didn't see the end of is stopped by then.
    #[tactic(auto, using(crate::proofs::Idle::is_idle, crate::proofs::Idle::none_runs))]
    pub(crate) fn serve<R: Wait, G: SessionGate, L: Link>(
        &mut self,
        rt: &R,
        gate: &mut G,
        link: &mut L,
    ) -> SessionEnd
        ensures served { (held : List ℕ) × Session S.keeps result
            (talk_at (server_at self.old.pass (G.turns gate.old) None) (arc_value self.old.opening) (G.lines gate.old) (L.left link.old) (L.written link.old))
            (talk_at (server_at self.new.pass (G.turns gate.new) None) (arc_value self.old.opening) (G.lines gate.new) (prepend_known held (L.left link.new)) (L.written link.new)) }
        ensures same { IsSamePass self.old.pass self.new.pass }
        ensures reads { RoseIf (is_read_fault result) (L.read_faults link.old) (L.read_faults link.new) }
        ensures writes { RoseIf (is_write_fault result) (L.write_faults link.old) (L.write_faults link.new) }
        ensures stops { RoseIf (is_halted result) (G.stops gate.old) (G.stops gate.new) }
        ensures opening { self.new.opening ≡ self.old.opening }
        ensures counted { self.new.sessions ≡ next_count self.old.sessions }
    {
        self.sessions = self.sessions.saturating_add(1);
        self.shared.session(
            rt,
            self.alloc,
            &self.opening,
            &mut self.pass,
            gate,
            &mut self.clock,
            &mut self.patience,
            link,
        )
    }
}
