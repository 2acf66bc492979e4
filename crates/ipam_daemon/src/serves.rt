//! What workers serve over.
ghost use Rattle.std.specs.Prelude.{◌≡◌, ℕ, List, None, IfSome, IfNone};
ghost use Rattle.std.specs.Io.KnownBytes.{prepend_known};
ghost use Rattle.atomic_table.specs.Seated.{TableId};
ghost use Rattle.ipam_shared.specs.Passes.{IsSamePass, IsSplit, runs_in};
ghost use Rattle.ipam_serve.specs.Keeping.{AtKeeper, at_keeper};
ghost use Rattle.ipam_serve.specs.Lines.{server_at};
ghost use Rattle.ipam_serve.specs.Sessions.{RoseIf, Session, is_halted, is_read_fault, is_write_fault, talk_at};
ghost use Rattle.ipam_daemon.specs.Crews.{IsSpent};

use ipam_io::{Clock, Link};
use ipam_serve::{Opening, Patience, SessionEnd, SessionGate, serve_session};
use ipam_shared::{Keeper, Pass, Shared};
use std::alloc::Global;
use std::sync::Wait;

/// What sessions are served over, each by a pass of it. Threads are started for any of these, so
/// that it is shown apart from them that a shared cluster may be used by many.
pub trait Serves {
    /// The lock whose passes these are.
    ghost id: { Self → TableId };

    /// What comes at the keeper of what is served.
    ghost keeps: { AtKeeper };

    /// Splits off a pass with a slot of its own, where there is one left.
    fn split_off(&self, pass: &mut Pass) -> Option<Pass>
        requires own { pass.old.lock ≡ id self.now }
        ensures own { pass.new.lock ≡ pass.old.lock }
        ensures slot { pass.new.slot ≡ pass.old.slot }
        ensures same { runs_in pass.new ≡ runs_in pass.old }
        ensures other { IfSome result (λ other. other.lock ≡ id self.now) }
        ensures idle { IfSome result (λ other. runs_in other ≡ None) }
        ensures none { IfNone result (IsSpent pass.new) }
        ensures untaken { IfNone result (pass.new.left ≡ pass.old.left) }
        ensures some { IfSome result (λ other. IsSplit pass.old pass.new other) };

    /// Serves a session of this opening over the link to its end, as `serve_session` does. Where a race was
    /// lost it lets others finish.
    fn session<R: Wait, L: Link, G: SessionGate, C: Clock, P: Patience>(
        &self,
        rt: &R,
        alloc: Global,
        opening: &Opening,
        pass: &mut Pass,
        gate: &mut G,
        clock: &mut C,
        patience: &mut P,
        link: &mut L,
    ) -> SessionEnd
        requires own { pass.old.lock ≡ id self.now }
        requires idle { runs_in pass.old ≡ None }
        ensures served { (held : List ℕ) × Session keeps result
            (talk_at (server_at pass.old (G.turns gate.old) (C.ahead clock.old)) opening.now (G.lines gate.old) (L.left link.old) (L.written link.old))
            (talk_at (server_at pass.new (G.turns gate.new) (C.ahead clock.new)) opening.now (G.lines gate.new) (prepend_known held (L.left link.new)) (L.written link.new)) }
        ensures idle { runs_in pass.new ≡ None }
        ensures same { IsSamePass pass.old pass.new }
        ensures reads { RoseIf (is_read_fault result) (L.read_faults link.old) (L.read_faults link.new) }
        ensures writes { RoseIf (is_write_fault result) (L.write_faults link.old) (L.write_faults link.new) }
        ensures stops { RoseIf (is_halted result) (G.stops gate.old) (G.stops gate.new) };
}

impl<D: Keeper> Serves for Shared<D> {
    ghost id = { λ shared. shared };

    ghost keeps = { at_keeper D.rows D.settled D.given D.faults D.broken };

    fn split_off(&self, pass: &mut Pass) -> Option<Pass> {
        self.split(pass)
    }

    fn session<R: Wait, L: Link, G: SessionGate, C: Clock, P: Patience>(
        &self,
        rt: &R,
        alloc: Global,
        opening: &Opening,
        pass: &mut Pass,
        gate: &mut G,
        clock: &mut C,
        patience: &mut P,
        link: &mut L,
    ) -> SessionEnd {
        serve_session(rt, alloc, self, opening, pass, gate, clock, patience, link)
    }
}
