//! Two sessions at one cluster, of which one is served before a pass of the other.
ghost use Rattle.std.specs.Prelude.{◌≡◌, None, IsNone};
ghost use Rattle.ipam_shared.specs.Passes.{runs_in};

use crate::counting::Counting;
use crate::rows::{FREE, keeper_of, number_of};
use crate::served::{served, share};
use crate::told::Told;
use ipam_daemon::Serves;
use ipam_io::{OpenGate, Passed, Point};
use ipam_serve::{Queue, SessionGate};
use ipam_shared::{Keeper, Pass};
use std::alloc::{AllocError, Global};
use std::sync::{Arc, Wait};

/// The gate of a session, which never stops it. At one pass it has another session served to its end.
#[derive(Drop)]
struct Meanwhile<'a, R: Wait, S: Serves> {
    rt: &'a R,
    alloc: Global,
    shared: &'a S,
    pass: Pass,
    patience: Counting,
    lines: &'a str,
    /// How many passes there are until then. With 0 it never does.
    passes_left: u64,
    told: Told,
    ghost own: { pass.lock ≡ S.id shared.now },
    ghost idle: { IsNone (runs_in pass) },
}

impl<R: Wait, S: Serves> SessionGate for Meanwhile<'_, R, S> {
    ghost use Rattle.std.specs.Prelude.{⊤, None};

    ghost stops = { λ _. 0 };

    ghost turns = { λ _. None };

    ghost lines = { λ _. None };

    ghost admits = { λ _ _ _ _. ⊤ };

    #[tactic(auto, using(ipam_daemon::proofs::Idle::is_idle, ipam_daemon::proofs::Idle::none_runs))]
    fn pass(&mut self, _point: Point, _session: &Pass) -> Passed {
        self.passes_left = self.passes_left.wrapping_sub(1);
        if self.passes_left == 0 {
            served(
                self.rt,
                self.alloc,
                self.shared,
                &mut self.pass,
                &mut OpenGate::new(),
                &mut self.patience,
                self.lines,
                &mut self.told,
            );
        }
        Passed::Go
    }
}

/// The text about two sessions. The first has the steps before a line `meanwhile`. Before the pass that its line
/// `at N` says the second is served, which has those behind it. The requests of both enter one queue.
pub(crate) fn told<R: Wait>(rt: &R, alloc: Global, steps: &str) -> Result<String, AllocError> {
    told_over(rt, alloc, keeper_of(alloc, FREE, "")?, steps)
}

fn told_over<R: Wait, D: Keeper + Drop>(
    rt: &R,
    alloc: Global,
    keeper: D,
    steps: &str,
) -> Result<String, AllocError> {
    let Some((shared, mut first)) = share(alloc, keeper, 0) else {
        return Err(AllocError);
    };
    match shared.split_off(&mut first) {
        Some(second) => told_of_both(rt, alloc, &shared, first, second, steps),
        None => Err(AllocError),
    }
}

/// The text about both sessions. Where a line `patience` says so, it also has what the patience of the first was
/// asked.
#[tactic(auto, using(ipam_daemon::proofs::Idle::is_idle))]
fn told_of_both<R: Wait, S: Serves>(
    rt: &R,
    alloc: Global,
    shared: &S,
    mut first: Pass,
    second: Pass,
    steps: &str,
) -> Result<String, AllocError>
    requires lock { (first.lock ≡ S.id shared.now) × (second.lock ≡ S.id shared.now) }
    requires idle { (runs_in first ≡ None) × (runs_in second ≡ None) }
{
    let (lines, others) = steps.split_once("\nmeanwhile\n").unwrap_or((steps, ""));
    let queue = Arc::new(alloc, Queue::new())?;
    let mut patience = Counting::new(Arc::try_clone(&queue)?, first.slot());
    let mut gate = Meanwhile {
        rt,
        alloc,
        shared,
        patience: Counting::new(queue, second.slot()),
        pass: second,
        lines: others,
        passes_left: number_of(lines, "at "),
        told: Told::new(alloc),
    };
    let mut told = Told::new(alloc);
    served(
        rt,
        alloc,
        shared,
        &mut first,
        &mut gate,
        &mut patience,
        lines,
        &mut told,
    );
    if lines.contains("\npatience\n") {
        told.push(patience.told(alloc));
    }
    let Meanwhile { told: other, .. } = gate;
    told.push(other.into_text());
    told.into_text()
}
