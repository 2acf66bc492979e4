//! The workers.
ghost use Rattle.std.specs.Prelude.{◌≡◌, None, IfOk, OnOk, OnErr};
ghost use Rattle.std.specs.Arc.{arc_value};
ghost use Rattle.std.specs.Vec.{vec_len};
ghost use Rattle.ipam_io.specs.Counts.{Rose};
ghost use Rattle.ipam_shared.specs.Passes.{IsNewlyKept, runs_in};
ghost use Rattle.ipam_daemon.specs.Crews.{IsEngaged};
ghost use Rattle.ipam_daemon.specs.Handing.{IsEachKept, IsHandedOver};

use crate::alarm::Alarm;
use crate::channel::{HandingEnd, TakingEnd, channel};
use crate::common::Common;
use crate::crew::{Crew, hire, start};
use crate::handing::{Watches, hand_over_all};
use crate::host::Host;
use crate::leaving::LeavingEnd;
use crate::notes::{Note, Notes, Tells};
use crate::serves::Serves;
use crate::worker::Worker;
use ipam_serve::Opening;
use ipam_shared::{Keeper, Kept, Pass, Shared};
use ipam_socket::{Connection, Failed, Limits, Listens};
use log::Log;
use std::alloc::{AllocError, Global};
use std::sync::Wait;
use std::thread::JoinHandle;
use std::time::Clock;

/// How many connections may be accepted before a worker takes them. The system lets others wait.
const MOST_WAITING: usize = 16;

/// Workers in threads of their own, and one more, who serves where none of them was started.
#[derive(Drop)]
pub struct Staff<S: Serves, R> {
    to: HandingEnd<Connection>,
    threads: Vec<JoinHandle<()>>,
    thread_faults: u64,
    own: Worker<S, R>,
    notes: Notes,
}

impl<S: Serves + Drop, C: Clock + Copy + Drop> Staff<S, C> {
    /// Has the connections of the listener served, one by each worker at a time, and kept where their sessions were
    /// left, until accepting fails, or the watch finds that a session ended since the keeper failed. That shows between
    /// two tries to accept a connection. It doesn't wait for the sessions that are served by then.
    pub(crate) fn accept_all<R: Wait + Log + Clock, L: Listens<Connection>, A: Watches>(
        &mut self,
        rt: &R,
        listener: &mut L,
        left: &mut TakingEnd<Connection>,
        watch: &mut A,
    ) -> Result<(), Failed>
        ensures each { IsHandedOver (L.accepted listener.old) (L.accepted listener.new)
            self.old.to.handed self.new.to.handed self.old.own.desk.sessions self.new.own.desk.sessions }
        ensures kept { IsEachKept left.old.taken left.new.taken (L.kept listener.old) (L.kept listener.new) }
        ensures alarm { OnOk result (Rose (A.found watch.old) (A.found watch.new)) }
        ensures no_alarm { OnErr result (A.found watch.new ≡ A.found watch.old) }
        ensures fault { OnErr result (Rose (L.faults listener.old) (L.faults listener.new)) }
        ensures no_fault { OnOk result (L.faults listener.new ≡ L.faults listener.old) }
    {
        hand_over_all(
            rt,
            listener,
            &mut self.to,
            left,
            &mut self.own,
            watch,
            &mut self.notes,
        )
    }
}

/// Makes so many workers over this opening of the cluster, or fewer where the system makes no more threads or the
/// cluster has no more slots. Each has a part of the alarm, and of what connections are left by. One more thread, if the
/// system makes it, writes their notes, and else they do.
pub fn engage<R: Host, D: Keeper + Send + Drop + 'static>(
    rt: R,
    alloc: Global,
    kept: Kept<D>,
    opening: Opening,
    workers: u8,
    limits: Limits,
    alarm: Alarm,
    leaving: LeavingEnd<Connection>,
) -> Result<Staff<Shared<D>, R>, AllocError>
    requires { IsNewlyKept D.rows D.settled kept }
    ensures engaged { IfOk result (λ staff. IsEngaged workers 0 (vec_len staff.threads) 0 staff.thread_faults staff.own.desk.pass) }
    ensures first { IfOk result (λ staff. staff.own.desk.pass.slot ≡ 0) }
{
    let Ok((shared, pass)) = Shared::new(alloc, kept) else {
        return Err(AllocError);
    };
    engage_over(
        rt, alloc, shared, opening, pass, workers, limits, alarm, leaving,
    )
}

/// Makes so many workers over what many threads may use, or fewer where the system makes no more threads or there are
/// no more slots.
fn engage_over<R: Host, S: Serves + Send + Sync + Drop + 'static>(
    rt: R,
    alloc: Global,
    shared: S,
    opening: Opening,
    mut pass: Pass,
    workers: u8,
    limits: Limits,
    alarm: Alarm,
    leaving: LeavingEnd<Connection>,
) -> Result<Staff<S, R>, AllocError>
    requires own { pass.lock ≡ S.id shared }
    requires first { pass.slot ≡ 0 }
    requires idle { runs_in pass ≡ None }
    ensures engaged { IfOk result (λ staff. IsEngaged workers 0 (vec_len staff.threads) 0 staff.thread_faults staff.own.desk.pass) }
    ensures first { IfOk result (λ staff. staff.own.desk.pass.slot ≡ 0) }
{
    let (mut notes, told, scribe) = Notes::new(alloc)?;
    let common = Common::of(alloc, shared, opening, alarm, notes.another()?, leaving)?;
    let (to, from) = channel(alloc, MOST_WAITING)?;
    let mut crew = Crew {
        rt: &rt,
        from: &from,
        threads: Vec::new(alloc),
        faults: 0,
    };
    hire_all(rt, alloc, &common, &mut pass, &mut crew, workers, limits)?;
    let Crew {
        threads,
        faults: thread_faults,
        ..
    } = crew;
    let own = Worker::new(alloc, common, pass, rt, limits);
    let _ = start(rt, told, scribe);
    if thread_faults > 0 {
        notes.tell(&rt, Note::Workers(threads.len(), workers));
    }
    Ok(Staff {
        to,
        threads,
        thread_faults,
        own,
        notes,
    })
}

/// Has up to so many workers work, each with a pass that is split off. A pass that was split off
/// has too few turns to be split again, so this one makes them all.
#[tactic(auto, using(crate::proofs::Counts::hired_none, crate::proofs::Counts::hired_more))]
fn hire_all<R: Host, S: Serves + Send + Sync + Drop + 'static>(
    rt: R,
    alloc: Global,
    common: &Common<S>,
    pass: &mut Pass,
    crew: &mut Crew<'_, R>,
    workers: u8,
    limits: Limits,
) -> Result<(), AllocError>
    requires own { pass.old.lock ≡ S.id (arc_value common.now.shared) }
    ensures own { pass.new.lock ≡ pass.old.lock }
    ensures slot { pass.new.slot ≡ pass.old.slot }
    ensures same { runs_in pass.new ≡ runs_in pass.old }
    ensures engaged { OnOk result (IsEngaged workers (vec_len crew.old.threads) (vec_len crew.new.threads) crew.old.faults crew.new.faults pass.new) }
{
    for _ in 0..workers {
        let Some(other) = common.shared.split_off(pass) else {
            return Ok(());
        };
        let worker = Worker::new(alloc, common.another()?, other, rt, limits);
        if !hire(crew, worker)? {
            return Ok(());
        }
    }
    Ok(())
}
