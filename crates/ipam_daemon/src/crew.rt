//! Threads for workers.
ghost use Rattle.std.specs.Prelude.{IfOk};
ghost use Rattle.std.specs.Vec.{vec_len};
ghost use Rattle.ipam_daemon.specs.Crews.{IsHired};

use crate::channel::TakingEnd;
use crate::handing::{Attends, work};
use crate::host::Host;
use ipam_socket::Connection;
use std::alloc::AllocError;
use std::thread;
use std::thread::JoinHandle;

/// Threads that are started, in each of which a worker serves what is taken from one channel.
#[derive(Drop)]
pub(crate) struct Crew<'a, R> {
    pub(crate) rt: &'a R,
    pub(crate) from: &'a TakingEnd<Connection>,
    pub(crate) threads: Vec<JoinHandle<()>>,
    pub(crate) faults: u64,
}

/// Starts a thread in which the worker works. False where the system makes no thread.
pub(crate) fn hire<R: Host, W: Attends<Connection> + Send + Drop + 'static>(
    crew: &mut Crew<'_, R>,
    worker: W,
) -> Result<bool, AllocError>
    ensures { IfOk result (λ is_hired. IsHired is_hired (vec_len crew.old.threads) (vec_len crew.new.threads) crew.old.faults crew.new.faults) }
{
    crew.threads.reserve(1)?;
    match start(*crew.rt, crew.from.another()?, worker) {
        Some(thread) => {
            crew.threads.push(thread)?;
            Ok(true)
        }
        None => {
            crew.faults = crew.faults.saturating_add(1);
            Ok(false)
        }
    }
}

/// Starts a thread in which the worker attends to what is taken from the channel. None where the system
/// makes no thread.
pub(crate) fn start<R: Host, T: Send + Drop + 'static, W: Attends<T> + Send + Drop + 'static>(
    rt: R,
    from: TakingEnd<T>,
    worker: W,
) -> Option<JoinHandle<()>> {
    thread::spawn(&rt, move || {
        let (mut from, mut worker) = (from, worker);
        work(&rt, &mut from, &mut worker);
    })
    .ok()
}
