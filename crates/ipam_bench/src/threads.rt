// Threads that take turns.
ghost use Rattle.std.specs.Prelude.{◌≡◌, ◌+◌, ◌*◌, ◌-◌};
ghost use denote.Param.Send.{IsSync};

use crate::tally::{Tally, Tick};
use crate::work::tell;
use std::alloc::Global;
use std::io;
use std::sync::Wait;
use std::thread::{Threads, join};
use std::time::Instant;
use turn_lock::{TurnLock, Turns};

type Pass = Turns<u64, u8>;

fn take<R: Wait>(rt: &R, lock: &TurnLock<Tally>, mut pass: Pass, turns: u32) -> Pass
    requires { pass.lock ≡ lock.now }
    ensures { result.lock ≡ lock.now }
{
    let by = pass.number();
    for _ in 0..turns {
        if lock.turn(rt, &mut pass, Tick { by }).is_err() {
            break;
        }
    }
    pass
}

fn spread<R: Threads + Wait + Sync>(
    rt: &R,
    lock: &TurnLock<Tally>,
    mut pass: Pass,
    others: u32,
    turns: u32,
) -> Pass
    requires { pass.lock ≡ lock.now }
    ensures { result.lock ≡ lock.now }
{
    if others == 0 {
        return take(rt, lock, pass, turns);
    }
    let Some(other) = lock.split(&mut pass) else {
        return take(rt, lock, pass, turns);
    };
    let more = others - 1;
    let (mut into, other) = join(
        rt,
        move || -> Pass
            requires { IsSync R.row × (pass.lock ≡ lock.now) }
            ensures { result.lock ≡ lock.entry.now }
        { spread(rt, lock, pass, more, turns) },
        move || -> Pass
            requires { IsSync R.row × (other.lock ≡ lock.now) }
            ensures { result.lock ≡ lock.entry.now }
        { take(rt, lock, other, turns) },
    );
    lock.join(&mut into, other);
    into
}

/// Takes turns by so many threads, so many by each, and tells how many were made.
pub fn take_turns<R: Threads + Wait + Sync>(
    threads: &R,
    rt: &HostRuntime,
    count: u32,
    turns: u32,
) -> io::Result<()> {
    let start = Instant::now(rt)?;
    let made = made(threads, rt.alloc(), count.saturating_sub(1), turns);
    tell(rt, &start, made.unwrap_or(0))
}

/// How many turns were taken. `None` where there was no memory for the lock.
fn made<R: Threads + Wait + Sync>(rt: &R, alloc: Global, others: u32, turns: u32) -> Option<u64> {
    let (lock, pass) = TurnLock::new(alloc, Tally { turns: 0 }).ok()?;
    let pass = spread(rt, &lock, pass, others, turns);
    if pass.is_last() {
        Some(lock.close(pass).turns)
    } else {
        None
    }
}
