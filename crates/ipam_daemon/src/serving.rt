//! The daemon, from its keeper to its end.
ghost use Rattle.std.specs.Prelude.{◌≡◌, ◌⊎◌};
ghost use Rattle.ipam_shared.specs.Passes.{IsNewlyKept};
ghost use Rattle.ipam_daemon.specs.Opening.{IsEnd};
ghost use Rattle.ipam_daemon.specs.Served.{FindsAlarm, ListenFaults, FindsAlarmAtEnd};

use crate::alarm::Alarm;
use crate::channel::TakingEnd;
use crate::handing::Watches;
use crate::host::Host;
use crate::leaving::LeavingEnd;
use crate::opening::open_kept;
use crate::served::Served;
use crate::staff::engage;
use ipam_serve::Opening;
use ipam_shared::{Keeper, Kept};
use ipam_socket::{Connection, Failed, Limits, Listens};
use std::alloc::{AllocError, Global};

/// Opens the keeper's rows and serves sessions of this opening, by up to so many workers, over the connections that the
/// listener accepts, within these limits. It ends where the rows are not opened or listening fails, and at once where a
/// session ended since the keeper failed to make sure of what it did, once the try to accept a connection is over. Else
/// it goes on as long as connections can be accepted, now or later.
/// Sessions that are served by then are left to end with the process. The listener is closed at the end.
///
/// Where its rows are not opened, the keeper comes back. It ends with a fault of listening exactly where the listener
/// failed. After the rows were opened it ends by the keeper exactly where the watch, which is to be that of this alarm,
/// found the alarm raised.
#[tactic(auto, using(crate::proofs::Ended::served_out, crate::proofs::Ended::unopened))]
pub fn serve<R: Host, D: Keeper + Send + Drop + 'static, L: Listens<Connection>, A: Watches>(
    rt: R,
    alloc: Global,
    keeper: D,
    opening: Opening,
    listener: &mut L,
    workers: u8,
    limits: Limits,
    alarm: Alarm,
    watch: &mut A,
) -> (Served, Option<D>)
    ensures ended { IsEnd D.rows D.faults D.name keeper result.0 result.1 }
    ensures listening { ListenFaults result.0 (L.faults listener.old) (L.faults listener.new) }
    ensures alarmed { FindsAlarm result.1 result.0 (A.found watch.old) (A.found watch.new) }
{
    let kept = match open_kept(alloc, keeper) {
        Ok(kept) => kept,
        Err((keeper, served)) => return (served, Some(keeper)),
    };
    match listener.open() {
        Ok(()) => {
            let served = serve_at(
                rt, alloc, kept, opening, listener, workers, limits, alarm, watch,
            );
            listener.close();
            (served, None)
        }
        Err(Failed) => {
            drop(kept);
            (Served::ListenFault, None)
        }
    }
}

/// Serves sessions at the listener.
fn serve_at<R: Host, D: Keeper + Send + Drop + 'static, L: Listens<Connection>, A: Watches>(
    rt: R,
    alloc: Global,
    kept: Kept<D>,
    opening: Opening,
    listener: &mut L,
    workers: u8,
    limits: Limits,
    alarm: Alarm,
    watch: &mut A,
) -> Served
    requires { IsNewlyKept D.rows D.settled kept }
    ensures ended { (result ≡ Served.NoMemory) ⊎ (result ≡ Served.ListenFault) ⊎ (result ≡ Served.KeeperFault) }
    ensures listening { ListenFaults result (L.faults listener.old) (L.faults listener.new) }
    ensures alarmed { FindsAlarmAtEnd result (A.found watch.old) (A.found watch.new) }
{
    let Ok((leaving, mut left)) = leaving_at(alloc, listener) else {
        drop((kept, opening));
        return Served::NoMemory;
    };
    match engage(rt, alloc, kept, opening, workers, limits, alarm, leaving) {
        Ok(mut staff) => match staff.accept_all(&rt, listener, &mut left, watch) {
            Ok(()) => Served::KeeperFault,
            Err(Failed) => Served::ListenFault,
        },
        Err(_) => Served::NoMemory,
    }
}

/// What connections are left by that the listener accepted, and where they are taken from to be kept.
fn leaving_at<L: Listens<Connection>>(
    alloc: Global,
    listener: &L,
) -> Result<(LeavingEnd<Connection>, TakingEnd<Connection>), AllocError> {
    let bell = listener.bell()?;
    LeavingEnd::new(alloc, bell)
}
