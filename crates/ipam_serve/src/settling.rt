//! What a session did is made sure of.
ghost use Rattle.std.specs.Prelude.{◌≡◌, ◌≢◌, ◌⊎◌, IfErr, OnOk};
ghost use Rattle.ipam_serve.specs.Gains.{Settles};
ghost use Rattle.ipam_serve.specs.Keeping.{at_keeper};
ghost use Rattle.ipam_serve.specs.Sessions.{Unsettles};
ghost use Rattle.ipam_shared.specs.Settling.{IsSure, KnowsSure, WasSettled};

use crate::ends::SessionEnd;
use crate::patience::Patience;
use ipam_shared::{KeepFault, Keeper, Pass, Shared, SharedFault};
use std::sync::Wait;

/// Makes sure of all that the pass has learned, by one turn where it doesn't know that it is sure already.
/// Those finish first that waited when the session's last request was left, so that one sync serves them all.
pub(crate) fn settle<R: Wait, D: Keeper, P: Patience>(
    rt: &R,
    shared: &Shared<D>,
    pass: &mut Pass,
    patience: &mut P,
) -> Result<(), SessionEnd>
    requires lock { pass.old.lock ≡ shared.now }
    requires sure { IsSure D.rows D.settled pass.old }
    ensures settles { Settles pass.old pass.new }
    ensures settled { OnOk result (WasSettled D.rows D.settled pass.new) }
    ensures known { OnOk result (KnowsSure pass.new) }
    ensures sure { OnOk result (IsSure D.rows D.settled pass.new) }
    ensures unsettled { IfErr result (λ how. Unsettles (at_keeper D.rows D.settled D.given D.faults D.broken) how pass.old pass.new) }
{
    if pass.is_sure() {
        return Ok(());
    }
    if pass.left() < 2 {
        return Err(SessionEnd::Worn);
    }
    patience.before_settling(rt);
    match shared.settle(rt, pass) {
        Ok(()) => Ok(()),
        Err(fault) => Err(unsettled(fault)),
    }
}

/// How a session ends where this kept it from being sure.
fn unsettled(fault: SharedFault<KeepFault>) -> SessionEnd
    requires { fault ≢ SharedFault.SpentPass }
    ensures failed { result ≡ SessionEnd.KeeperFault → fault ≡ SharedFault.Inner KeepFault.Failed }
    ensures memory { result ≡ SessionEnd.Memory → fault ≡ SharedFault.Inner KeepFault.Memory }
    ensures others { (result ≡ SessionEnd.KeeperFault) ⊎ (result ≡ SessionEnd.Memory) }
{
    match fault {
        SharedFault::SpentPass => unreachable!(),
        SharedFault::Inner(inner) => match inner {
            KeepFault::Failed => SessionEnd::KeeperFault,
            KeepFault::Memory => SessionEnd::Memory,
        },
    }
}
