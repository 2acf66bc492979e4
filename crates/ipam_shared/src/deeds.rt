// What a pass may do in a turn: what the kept cluster does, in the pass's slot.
ghost use Rattle.std.specs.Prelude.{[]};
ghost use Rattle.std.specs.List.{All};
ghost use Rattle.ipam_records.specs.Sound.{IsHandleId};
ghost use Rattle.ipam_model.specs.SoundRequest.{IsSoundRequest};
ghost use Rattle.ipam_shared.specs.Deeds.{told_by, told_if, Begins, Feeds, Calls, Stops, TellsRoutes, TellsChanges};
ghost use Rattle.ipam_shared.specs.Settling.{Settles};

use crate::deed::Deed;
use crate::kept::Kept;
use crate::look::Look;
use ipam_cluster::{BeginFault, FeedFault, PrepareFault};
use ipam_keeper::{KeepFault, Keeper};
use ipam_model::{Entry, Request};
use ipam_store::{Change, Route, SinceFault};
use ipam_text::Text;
use std::alloc::{AllocError as Memory, Global};

/// The request is begun.
#[derive(Drop)]
pub(crate) struct Begin<'a> {
    pub(crate) alloc: Global,
    pub(crate) request: &'a Request,
}

impl<'a, D: Keeper> Deed<D> for Begin<'a> {
    type Answer = Result<Entry, BeginFault>;

    ghost can = { λ deed. IsSoundRequest deed.request.now };

    ghost does = { λ deed slot before answer after. Begins slot before deed.request.now answer after };

    ghost told = { told_by };

    fn run(self, kept: &mut Kept<D>, slot: u8) -> Result<Entry, BeginFault> {
        kept.begin(self.alloc, slot, self.request)
    }
}

/// The collection is handed its second list, which was made at this time.
#[derive(Drop)]
pub(crate) struct Feed<'a> {
    pub(crate) alloc: Global,
    pub(crate) live: &'a [Text],
    pub(crate) at: u64,
}

impl<'a, D: Keeper> Deed<D> for Feed<'a> {
    type Answer = Result<Entry, FeedFault>;

    ghost can = { λ deed. All IsHandleId deed.live.now };

    ghost does = { λ deed slot before answer after. Feeds slot before deed.live.now deed.at answer after };

    ghost told = { told_by };

    fn run(self, kept: &mut Kept<D>, slot: u8) -> Result<Entry, FeedFault> {
        kept.feed(self.alloc, slot, self.live, self.at)
    }
}

/// The next call is made.
#[derive(Drop)]
pub(crate) struct Call {
    pub(crate) alloc: Global,
}

impl<D: Keeper> Deed<D> for Call {
    type Answer = Result<Entry, PrepareFault>;

    ghost can = { λ deed. Unit {0} };

    ghost does = { λ deed slot before answer after. Calls slot before D.given D.faults answer after };

    ghost told = { told_by };

    fn run(self, kept: &mut Kept<D>, slot: u8) -> Result<Entry, PrepareFault> {
        kept.turn(self.alloc, slot)
    }
}

/// What runs is stopped.
#[derive(Drop)]
pub(crate) struct Stop;

impl<D: Keeper> Deed<D> for Stop {
    type Answer = Option<Entry>;

    ghost can = { λ deed. Unit {0} };

    ghost does = { λ deed slot before answer after. Stops slot before answer after };

    ghost told = { told_if };

    fn run(self, kept: &mut Kept<D>, slot: u8) -> Option<Entry> {
        kept.stop(slot)
    }
}

/// The keeper makes sure of all rows, unless so many entries are sure already. It answers how many are.
#[derive(Drop)]
pub(crate) struct Settle {
    pub(crate) moment: u64,
}

impl<D: Keeper> Deed<D> for Settle {
    type Answer = Result<u64, KeepFault>;

    ghost can = { λ deed. Unit {0} };

    ghost does = { λ deed slot before answer after. Settles D.rows D.settled D.faults D.broken deed.moment before answer after };

    ghost told = { λ answer. [] };

    fn run(self, kept: &mut Kept<D>, slot: u8) -> Result<u64, KeepFault> {
        let sure = kept.settled();
        if self.moment <= sure {
            return Ok(sure);
        }
        kept.settle()?;
        Ok(kept.settled())
    }
}

/// Reads the routes.
#[derive(Drop)]
pub(crate) struct Routes;

impl<D: Keeper> Deed<D> for Routes {
    type Answer = Result<(u64, Vec<Route>), Memory>;

    ghost can = { λ deed. Unit {0} };

    ghost does = { λ deed slot before answer after. TellsRoutes D.rows before answer };

    ghost told = { λ answer. [] };

    fn run(self, kept: &mut Kept<D>, slot: u8) -> Result<(u64, Vec<Route>), Memory> {
        kept.routes()
    }
}

/// Reads what became of the routes after a revision.
#[derive(Drop)]
pub(crate) struct RoutesSince {
    pub(crate) revision: u64,
}

impl<D: Keeper> Deed<D> for RoutesSince {
    type Answer = Result<(u64, Vec<Change>), SinceFault>;

    ghost can = { λ deed. Unit {0} };

    ghost does = { λ deed slot before answer after. TellsChanges D.rows before deed.revision answer };

    ghost told = { λ answer. [] };

    fn run(self, kept: &mut Kept<D>, slot: u8) -> Result<(u64, Vec<Change>), SinceFault> {
        kept.routes_since(self.revision)
    }
}

/// The datastore is looked at.
#[derive(Drop)]
pub(crate) struct Looks<L> {
    pub(crate) look: L,
}

impl<D: Keeper, L: Look> Deed<D> for Looks<L> {
    type Answer = L::Told;

    ghost can = { λ deed. Unit {0} };

    ghost does = { λ deed slot before answer after. L.tells deed.look before.cluster.store.store answer };

    ghost told = { λ answer. [] };

    fn run(self, kept: &mut Kept<D>, slot: u8) -> L::Told {
        let Looks { look } = self;
        look.look(kept.cluster().store())
    }
}
