//! What takes the memory for opening a script's base.
ghost use Rattle.std.specs.Prelude.{◌≡◌, [], List, Err, IfOk, IfErr, OnErr, Some};
ghost use Rattle.ipam_records.specs.Datastore.{Datastore};
ghost use Rattle.ipam_model.specs.Course.{Event};
ghost use Rattle.ipam_model.specs.Opened.{AreByKey, OpensAs};
ghost use Rattle.ipam_opening.specs.Opening.{IsFaultOf};
ghost use Rattle.ipam_cluster.specs.Cluster.{StandsFor};
ghost use Rattle.ipam_cluster.specs.Turns.{texts_in};
ghost use Rattle.ipam_play.specs.Gathering.{Gathers};
ghost use Rattle.ipam_play.specs.Played.{AreTextsOfBase, base_of};
ghost use Rattle.ipam_play.specs.Player.{IsBegunWith, IsCauseOnceOpened, IsBaseOpened};
ghost use Rattle.ipam_play.specs.Script.{Gathered, events_of};
ghost use Rattle.ipam_play.specs.SoundLine.{IsSoundLine};
ghost use Rattle.ipam_play.specs.Times.{IsTimed, StandsTimed};

use crate::cluster::OpenCluster;
use crate::fault::PlayFault;
use crate::gathering::Gathering;
use crate::playing::play_line;
use ipam_answer_text::Line;
use ipam_cluster::{Base, Cluster, OpenFault};
use ipam_model::{Entry, SLOTS};
use std::alloc::{AllocError, Global};

/// What takes the memory for opening a base. What is generic over it knows nothing of it, and so can't state by
/// itself that it found none.
pub(crate) trait OpensBase {
    /// It found no memory.
    ghost wants: { Self → Type 0 };

    /// The base as far as it is known, its rows by ascending key.
    fn base(&self, gathering: &Gathering) -> Result<Base, AllocError>
        ensures texts { (gathered : Gathered) → Gathers gathering.now gathered → IfOk result
            (λ base. AreTextsOfBase (texts_in base) gathered) }
        ensures by_key { IfOk result (λ base. AreByKey base.rows.items) }
        ensures first { IfOk result (λ base. base.first ≡ 0) }
        ensures wants { OnErr result (wants self.now) };

    /// Opens the rows. No entry was made before.
    fn open(&self, base: &Base) -> Result<OpenCluster, OpenFault>
        requires by_key { AreByKey base.now.rows.items }
        requires first { base.now.first ≡ 0 }
        ensures opened { IfOk result (λ opened. (store : Datastore) × OpensAs (texts_in base.now) store
            × StandsFor opened.cluster (base_of store) []) }
        ensures timed { IfOk result IsTimed }
        ensures refused { IfErr result (IsFaultOf (texts_in base.now)) }
        ensures wants { result ≡ Err OpenFault.Memory → wants self.now };
}

impl OpensBase for Global {
    ghost wants = { λ _. Unit {0} };

    fn base(&self, gathering: &Gathering) -> Result<Base, AllocError> {
        Ok(Base {
            rows: gathering.listed(*self)?,
            counter: gathering.counter,
            first: 0,
        })
    }

    fn open(&self, base: &Base) -> Result<OpenCluster, OpenFault> {
        let cluster = Cluster::open(*self, base)?;
        Ok(OpenCluster {
            cluster,
            at: [0; SLOTS],
            grace: [0; SLOTS],
        })
    }
}

/// What takes the memory for the first line after the base. What is generic over it knows nothing of it, and so
/// can't state by itself that it found none.
pub(crate) trait PlaysFirst {
    /// It found no memory.
    ghost wants: { Self → Type 0 };

    /// Plays the first line after the base, over what was opened. On `Err` nothing changes.
    fn play_first(
        &self,
        cluster: OpenCluster,
        journal: &mut Vec<Entry>,
        line: &Line,
    ) -> Result<OpenCluster, PlayFault>
        requires sound { IsSoundLine line.now }
        requires standing { StandsTimed cluster }
        ensures begun { (base : Gathered) (store : Datastore) (events : List Event) → IsBaseOpened base store → StandsFor cluster.cluster (base_of store) []
            → events_of line.now ≡ Some events → IfOk result (λ opened. IsBegunWith opened journal.old.items journal.new.items base events) }
        ensures cause { (base : Gathered) (store : Datastore) (events : List Event) → IsBaseOpened base store → StandsFor cluster.cluster (base_of store) []
            → events_of line.now ≡ Some events → IfErr result (IsCauseOnceOpened base store events) }
        ensures standing { IfOk result StandsTimed }
        ensures kept { (base : Gathered) (store : Datastore) → IsBaseOpened base store → StandsFor cluster.cluster (base_of store) []
            → OnErr result (journal.new.items ≡ journal.old.items) }
        ensures wants { result ≡ Err PlayFault.Memory → wants self.now };
}

impl PlaysFirst for Global {
    ghost wants = { λ _. Unit {0} };

    fn play_first(
        &self,
        cluster: OpenCluster,
        journal: &mut Vec<Entry>,
        line: &Line,
    ) -> Result<OpenCluster, PlayFault> {
        let mut cluster = cluster;
        play_line(*self, &mut cluster, journal, line)?;
        Ok(cluster)
    }
}
