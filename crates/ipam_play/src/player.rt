//! Scripts are played line by line.
ghost use Rattle.std.specs.Prelude.{◌≡◌, ◌≢◌, ◌++◌, ◌⊎◌, [], ℕ, List, Err, OnErr, IfOk, IfErr, IsOk, Some};
ghost use Rattle.ipam_records.specs.Datastore.{Datastore};
ghost use Rattle.ipam_model.specs.declared.entry.Entry.{Entry};
ghost use Rattle.ipam_play.specs.Script.{Gathered, nothing_gathered, place_of, events_of};
ghost use Rattle.ipam_play.specs.SoundLine.{IsSoundLine};
ghost use Rattle.ipam_play.specs.Gathering.{Gathers};
ghost use Rattle.ipam_play.specs.Played.{base_of};
ghost use Rattle.ipam_play.specs.Player.{IsBaseOpened, IsNotOpened, IsBegunWith, IsCauseAtFirst};
ghost use Rattle.ipam_cluster.specs.Cluster.{StandsFor};
ghost use Rattle.ipam_play.specs.Times.{StandsTimed};
ghost use Rattle.ipam_model.specs.Course.{Event};

use crate::cluster::OpenCluster;
use crate::fault::PlayFault;
use crate::gathering::{Counter, Gathering};
use crate::opener::{OpensBase, PlaysFirst};
use crate::playing::play_line;
use ipam_answer_text::Line;
use ipam_cluster::OpenFault;
use ipam_model::Entry;
use std::alloc::Global;
use std::collections::BTreeMap;

/// How far a script has come.
#[derive(Drop)]
pub(crate) enum Stage {
    /// The rows of its base are gathered.
    Gathering(Gathering),
    /// Its base was opened.
    Playing(OpenCluster),
}

/// A script as far as it was played, with a journal of what happened.
#[derive(Drop)]
pub struct Player {
    stage: Stage,
    journal: Vec<Entry>,
}

impl Player {
    ghost use Rattle.ipam_play.specs.Player.{IsGathering, IsPlaying, IsStanding, IsGatheredLine, IsPlayedLine, IsFinished, journal_of};

    /// A script of which no line was played.
    pub fn new(alloc: Global) -> Player
        ensures gathering { IsGathering result nothing_gathered }
        ensures standing { IsStanding result }
    {
        Player {
            stage: Stage::Gathering(Gathering {
                rows: BTreeMap::new(alloc),
                counter: 0,
                from: Counter::Greatest,
            }),
            journal: Vec::new(alloc),
        }
    }

    /// Plays the line. The base is opened at the first line that is not of the base.
    ///
    /// Where a `Turn` does not make all of its calls, those that it made stay. On any other `Err`
    /// nothing changes.
    ///
    /// Once the base is open, `Memory` is returned only for an event that is not refused. `Busy`, `Idle`,
    /// `Waiting`, `NotWaiting`, `TooSoon` and `Worn` take no memory, and a counter takes none. The line that
    /// opens the base may always be answered `Memory`, since opening takes memory before it knows a cause.
    pub fn step(&mut self, alloc: Global, line: &Line) -> Result<(), PlayFault>
        requires sound { IsSoundLine line.now }
        requires standing { IsStanding self.old }
        ensures standing { IsStanding self.new }
        ensures gathered { (base : Gathered) → IsGathering self.old base
            → IsGatheredLine result self.new base (place_of base line.now) }
        ensures played { (base : Gathered) (store : Datastore) (past : List Entry) → IsPlaying self.old base store past
            → IsPlayedLine result self.old self.new store past (events_of line.now) }
        ensures playing { (base : Gathered) (store : Datastore) (past : List Entry) → IsPlaying self.old base store past
            → IsPlaying self.new base store past }
        ensures counter { (counter : ℕ) → line.now ≡ Line.Counter counter → result ≢ Err PlayFault.Memory }
    {
        match &mut self.stage {
            Stage::Gathering(gathering) => match line {
                Line::Row(row) => gathering.add(alloc, row),
                Line::Counter(counter) => gathering.set_counter(*counter),
                _ => {
                    let cluster = first_line(alloc, gathering, &mut self.journal, line)?;
                    self.stage = Stage::Playing(cluster);
                    Ok(())
                }
            },
            Stage::Playing(cluster) => play_line(alloc, cluster, &mut self.journal, line),
        }
    }

    /// What happened, the oldest first, but for what was forgotten.
    pub fn journal(&self) -> &[Entry]
        ensures { result.now ≡ journal_of self.now }
    {
        self.journal.as_slice()
    }

    /// Forgets the journal.
    pub fn forget(&mut self)
        ensures journal { journal_of self.new ≡ [] }
        ensures standing { IsStanding self.old → IsStanding self.new }
        ensures gathering { (base : Gathered) → IsGathering self.old base → IsGathering self.new base }
        ensures playing { (base : Gathered) (store : Datastore) (past : List Entry) → IsPlaying self.old base store past
            → IsPlaying self.new base store (past ++ journal_of self.old) }
    {
        self.journal.clear();
    }

    /// The script ends: the base is opened, where no line did so.
    pub fn finish(&mut self, alloc: Global) -> Result<(), PlayFault>
        ensures standing { IsStanding self.old → IsStanding self.new }
        ensures gathered { (base : Gathered) → IsGathering self.old base → IsFinished result self.new base }
        ensures played { (base : Gathered) (store : Datastore) (past : List Entry) → IsPlaying self.old base store past
            → IsOk result }
        ensures playing { (base : Gathered) (store : Datastore) (past : List Entry) → IsPlaying self.old base store past
            → IsPlaying self.new base store past }
        ensures journal { journal_of self.new ≡ journal_of self.old }
    {
        self.finish_by(alloc)
    }

    /// The script ends. `Memory` is returned only where the base or its opening found none.
    fn finish_by<T: OpensBase + Drop>(&mut self, alloc: T) -> Result<(), PlayFault>
        ensures standing { IsStanding self.old → IsStanding self.new }
        ensures gathered { (base : Gathered) → IsGathering self.old base → IsFinished result self.new base }
        ensures played { (base : Gathered) (store : Datastore) (past : List Entry) → IsPlaying self.old base store past
            → IsOk result }
        ensures playing { (base : Gathered) (store : Datastore) (past : List Entry) → IsPlaying self.old base store past
            → IsPlaying self.new base store past }
        ensures journal { journal_of self.new ≡ journal_of self.old }
        ensures want_of_memory_has_its_cause { IfErr result (λ told. told ≡ PlayFault.Memory → T.wants alloc) }
    {
        match &self.stage {
            Stage::Gathering(gathering) => {
                let cluster = opened(alloc, gathering)?;
                self.stage = Stage::Playing(cluster);
                Ok(())
            }
            Stage::Playing(_) => Ok(()),
        }
    }
}

/// Opens the base that was gathered. `Memory` is returned only where the base or its opening found none: a base
/// that breaks a rule gives `Open`, with the rule and the key.
fn opened<T: OpensBase + Drop>(alloc: T, gathering: &Gathering) -> Result<OpenCluster, PlayFault>
    ensures opens { (base : Gathered) → Gathers gathering.now base → IfOk result (λ opened. (store : Datastore)
        × IsBaseOpened base store × StandsFor opened.cluster (base_of store) []) }
    ensures fault { (base : Gathered) → Gathers gathering.now base → IfErr result (λ told.
        (told ≡ PlayFault.Memory) ⊎ IsNotOpened base told) }
    ensures standing { IfOk result StandsTimed }
    ensures want_of_memory_has_its_cause { IfErr result (λ told. told ≡ PlayFault.Memory → T.wants alloc) }
{
    let Ok(base) = alloc.base(gathering) else {
        return Err(PlayFault::Memory);
    };
    match alloc.open(&base) {
        Ok(cluster) => Ok(cluster),
        Err(OpenFault::Refused(rule, about)) => Err(PlayFault::Open(rule, about)),
        Err(OpenFault::Memory) => Err(PlayFault::Memory),
    }
}

/// Opens the base, and plays the first line after it. On `Err` nothing changes. `Memory` is returned only where
/// opening the base found none, or playing the line.
fn first_line<T: OpensBase + PlaysFirst + Copy + Drop>(
    alloc: T,
    gathering: &Gathering,
    journal: &mut Vec<Entry>,
    line: &Line,
) -> Result<OpenCluster, PlayFault>
    requires { IsSoundLine line.now }
    ensures begun { (base : Gathered) (events : List Event) → Gathers gathering.now base → events_of line.now ≡ Some events
        → IfOk result (λ opened. IsBegunWith opened journal.old.items journal.new.items base events) }
    ensures cause { (base : Gathered) (events : List Event) → Gathers gathering.now base → events_of line.now ≡ Some events
        → IfErr result (IsCauseAtFirst base events) }
    ensures standing { IfOk result StandsTimed }
    ensures kept { (base : Gathered) → Gathers gathering.now base → OnErr result (journal.new.items ≡ journal.old.items) }
    ensures want_of_memory_has_its_cause { IfErr result (λ told. told ≡ PlayFault.Memory
        → T.OpensBase.wants alloc ⊎ T.PlaysFirst.wants alloc) }
{
    match opened(alloc, gathering) {
        Ok(cluster) => alloc.play_first(cluster, journal, line),
        Err(fault) => Err(fault),
    }
}
