ghost use Rattle.std.specs.Prelude.{◌≡◌, IfOk, Some};
ghost use Rattle.ipam_records.specs.Hearing.{MayHear};
ghost use Rattle.ipam_records.specs.Said.{said};
ghost use Rattle.ipam_records.specs.Word.{next_call as asked_for, after_reply};
ghost use Rattle.ipam_choice.specs.Viewed.{asked_of};
ghost use Rattle.ipam_model.specs.Usable.{Asked};
ghost use Rattle.ipam_assign.specs.Picked.{FitsScanned};
ghost use Rattle.ipam_assign.specs.Scanning.{scanning_at, scanned_as, learn, with_pools_read, reservations_read, affinities_listed};
ghost use Rattle.ipam_assign.specs.declared.scanning.Configured.{Configured as TheConfigured};
ghost use Rattle.ipam_assign.specs.declared.scanning.Pooled.{Pooled as ThePooled};
ghost use Rattle.ipam_assign.specs.declared.scanning.Reserving.{Reserving as TheReserving};
ghost use Rattle.ipam_assign.specs.declared.scanning.Stage.TheVariants.{ReadsConfig, ReadsPools, ReadsReservations, ListsAffinities, ListsBlocks};

use crate::reading::config_in;
use ipam_choice::{Confirmed, Known, Picked, Wanted, pick_known};
use ipam_model::Scan;
use ipam_parts::{listing_in, pools_in, reservations_in};
use ipam_pool::{PoolTable, Reserved};
use ipam_records::{Call, Config, Heard, Key, Kind};
use std::alloc::{AllocError, Global};
use std::mem;

/// The five reads of a round: the configuration, the pools and the reservations are read, and the
/// affinities and the blocks are listed.
pub struct Scanning {
    stage: Stage,
}

impl Drop for Scanning {
    fn drop(self) {
        let Scanning { stage: _ } = self;
    }
}

/// The read that is next, with what was read before.
#[derive(Drop)]
enum Stage {
    ReadsConfig,
    ReadsPools(Configured),
    ReadsReservations(Pooled),
    ListsAffinities(Reserving),
    ListsBlocks(Gathered),
}

#[derive(Clone, Copy)]
struct Configured {
    config: Config,
    c: u64,
}

#[derive(Drop)]
struct Pooled {
    configured: Configured,
    pools: PoolTable,
    p: u64,
}

#[derive(Drop)]
struct Reserving {
    pooled: Pooled,
    reserved: Reserved,
    r: u64,
}

/// Of the affinities the confirmed ones of the node are kept.
#[derive(Drop)]
struct Gathered {
    reserving: Reserving,
    confirmed: Confirmed,
    f: u64,
}

/// What a reply was about, with its moment.
#[derive(Drop)]
pub struct Learned {
    read: Read,
    moment: u64,
}

#[derive(Drop)]
enum Read {
    Config(Config),
    Pools(PoolTable),
    Reserved(Reserved),
    Confirmed(Confirmed),
}

/// Where a reply leads.
pub enum Scanned<'a> {
    Learned(Learned),
    /// The moments of the five reads, and what is picked by them.
    Chosen(Scan, Picked<'a>),
}

impl Scanning {
    /// Before the first read.
    pub fn new() -> Scanning
        ensures { result.stage ≡ ReadsConfig }
    {
        Scanning {
            stage: Stage::ReadsConfig,
        }
    }

    /// The next read.
    pub fn call(&self) -> Call
        ensures { (asked : Asked) → asked_for (scanning_at asked self.now.stage) ≡ Some result }
    {
        match &self.stage {
            Stage::ReadsConfig => Call::Get(Key::Config),
            Stage::ReadsPools(_) => Call::Get(Key::Pools),
            Stage::ReadsReservations(_) => Call::Get(Key::Reservations),
            Stage::ListsAffinities(_) => Call::List(Kind::Affinity),
            Stage::ListsBlocks(_) => Call::List(Kind::Block),
        }
    }

    /// Where the reply leads. What is picked by what a sound datastore may answer can be written.
    pub fn took<'a>(
        &self,
        alloc: Global,
        wanted: &Wanted,
        hearing: &Heard<'a>,
    ) -> Result<Scanned<'a>, AllocError>
        ensures leads { IfOk result (λ scanned. scanned_as (asked_of wanted.now) self.now.stage scanned
            ≡ after_reply (scanning_at (asked_of wanted.now) self.now.stage) hearing.now.moment (said hearing.now.reply)) }
        ensures fits { IfOk result (λ scanned.
            MayHear (scanning_at (asked_of wanted.now) self.now.stage) (said hearing.now.reply) → FitsScanned scanned) }
    {
        match &self.stage {
            Stage::ReadsConfig => Ok(Scanned::Learned(Learned::config(hearing))),
            Stage::ReadsPools(configured) => {
                let learned = configured.took(alloc, hearing)?;
                Ok(Scanned::Learned(learned))
            }
            Stage::ReadsReservations(pooled) => {
                let learned = pooled.took(alloc, hearing)?;
                Ok(Scanned::Learned(learned))
            }
            Stage::ListsAffinities(reserving) => {
                let learned = reserving.took(alloc, wanted, hearing)?;
                Ok(Scanned::Learned(learned))
            }
            Stage::ListsBlocks(gathered) => Ok(gathered.chosen(wanted, hearing)),
        }
    }

    /// Goes on with what was learned. Takes no memory.
    pub fn go(&mut self, learned: Learned)
        ensures { self.new.stage ≡ learn self.old.stage learned }
    {
        let stage = mem::replace(&mut self.stage, Stage::ReadsConfig);
        self.stage = learnt(stage, learned);
    }
}

fn learnt(stage: Stage, learned: Learned) -> Stage
    ensures { result ≡ learn stage learned }
{
    let moment = learned.moment;
    match (stage, learned.read) {
        (Stage::ReadsConfig, Read::Config(config)) => {
            Stage::ReadsPools(Configured { config, c: moment })
        }
        (Stage::ReadsPools(configured), Read::Pools(pools)) => Stage::ReadsReservations(Pooled {
            configured,
            pools,
            p: moment,
        }),
        (Stage::ReadsReservations(pooled), Read::Reserved(reserved)) => {
            Stage::ListsAffinities(Reserving {
                pooled,
                reserved,
                r: moment,
            })
        }
        (Stage::ListsAffinities(reserving), Read::Confirmed(confirmed)) => {
            Stage::ListsBlocks(Gathered {
                reserving,
                confirmed,
                f: moment,
            })
        }
        (stage, _) => stage,
    }
}

impl Learned {
    fn of(read: Read, moment: u64) -> Learned
        ensures read { result.read ≡ read }
        ensures moment { result.moment ≡ moment }
    {
        Learned { read, moment }
    }

    fn config(hearing: &Heard) -> Learned
        ensures { (asked : Asked) → scanning_at asked (learn ReadsConfig result)
            ≡ after_reply (scanning_at asked ReadsConfig) hearing.now.moment (said hearing.now.reply) }
    {
        Learned::configured(config_in(&hearing.reply), hearing.moment)
    }

    fn configured(config: Config, moment: u64) -> Learned
        ensures { learn ReadsConfig result ≡ ReadsPools (record { config = config; c = moment }) }
    {
        Learned::of(Read::Config(config), moment)
    }
}

impl Configured {
    fn took(&self, alloc: Global, hearing: &Heard) -> Result<Learned, AllocError>
        ensures { IfOk result (λ learned. (asked : Asked) → scanning_at asked (learn (ReadsPools self.now) learned)
            ≡ after_reply (with_pools_read asked self.now) hearing.now.moment (said hearing.now.reply)) }
    {
        let pools = pools_in(alloc, &hearing.reply)?;
        let learned = Learned::pools(pools, hearing.moment);
        Ok(learned)
    }
}

impl Learned {
    fn pools(pools: PoolTable, moment: u64) -> Learned
        ensures { (configured : TheConfigured) → learn (ReadsPools configured) result
            ≡ ReadsReservations (record { configured = configured; pools = pools; p = moment }) }
    {
        Learned::of(Read::Pools(pools), moment)
    }

    fn reserved(reserved: Reserved, moment: u64) -> Learned
        ensures { (pooled : ThePooled) → learn (ReadsReservations pooled) result
            ≡ ListsAffinities (record { pooled = pooled; reserved = reserved; r = moment }) }
    {
        Learned::of(Read::Reserved(reserved), moment)
    }

    fn confirmed(confirmed: Confirmed, moment: u64) -> Learned
        ensures { (reserving : TheReserving) → learn (ListsAffinities reserving) result
            ≡ ListsBlocks (record { reserving = reserving; confirmed = confirmed; f = moment }) }
    {
        Learned::of(Read::Confirmed(confirmed), moment)
    }
}

impl Pooled {
    fn took(&self, alloc: Global, hearing: &Heard) -> Result<Learned, AllocError>
        ensures { IfOk result (λ learned. (asked : Asked) → scanning_at asked (learn (ReadsReservations self.now) learned)
            ≡ after_reply (reservations_read asked self.now) hearing.now.moment (said hearing.now.reply)) }
    {
        let reserved = Reserved::of(alloc, reservations_in(&hearing.reply))?;
        let learned = Learned::reserved(reserved, hearing.moment);
        Ok(learned)
    }
}

impl Reserving {
    fn took(&self, alloc: Global, wanted: &Wanted, hearing: &Heard) -> Result<Learned, AllocError>
        ensures { IfOk result (λ learned. scanning_at (asked_of wanted.now) (learn (ListsAffinities self.now) learned)
            ≡ after_reply (affinities_listed (asked_of wanted.now) self.now) hearing.now.moment (said hearing.now.reply)) }
    {
        let listing = listing_in(&hearing.reply);
        let confirmed = Confirmed::of(alloc, wanted.node, &listing)?;
        let learned = Learned::confirmed(confirmed, hearing.moment);
        Ok(learned)
    }
}

impl Gathered {
    /// What is picked, once the blocks are listed.
    fn chosen<'a>(&self, wanted: &Wanted, hearing: &Heard<'a>) -> Scanned<'a>
        ensures leads { scanned_as (asked_of wanted.now) (ListsBlocks self.now) result
            ≡ after_reply (scanning_at (asked_of wanted.now) (ListsBlocks self.now)) hearing.now.moment (said hearing.now.reply) }
        ensures fits { MayHear (scanning_at (asked_of wanted.now) (ListsBlocks self.now)) (said hearing.now.reply) → FitsScanned result }
    {
        let reserving = &self.reserving;
        let pooled = &reserving.pooled;
        // Whose slots are blocks' CIDRs.
        let _pools = pooled.pools.pools();
        let known = Known {
            config: pooled.configured.config,
            pools: &pooled.pools,
            reserved: &reserving.reserved,
            confirmed: &self.confirmed,
            blocks: listing_in(&hearing.reply),
        };
        let scan = Scan {
            family: wanted.family,
            c: pooled.configured.c,
            p: pooled.p,
            r: reserving.r,
            f: self.f,
            b: hearing.moment,
        };
        Scanned::Chosen(scan, pick_known(wanted, &known))
    }
}
