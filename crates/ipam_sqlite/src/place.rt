//! The turn at a database file, and the hold that a daemon has on it.
ghost use Rattle.std.specs.Prelude.{◌≡◌, is_some};

use crate::fault::{StorageFault, Trouble};
use crate::names::beside;
use crate::opening::{Aim, open_database};
use crate::table::SqliteTable;
use crate::turn::{Pauses, Tries, wait_for};
use ipam_text::Text;
use sqlite::FileStore;
use std::fs::{self, File, OpenOptions, TryLockError};
use std::io::Write;
use std::os::unix::fs::OpenOptionsExt;
use std::thread;
use std::time::{Duration, Instant};

/// What the name of the file has after that of the database whose lock is the turn.
const TURN: &str = ".turn";

/// What the name of the file has after that of the database on which a daemon has a lock for as long as it has the
/// database. The daemon's address is in it.
const DAEMON: &str = ".daemon";

/// The mode of both, or less where the process's mask is stricter.
const MODE: u32 = 0o640;

/// A tick, in microseconds.
const TICK_MICROS: u64 = 100;

/// How many ticks a turn is waited for: 60 seconds.
const MOST_TICKS: u64 = 600_000;

/// After how many ticks of waiting a line on standard error says so: 2 seconds.
const TICKS_TO_TELL: u64 = 20_000;

/// How many ticks a daemon waits for its lock, which others have for no longer than a look: 1 second.
const DAEMON_TICKS: u64 = 10_000;

/// Whether a keeper waits for its turn at a file that others have.
#[derive(Clone, Copy, PartialEq, Eq)]
pub enum Waiting {
    /// It takes no turn, and is refused at once.
    Never,
    /// It waits, for 60 seconds at most.
    Silent,
    /// It waits as long, with a line on standard error after 2 seconds.
    Told,
}

/// A lock on a file beside a database: its turn, or a daemon's hold. It is given back with the value, and by the
/// system where the process ends. Where no such file can be made, nothing is locked.
#[derive(Drop)]
pub struct Place {
    file: Option<File>,
    is_had: bool,
    tries: u64,
}

impl Place {
    /// No lock.
    pub(crate) fn none() -> Place {
        Place {
            file: None,
            is_had: false,
            tries: 0,
        }
    }

    /// The lock on the file with this ending, which is not taken yet.
    fn beside(rt: &HostRuntime, path: &str, ending: &str) -> Place {
        let mut place = Place::none();
        if let Some(name) = lock_name(rt, path, ending) {
            place.file = lock_file(rt, name.as_str());
        }
        place
    }

    /// The turn at the database file, which is not taken yet. Who only looks at a file that is not there, or
    /// does not wait, goes without.
    fn at(rt: &HostRuntime, path: &str, aim: Aim, waiting: Waiting) -> Place {
        let is_needless = matches!(aim, Aim::Look) && fs::metadata(rt, path).is_err();
        if is_needless || waiting == Waiting::Never {
            return Place::none();
        }
        Place::beside(rt, path, TURN)
    }
}

/// The name of a lock file. It lies beside the database file itself, so that who names a link has the same locks.
fn lock_name(rt: &HostRuntime, path: &str, ending: &str) -> Option<Text> {
    let is_there = fs::metadata(rt, path).is_ok();
    beside(rt, path, is_there, ending).ok()
}

/// Opens a file for its lock, and makes it where it is not there. A file that may only be read can be locked, too.
fn lock_file(rt: &HostRuntime, name: &str) -> Option<File> {
    let made = OpenOptions::new()
        .read(true)
        .append(true)
        .create(true)
        .mode(MODE)
        .open(rt, name);
    match made {
        Ok(file) => Some(file),
        Err(_) => File::open(rt, name).ok(),
    }
}

impl Tries for Place {
    ghost is_done = { λ place. place.is_had };

    ghost tries = { λ place. place.tries };

    /// Takes the lock. Where the system knows none, as over some networks, one goes on without.
    fn attempt(&mut self) -> bool {
        self.tries = self.tries.saturating_add(1);
        let is_others = match &self.file {
            Some(file) => matches!(file.try_lock(), Err(TryLockError::WouldBlock)),
            None => false,
        };
        self.is_had = self.is_had || !is_others;
        self.is_had
    }
}

/// Pauses of the process. The system's clock tells how long each took, with the try before it.
#[derive(Drop)]
struct SystemPauses<'a> {
    rt: &'a HostRuntime,
    path: &'a str,
    waiting: Waiting,
    left: u64,
    latest: Option<Instant>,
    waited: u64,
}

impl<'a> SystemPauses<'a> {
    fn new(rt: &'a HostRuntime, path: &'a str, waiting: Waiting, ticks: u64) -> SystemPauses<'a> {
        SystemPauses {
            rt,
            path,
            waiting,
            left: ticks,
            latest: Instant::now(rt).ok(),
            waited: 0,
        }
    }

    /// How many ticks went by since the last time that this was asked.
    fn passed(&mut self) -> u64
        ensures { self.new.left ≡ self.old.left }
    {
        let now = Instant::now(self.rt).ok();
        let passed = match (self.latest, now) {
            (Some(latest), Some(now)) => ticks_of(now.duration_since(latest)),
            _ => 0,
        };
        self.latest = now;
        passed
    }

    /// Tells once that the process waits, where it has waited long.
    fn tell(&mut self, passed: u64)
        ensures { self.new.left ≡ self.old.left }
    {
        let waited = self.waited.saturating_add(passed);
        let is_due = self.waited < TICKS_TO_TELL && TICKS_TO_TELL <= waited;
        self.waited = waited;
        if is_due && self.waiting == Waiting::Told {
            let path = self.path;
            let _ = eprintln!(self.rt; "ipam: {path}: waiting for another process");
        }
    }
}

fn ticks_of(duration: Duration) -> u64 {
    u64::try_from(duration.as_micros() / u128::from(TICK_MICROS)).unwrap_or(u64::MAX)
}

impl Pauses for SystemPauses<'_> {
    ghost left = { λ pauses. pauses.left };

    fn left(&self) -> u64 {
        self.left
    }

    fn pause(&mut self, ticks: u64) {
        let micros = ticks.saturating_mul(TICK_MICROS);
        thread::sleep(self.rt, Duration::from_micros(micros));
        let longer = self.passed().saturating_sub(ticks);
        self.tell(ticks.saturating_add(longer));
        self.left = self.left.saturating_sub(ticks).saturating_sub(longer);
    }
}

/// What an opening comes to.
pub(crate) type Outcome = Result<Option<SqliteTable<FileStore<sqlite::File>>>, Trouble>;

/// A database that is opened once it is this process's turn.
#[derive(Drop)]
struct Opening<'a> {
    rt: &'a HostRuntime,
    path: &'a str,
    aim: Aim,
    turn: Place,
    outcome: Option<Outcome>,
    tries: u64,
}

impl Tries for Opening<'_> {
    ghost is_done = { λ opening. is_some opening.outcome };

    ghost tries = { λ opening. opening.tries };

    /// Opens the database, where its turn is had. A process that was killed may give up its turn before its file:
    /// so who has the turn and finds the file with another tries again, unless that is a daemon.
    fn attempt(&mut self) -> bool {
        self.tries = self.tries.saturating_add(1);
        if self.turn.attempt() {
            self.outcome = self.opened();
        }
        self.outcome.is_some()
    }
}

impl Opening<'_> {
    /// What opening comes to. None where it is to be tried again.
    fn opened(&self) -> Option<Outcome> {
        match open_database(self.rt, self.path, self.aim) {
            Err(Trouble::Fault(StorageFault::HeldByAnother)) => self.held(),
            outcome => Some(outcome),
        }
    }

    /// What it comes to that another process has the file.
    fn held(&self) -> Option<Outcome> {
        if has_daemon(self.rt, self.path) {
            Some(Err(Trouble::Fault(StorageFault::HeldByDaemon)))
        } else if self.turn.file.is_some() {
            None
        } else {
            Some(Err(Trouble::Fault(StorageFault::HeldByAnother)))
        }
    }
}

/// Opens the database in its turn, which is given back with the place: it has to be kept for as long as the
/// database is open.
pub(crate) fn open_in_turn(
    rt: &HostRuntime,
    path: &str,
    aim: Aim,
    waiting: Waiting,
) -> (Outcome, Place) {
    let mut opening = Opening {
        rt,
        path,
        aim,
        turn: Place::at(rt, path, aim, waiting),
        outcome: None,
        tries: 0,
    };
    let _ = wait_for(
        &mut opening,
        &mut SystemPauses::new(rt, path, waiting, MOST_TICKS),
    );
    let Opening { turn, outcome, .. } = opening;
    match outcome {
        Some(outcome) => (outcome, turn),
        None => (Err(Trouble::Fault(StorageFault::Busy)), Place::none()),
    }
}

/// Whether a daemon has the database file: it has a lock on the file beside it.
pub(crate) fn has_daemon(rt: &HostRuntime, path: &str) -> bool {
    let Some(name) = lock_name(rt, path, DAEMON) else {
        return false;
    };
    match File::open(rt, name.as_str()) {
        Ok(file) => matches!(file.try_lock_shared(), Err(TryLockError::WouldBlock)),
        Err(_) => false,
    }
}

/// Takes the hold of a daemon that has the database file, and writes its address. Where that can't be done, others
/// don't see that it is a daemon that has the file.
pub(crate) fn hold(rt: &HostRuntime, path: &str, address: &str) -> Place {
    let mut place = Place::beside(rt, path, DAEMON);
    let mut pauses = SystemPauses::new(rt, path, Waiting::Silent, DAEMON_TICKS);
    if !wait_for(&mut place, &mut pauses) {
        return Place::none();
    }
    if let Some(file) = &mut place.file {
        let _ = file.set_len(0);
        let _ = file.write_all(address.as_bytes());
    }
    place
}

/// The address of the daemon that has the database file, where it wrote one.
pub fn daemon_at(rt: &HostRuntime, path: &str) -> Option<Text> {
    let name = lock_name(rt, path, DAEMON)?;
    match fs::read_to_string(rt, name.as_str()) {
        Ok(address) if !address.is_empty() => Some(Text::of(address)),
        _ => None,
    }
}
