//! The keeper over a file that is opened by the first call that needs it.
ghost use Rattle.std.specs.Prelude.{◌≡◌, ◌≤◌, ◌↔◌, None, Err, IfOk};
ghost use Rattle.ipam_io.specs.Counts.{next_count};
ghost use Rattle.ipam_keeper.specs.Rows.{Ascend};
ghost use Rattle.ipam_keeper.specs.Keeping.{OnFailed, OnMemory, UnlessFailed, StaysBroken};
ghost use Rattle.ipam_sqlite.specs.Refused.{IsRefused, AnswersRefused};

use crate::copied::load_copy;
use crate::fault::{StorageFault, Trouble};
use crate::opening::Aim;
use crate::place::{Place, Waiting, open_in_turn};
use crate::table::{Ask, Ending, SqliteTable};
use crate::tally::Tally;
use ipam_keeper::{KeepFault, Keeper, Row};
use ipam_text::Text;
use sqlite::{File, FileStore};
use std::mem;

/// Whether a file is open. It is let go by `end` alone.
///
/// The proof of a function that calls one written for any store goes through the whole store of files, and takes
/// half a minute. Only `FileKeeper::answer`, `SqliteTable::end`, `connect` and `load_copy` do.
enum State {
    Closed,
    Open(SqliteTable<FileStore<File>>),
    /// The files may only be read, so each load reads a copy of them in memory.
    Copied,
    /// Each call fails.
    Refused(StorageFault),
}

impl State {
    /// Closes the file and its log, where they are open.
    fn end(self, ending: Ending) -> Result<(), Trouble> {
        match self {
            State::Open(opened) => opened.end(ending),
            State::Closed | State::Copied | State::Refused(_) => Ok(()),
        }
    }
}

/// A keeper as `SqliteKeeper`, whose file the first load, put or removal opens. It does not tell its
/// rows, and puts each change on the disk at once, so that a settling has nothing to do.
///
/// Where a call finds no memory to open the file, it answers `Memory`, and the next one tries again.
/// Where the opening fails otherwise, or the file or its log is gone or cut, that call and all later ones
/// count a fault and answer `Failed`, and `why` tells the cause. A keeper that is dropped leaves the log as
/// it is: the first change of a later one folds it into the file once it is long.
pub struct FileKeeper {
    rt: HostRuntime,
    path: Option<Text>,
    aim: Aim,
    waiting: Waiting,
    state: State,
    /// The turn at the file, for as long as that is open.
    turn: Place,
    tally: Tally,
}

impl Drop for FileKeeper {
    fn drop(self) {
        let FileKeeper {
            rt: _,
            path: _,
            aim: _,
            waiting: _,
            state,
            turn,
            tally: Tally { faults: _, why: _ },
        } = self;
        let _ = state.end(Ending::Leave);
        drop(turn);
    }
}

impl FileKeeper {
    /// A keeper over the file at this path, which is made with the mode 0640 and its table where it is
    /// not there.
    pub fn new(rt: &HostRuntime, path: &str) -> FileKeeper
        ensures { result.tally.faults ≡ 0 }
    {
        FileKeeper {
            rt: *rt,
            path: Text::copied(rt.alloc(), path).ok(),
            aim: Aim::KeepAtOnce,
            waiting: Waiting::Never,
            state: State::Closed,
            turn: Place::none(),
            tally: Tally {
                faults: 0,
                why: None,
            },
        }
    }

    /// A keeper for a caller that only looks: a file that is not there is read as no rows, and is not
    /// made, and so is one whose making was stopped. There a put and a removal fail. A file that may only be
    /// read is read too, by a copy of it and its log in memory, which takes twice their size.
    pub fn reader(rt: &HostRuntime, path: &str) -> FileKeeper
        ensures { result.tally.faults ≡ 0 }
    {
        let mut keeper = FileKeeper::new(rt, path);
        keeper.aim = Aim::Look;
        keeper
    }

    /// Sets how the keeper waits for its file.
    pub fn waiting(self, waiting: Waiting) -> FileKeeper
        ensures { result.tally ≡ self.tally }
    {
        let mut keeper = self;
        keeper.waiting = waiting;
        keeper
    }

    /// Why the last call that failed did so. No contract speaks of it.
    pub fn why(&self) -> Option<StorageFault> {
        self.tally.why
    }

    /// Folds the log into the file and closes both. The next call opens them again. After a change that failed
    /// the log is left as it is, and this fails too.
    pub fn close(&mut self) -> Result<(), KeepFault>
        ensures fault { OnFailed result (self.new.tally.faults ≡ next_count self.old.tally.faults) }
        ensures no_fault { UnlessFailed result (self.new.tally.faults ≡ self.old.tally.faults) }
    {
        let answer = match &self.state {
            State::Refused(fault) => Err(Trouble::Fault(*fault)),
            _ => self.enter(State::Closed, Ending::Fold),
        };
        self.turn = Place::none();
        self.tally.counted(answer)
    }

    /// Opens the file, unless it is open. Where it stays closed, the turn is given back, so that a later opening does
    /// not wait for the turn of this very keeper.
    fn ready(&mut self) -> Result<(), Trouble>
        ensures refused { IsRefused self.old.state → AnswersRefused result self.new.state }
        ensures tally { self.new.tally ≡ self.old.tally }
    {
        match &self.state {
            State::Open(_) | State::Copied => return Ok(()),
            State::Refused(fault) => return Err(Trouble::Fault(*fault)),
            State::Closed => {}
        }
        let Some(path) = &self.path else {
            return Err(Trouble::Memory);
        };
        let (opened, turn) = open_in_turn(&self.rt, path.as_str(), self.aim, self.waiting);
        match opened {
            Ok(Some(opened)) => {
                self.turn = turn;
                self.enter(State::Open(opened), Ending::Leave)
            }
            Ok(None) => Ok(()),
            Err(Trouble::Fault(StorageFault::NoPermission)) if matches!(self.aim, Aim::Look) => {
                self.enter(State::Copied, Ending::Leave)
            }
            Err(Trouble::Memory) => Err(Trouble::Memory),
            Err(Trouble::Fault(fault)) => {
                let _ = self.enter(State::Refused(fault), Ending::Leave);
                Err(Trouble::Fault(fault))
            }
        }
    }

    /// Takes this state, and ends the one before so.
    fn enter(&mut self, state: State, ending: Ending) -> Result<(), Trouble>
        ensures state { self.new.state ≡ state }
        ensures tally { self.new.tally ≡ self.old.tally }
    {
        mem::replace(&mut self.state, state).end(ending)
    }

    /// What the file answers, once it is open. Where a reader found none, there are no rows, and no change is
    /// made.
    fn answer(&mut self, ask: Ask<'_>) -> Result<Vec<Row>, Trouble>
        ensures ascending { IfOk result (λ loaded. Ascend loaded.items) }
        ensures refused { IsRefused self.old.state → AnswersRefused result self.new.state }
        ensures tally { self.new.tally ≡ self.old.tally }
    {
        self.ready()?;
        match (&mut self.state, ask) {
            (State::Open(opened), _) => opened.answer(ask),
            (State::Copied, Ask::Load) => self.copied(),
            (State::Copied, Ask::Put(..) | Ask::Remove(_)) => Err(Trouble::Fault(
                StorageFault::NoPermission,
            )),
            (_, Ask::Load) => Ok(Vec::new(self.rt.alloc())),
            (_, Ask::Put(..) | Ask::Remove(_)) => Err(Trouble::Fault(StorageFault::NoFile)),
        }
    }

    /// The rows of a copy of the files.
    fn copied(&self) -> Result<Vec<Row>, Trouble>
        ensures { IfOk result (λ loaded. Ascend loaded.items) }
    {
        match &self.path {
            Some(path) => load_copy(&self.rt, path.as_str()),
            None => Err(Trouble::Memory),
        }
    }

    /// Makes a change. Where the files are gone or cut, they are let go, and no later call does anything.
    fn change(&mut self, change: Ask<'_>) -> Result<(), KeepFault>
        ensures refused { StaysBroken (IsRefused self.old.state) result (IsRefused self.new.state) }
        ensures fault { OnFailed result (self.new.tally.faults ≡ next_count self.old.tally.faults) }
        ensures no_fault { UnlessFailed result (self.new.tally.faults ≡ self.old.tally.faults) }
        ensures never_falls { self.old.tally.faults ≤ self.new.tally.faults }
    {
        let answer = match self.answer(change) {
            Ok(_) => Ok(()),
            Err(trouble) => Err(trouble),
        };
        if let Err(
            Trouble::Fault(fault @ (StorageFault::FileGone | StorageFault::LogCut)),
        ) = answer
        {
            let _ = self.enter(State::Refused(fault), Ending::Leave);
            self.turn = Place::none();
        }
        self.tally.counted(answer)
    }
}

impl Keeper for FileKeeper {
    ghost rows = { λ _. None };

    ghost settled = { λ _. None };

    ghost broken = { λ keeper. IsRefused keeper.state };

    ghost faults = { λ keeper. keeper.tally.faults };

    ghost name = { λ _. 0 };

    ghost given = { λ before change after. Unit {0} };

    fn load(&mut self) -> Result<Vec<Row>, KeepFault>
        ensures refused { StaysBroken (IsRefused self.old.state) result (IsRefused self.new.state) }
        ensures ascending { IfOk result (λ loaded. Ascend loaded.items) }
        ensures fault { OnFailed result (self.new.tally.faults ≡ next_count self.old.tally.faults) }
        ensures no_fault { UnlessFailed result (self.new.tally.faults ≡ self.old.tally.faults) }
        ensures never_falls { self.old.tally.faults ≤ self.new.tally.faults }
    {
        let answer = self.answer(Ask::Load);
        self.tally.counted(answer)
    }

    fn put(&mut self, key: &str, revision: u64, body: &str) -> Result<(), KeepFault>
        ensures refused { StaysBroken (IsRefused self.old.state) result (IsRefused self.new.state) }
        ensures fault { OnFailed result (self.new.tally.faults ≡ next_count self.old.tally.faults) }
        ensures no_fault { UnlessFailed result (self.new.tally.faults ≡ self.old.tally.faults) }
        ensures never_falls { self.old.tally.faults ≤ self.new.tally.faults }
    {
        self.change(Ask::Put(key, revision, body))
    }

    fn remove(&mut self, key: &str) -> Result<(), KeepFault>
        ensures refused { StaysBroken (IsRefused self.old.state) result (IsRefused self.new.state) }
        ensures fault { OnFailed result (self.new.tally.faults ≡ next_count self.old.tally.faults) }
        ensures no_fault { UnlessFailed result (self.new.tally.faults ≡ self.old.tally.faults) }
        ensures never_falls { self.old.tally.faults ≤ self.new.tally.faults }
    {
        self.change(Ask::Remove(key))
    }

    fn settle(&mut self) -> Result<(), KeepFault>
        ensures state { self.new.state ≡ self.old.state }
        ensures refused { (result ≡ Err KeepFault.Failed) ↔ IsRefused self.old.state }
        ensures takes_no_memory { OnMemory result ⊥ }
        ensures fault { OnFailed result (self.new.tally.faults ≡ next_count self.old.tally.faults) }
        ensures no_fault { UnlessFailed result (self.new.tally.faults ≡ self.old.tally.faults) }
        ensures never_falls { self.old.tally.faults ≤ self.new.tally.faults }
    {
        let answer = match &self.state {
            State::Refused(fault) => Err(Trouble::Fault(*fault)),
            State::Closed | State::Open(_) | State::Copied => Ok(()),
        };
        self.tally.counted(answer)
    }
}

/// Opens the file, folds its log into it and closes both. Where there is no file it does nothing.
pub fn fold_log(rt: &HostRuntime, path: &str) -> Result<(), StorageFault> {
    let mut keeper = FileKeeper::reader(rt, path);
    match keeper.ready() {
        Ok(()) => {}
        Err(Trouble::Memory) => return Ok(()),
        Err(Trouble::Fault(fault)) => return Err(fault),
    }
    match keeper.enter(State::Closed, Ending::Fold) {
        Err(Trouble::Fault(fault)) => Err(fault),
        _ => Ok(()),
    }
}
