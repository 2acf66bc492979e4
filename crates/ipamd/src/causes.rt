//! A keeper that leaves the cause of its last failure to who gave it away.
ghost use Rattle.std.specs.Prelude.{◌≡◌};

use ipam_keeper::{KeepFault, Keeper, Row};
use ipam_sqlite::{SqliteKeeper, StorageFault};
use sqlite::Alter;
use std::alloc::{AllocError, Global};
use std::sync::{Arc, Mutex};

/// Who knows why the last call of a keeper that failed did so.
pub(crate) trait Explains {
    /// The cause, where a call failed.
    fn why(&self) -> Option<StorageFault>;
}

impl<S: Alter + Drop> Explains for SqliteKeeper<S> {
    fn why(&self) -> Option<StorageFault> {
        SqliteKeeper::why(self)
    }
}

/// A place for a cause, which two have.
#[derive(Drop)]
pub(crate) struct Cause {
    last: Arc<Mutex<Option<StorageFault>>, Global>,
}

impl Cause {
    /// A place for no cause yet.
    fn new(alloc: Global) -> Result<Cause, AllocError> {
        Ok(Cause {
            last: Arc::new(alloc, Mutex::new(None))?,
        })
    }

    /// A further handle to this place. Fails with `AllocError`.
    fn another(&self) -> Result<Cause, AllocError> {
        Ok(Cause {
            last: Arc::try_clone(&self.last)?,
        })
    }

    /// The cause that was left here last.
    pub(crate) fn last(&self) -> Option<StorageFault> {
        let last = self.last.try_lock()?;
        *last
    }

    /// Leaves a cause here. Where another thread looks at the cause in this very moment, it is not left.
    fn leave(&self, cause: Option<StorageFault>) {
        if let Some(mut last) = self.last.try_lock() {
            *last = cause;
        }
    }
}

/// A keeper that leaves the cause of each failure.
#[derive(Drop)]
pub(crate) struct Noting<K> {
    keeper: K,
    cause: Cause,
}

impl<K: Keeper + Explains + Drop> Noting<K> {
    /// The keeper, and where it leaves its causes.
    pub(crate) fn of(alloc: Global, keeper: K) -> Result<(Noting<K>, Cause), AllocError> {
        let cause = Cause::new(alloc)?;
        cause.leave(keeper.why());
        let noting = Noting {
            keeper,
            cause: cause.another()?,
        };
        Ok((noting, cause))
    }

    /// Leaves the cause, where the call failed.
    fn noted<T>(&self, answer: Result<T, KeepFault>) -> Result<T, KeepFault>
        ensures { result ≡ answer }
    {
        if let Err(KeepFault::Failed) = &answer {
            self.cause.leave(self.keeper.why());
        }
        answer
    }
}

impl<K: Keeper + Explains + Drop> Keeper for Noting<K> {
    ghost rows = { λ noting. K.rows noting.keeper };

    ghost settled = { λ noting. K.settled noting.keeper };

    ghost broken = { λ noting. K.broken noting.keeper };

    ghost faults = { λ noting. K.faults noting.keeper };

    ghost name = { λ noting. K.name noting.keeper };

    ghost given = { λ before change after. K.given before.keeper change after.keeper };

    fn load(&mut self) -> Result<Vec<Row>, KeepFault> {
        let answer = self.keeper.load();
        self.noted(answer)
    }

    fn put(&mut self, key: &str, revision: u64, body: &str) -> Result<(), KeepFault> {
        let answer = self.keeper.put(key, revision, body);
        self.noted(answer)
    }

    fn remove(&mut self, key: &str) -> Result<(), KeepFault> {
        let answer = self.keeper.remove(key);
        self.noted(answer)
    }

    fn settle(&mut self) -> Result<(), KeepFault> {
        let answer = self.keeper.settle();
        self.noted(answer)
    }
}
