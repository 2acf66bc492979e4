//! What a CNI call frees, for lines on standard error. Where one can't be made or written, nothing else changes.
ghost use Rattle.std.specs.Prelude.{◌≡◌};

use crate::upkeep::Rows;
use ipam_keeper::{KeepFault, Keeper, Row};
use ipam_operator::{End, Target};
use ipam_sqlite::FileKeeper;
use ipam_text::Text;
use std::alloc::{AllocError, Global};

/// What stands before the id in the key of a handle's row.
const HANDLE: &str = "handle/";

/// The most handles whose ids are written.
const MOST_TOLD: usize = 32;

/// The status of a call that did what it was asked.
const DONE: u8 = 0;

/// A keeper that notes which handles are removed. It does what the keeper below it does.
#[derive(Drop)]
pub(crate) struct Freeing<K> {
    keeper: K,
    alloc: Global,
    changes: u64,
    freed: Vec<String>,
    untold: u64,
}

impl<K: Keeper> Freeing<K> {
    /// The keeper, of which no change is noted yet.
    pub(crate) fn new(alloc: Global, keeper: K) -> Freeing<K>
        ensures { result.keeper ≡ keeper }
    {
        Freeing {
            keeper,
            alloc,
            changes: 0,
            freed: Vec::new(alloc),
            untold: 0,
        }
    }

    /// The keeper below.
    pub(crate) fn keeper(&self) -> &K {
        &self.keeper
    }

    fn note_change(&mut self)
        ensures { self.new.keeper ≡ self.old.keeper }
    {
        self.changes = self.changes.saturating_add(1);
    }

    fn note_removal(&mut self, key: &str)
        ensures { self.new.keeper ≡ self.old.keeper }
    {
        self.note_change();
        let Some(handle) = key.strip_prefix(HANDLE) else {
            return;
        };
        if self.freed.len() >= MOST_TOLD || self.push(handle).is_err() {
            self.untold = self.untold.saturating_add(1);
        }
    }

    fn push(&mut self, handle: &str) -> Result<(), AllocError>
        ensures { self.new.keeper ≡ self.old.keeper }
    {
        let handle = String::from_str(self.alloc, handle)?;
        self.freed.push(handle)?;
        Ok(())
    }

    /// Tells what the call freed: a DEL only that it is nothing, and a GC the handles whose addresses it freed.
    pub(crate) fn tell(&self, rt: &HostRuntime, variables: &[(Text, Text)], status: u8) {
        if status != DONE {
            return;
        }
        let container = value_of(variables, "CNI_CONTAINERID");
        match value_of(variables, "CNI_COMMAND") {
            "DEL" if self.changes == 0 => {
                let _ = eprintln!(rt;
                    "ipam: DEL freed nothing: nothing is recorded to {container}"
                );
            }
            "GC" => self.tell_handles(rt),
            _ => {}
        }
    }

    fn tell_handles(&self, rt: &HostRuntime) {
        for handle in &self.freed {
            let handle = handle.as_str();
            let _ = eprintln!(rt; "ipam: GC freed {handle}");
        }
        let untold = self.untold;
        if untold > 0 {
            let _ = eprintln!(rt; "ipam: GC freed {untold} more");
        }
    }
}

/// The value of this variable, and the empty one where it is missing.
fn value_of<'a>(variables: &'a [(Text, Text)], name: &str) -> &'a str {
    let mut found = "";
    for (other, value) in variables {
        if other.as_str() == name {
            found = value.as_str();
        }
    }
    found
}

impl<K: Keeper> Keeper for Freeing<K> {
    ghost rows = { λ freeing. K.rows freeing.keeper };

    ghost settled = { λ freeing. K.settled freeing.keeper };

    ghost broken = { λ freeing. K.broken freeing.keeper };

    ghost faults = { λ freeing. K.faults freeing.keeper };

    ghost name = { λ freeing. K.name freeing.keeper };

    ghost given = { λ before change after. K.given before.keeper change after.keeper };

    fn load(&mut self) -> Result<Vec<Row>, KeepFault> {
        self.keeper.load()
    }

    fn put(&mut self, key: &str, revision: u64, body: &str) -> Result<(), KeepFault> {
        self.note_change();
        self.keeper.put(key, revision, body)
    }

    fn remove(&mut self, key: &str) -> Result<(), KeepFault> {
        self.note_removal(key);
        self.keeper.remove(key)
    }

    fn settle(&mut self) -> Result<(), KeepFault> {
        self.keeper.settle()
    }
}

impl Rows for Freeing<FileKeeper> {
    fn back_up<D: Target>(&mut self, rt: &HostRuntime, target: &mut D) -> End {
        self.keeper.back_up(rt, target)
    }
}
