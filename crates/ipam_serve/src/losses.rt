//! The races that a session loses.
use crate::patience::Patience;
use ipam_model::{CallName, Entry, Told};
use std::sync::Wait;

/// The races that were lost for one line.
#[derive(Drop)]
pub(crate) struct Losses {
    pub(crate) count: u32,
    // whether the last call was one
    pub(crate) now: bool,
}

impl Losses {
    /// Takes notice of what a turn came to.
    pub(crate) fn note(&mut self, entry: &Entry) {
        self.now = is_lost(entry);
        if self.now {
            self.count = self.count.saturating_add(1);
        }
    }

    /// Lets others finish, where the last call lost a race.
    pub(crate) fn wait<R: Wait, P: Patience>(&self, rt: &R, patience: &mut P) {
        if self.now {
            patience.wait(rt, self.count);
        }
    }
}

/// Whether it is a write that came too late.
fn is_lost(entry: &Entry) -> bool {
    let Entry::Called(called) = entry else {
        return false;
    };
    match called.call {
        CallName::Create(_) | CallName::Update(_, _) | CallName::Delete(_, _) => matches!(
            called.reply,
            Told::Exists(_) | Told::Missing | Told::Conflict(_)
        ),
        CallName::Get(_) | CallName::List(_) => false,
    }
}
