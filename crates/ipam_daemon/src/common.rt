//! What workers have in common.
ghost use Rattle.std.specs.Prelude.{◌≡◌, IfOk};
ghost use Rattle.std.specs.Arc.{arc_value};

use crate::alarm::Alarm;
use crate::leaving::LeavingEnd;
use crate::notes::Notes;
use ipam_serve::{Opening, Queue};
use ipam_socket::Connection;
use std::alloc::{AllocError, Global};
use std::sync::Arc;

/// What sessions are served over, their opening, the queue of their requests, and the alarm, the notes and what
/// connections are left by, which each worker has a part of.
#[derive(Drop)]
pub(crate) struct Common<S> {
    pub(crate) shared: Arc<S, Global>,
    pub(crate) opening: Arc<Opening, Global>,
    pub(crate) queue: Arc<Queue, Global>,
    pub(crate) alarm: Alarm,
    pub(crate) notes: Notes,
    pub(crate) leaving: LeavingEnd<Connection>,
}

impl<S: Drop> Common<S> {
    /// What has this in common, with a queue in which nobody waits.
    pub(crate) fn of(
        alloc: Global,
        shared: S,
        opening: Opening,
        alarm: Alarm,
        notes: Notes,
        leaving: LeavingEnd<Connection>,
    ) -> Result<Common<S>, AllocError>
        ensures { IfOk result (λ common. arc_value common.shared ≡ shared) }
    {
        Ok(Common {
            shared: Arc::new(alloc, shared)?,
            opening: Arc::new(alloc, opening)?,
            queue: Arc::new(alloc, Queue::new())?,
            alarm,
            notes,
            leaving,
        })
    }

    /// A further handle to what the workers share. Fails with `AllocError`.
    pub(crate) fn another(&self) -> Result<Common<S>, AllocError>
        ensures { IfOk result (λ other. arc_value other.shared ≡ arc_value self.now.shared) }
    {
        Ok(Common {
            shared: Arc::try_clone(&self.shared)?,
            opening: Arc::try_clone(&self.opening)?,
            queue: Arc::try_clone(&self.queue)?,
            alarm: self.alarm.another()?,
            notes: self.notes.another()?,
            leaving: self.leaving.another()?,
        })
    }
}
