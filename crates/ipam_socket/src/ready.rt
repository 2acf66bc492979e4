//! The order in which connections go to workers.
use std::alloc::{AllocError, Global};
use std::collections::VecDeque;

/// The places of connections that wait for a worker. Those that are new and those that were kept have a queue each, of
/// which the fronts go by turns: so neither keep the others waiting.
#[derive(Drop)]
pub(crate) struct Ready {
    new: VecDeque<usize>,
    kept: VecDeque<usize>,
    was_new: bool,
}

impl Ready {
    /// Queues in which nobody waits, with room for so many each.
    pub(crate) fn new(alloc: Global, most: usize) -> Result<Ready, AllocError> {
        Ok(Ready {
            new: VecDeque::with_capacity(alloc, most)?,
            kept: VecDeque::with_capacity(alloc, most)?,
            was_new: false,
        })
    }

    /// How many wait.
    pub(crate) fn len(&self) -> usize {
        self.new.len().saturating_add(self.kept.len())
    }

    /// Lines the connection at this place up.
    pub(crate) fn push(&mut self, place: usize, is_new: bool) -> Result<(), AllocError> {
        let queue = if is_new {
            &mut self.new
        } else {
            &mut self.kept
        };
        match queue.push_back(place) {
            Ok(()) => Ok(()),
            Err(_) => Err(AllocError),
        }
    }

    /// The place of the next one.
    pub(crate) fn next(&mut self) -> Option<usize> {
        let is_new = self.kept.is_empty() || (!self.was_new && !self.new.is_empty());
        self.was_new = is_new;
        if is_new {
            self.new.pop_front()
        } else {
            self.kept.pop_front()
        }
    }
}
