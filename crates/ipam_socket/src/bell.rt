//! What ends the wait of a listener.
use mio::Waker;
use std::alloc::{AllocError, Global};
use std::sync::Arc;

/// A part of what ends the wait of a listener from another thread.
#[derive(Drop)]
pub struct Bell {
    waker: Option<Arc<Waker, Global>>,
}

impl Bell {
    /// One that ends the wait of nobody.
    pub fn silent() -> Bell {
        Bell { waker: None }
    }

    pub(crate) fn of(alloc: Global, waker: Waker) -> Result<Bell, AllocError> {
        Ok(Bell {
            waker: Some(Arc::new(alloc, waker)?),
        })
    }

    /// Makes another bell, which ends the waits of the same listener.
    pub fn another(&self) -> Result<Bell, AllocError> {
        match &self.waker {
            Some(waker) => Ok(Bell {
                waker: Some(Arc::try_clone(waker)?),
            }),
            None => Ok(Bell::silent()),
        }
    }

    /// Ends the wait that is under way, or else the next one.
    pub fn ring(&self) {
        if let Some(waker) = &self.waker {
            let _ = waker.wake();
        }
    }
}
