//! How the thread that accepts connections learns that nothing more can be served.
ghost use Rattle.std.specs.Prelude.{◌≡◌, IfOk};
ghost use Rattle.ipam_daemon.specs.Alarms.{IsHeeded};

use crate::handing::Watches;
use ipam_serve::SessionEnd;
use std::alloc::{AllocError, Global};
use std::sync::Arc;
use std::sync::atomic::{AtomicU64, Ordering};

/// Who looks whether an alarm was raised, by any of its parts.
#[derive(Drop)]
pub struct Watch {
    raised: Arc<AtomicU64, Global>,
    // how many looks found it raised
    found: u64,
}

impl Watches for Watch {
    ghost found = { λ watch. watch.found };

    fn is_raised(&mut self) -> bool {
        if self.raised.load(Ordering::SeqCst) == 0 {
            return false;
        }
        self.found = self.found.saturating_add(1);
        true
    }
}

/// A part of the alarm, which is raised once a session ended since the keeper failed to make sure of what it
/// did. From then on each call of the keeper fails.
#[derive(Drop)]
pub struct Alarm {
    // 0 until it is raised
    raised: Arc<AtomicU64, Global>,
    // how often it was raised by this part
    raises: u64,
}

impl Alarm {
    /// The first part of an alarm that is not raised, and who looks at it.
    pub fn new(alloc: Global) -> Result<(Alarm, Watch), AllocError>
        ensures raises { IfOk result (λ made. made.0.raises ≡ 0) }
        ensures found { IfOk result (λ made. made.1.found ≡ 0) }
    {
        let raised = Arc::new(alloc, AtomicU64::new(0))?;
        let watch = Watch {
            raised: Arc::try_clone(&raised)?,
            found: 0,
        };
        Ok((Alarm { raised, raises: 0 }, watch))
    }

    /// A further part of the alarm, which has not raised it. Fails with `AllocError`.
    pub(crate) fn another(&self) -> Result<Alarm, AllocError>
        ensures { IfOk result (λ other. other.raises ≡ 0) }
    {
        Ok(Alarm {
            raised: Arc::try_clone(&self.raised)?,
            raises: 0,
        })
    }

    /// Raises it once where a session that ended so did since the keeper failed. Else it doesn't raise it.
    pub(crate) fn heed(&mut self, end: SessionEnd)
        ensures { IsHeeded end self.old.raises self.new.raises }
    {
        match end {
            SessionEnd::KeeperFault => {
                self.raises = self.raises.saturating_add(1);
                self.raised.store(1, Ordering::SeqCst);
            }
            SessionEnd::Closed
            | SessionEnd::Cut
            | SessionEnd::LineTooLong
            | SessionEnd::ReadFault
            | SessionEnd::WriteFault
            | SessionEnd::Halted
            | SessionEnd::Worn
            | SessionEnd::Memory => {}
        }
    }
}
