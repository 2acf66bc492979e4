//! A link whose requests are counted for a person at a terminal.
ghost use Rattle.std.specs.Prelude.{◌≡◌};

use crate::telling::{EACH_REQUESTS, tell_progress};
use ipam_io::{Failed, Link, Sink, Source};

/// A link over which each write asks for one thing. It does what the link does, and tells how many it sent.
#[derive(Drop)]
pub(crate) struct Viewed<L> {
    rt: HostRuntime,
    link: L,
    sent: u64,
}

impl<L: Link> Viewed<L> {
    pub(crate) fn new(rt: &HostRuntime, link: L) -> Viewed<L>
        ensures { result.link ≡ link }
    {
        Viewed {
            rt: *rt,
            link,
            sent: 0,
        }
    }

    /// Counts a write.
    fn count(&mut self)
        ensures { self.new.link ≡ self.old.link }
    {
        self.sent = self.sent.saturating_add(1);
        tell_progress(&self.rt, self.sent, EACH_REQUESTS, "requests sent");
    }
}

impl<L: Link> Source for Viewed<L> {
    ghost left = { λ viewed. L.left viewed.link };

    ghost read_faults = { λ viewed. L.read_faults viewed.link };

    ghost read_rest = { λ viewed. L.read_rest viewed.link };

    fn read(&mut self, into: &mut [u8]) -> Result<usize, Failed> {
        self.link.read(into)
    }
}

impl<L: Link> Sink for Viewed<L> {
    ghost written = { λ viewed. L.written viewed.link };

    ghost write_faults = { λ viewed. L.write_faults viewed.link };

    ghost write_rest = { λ viewed. L.write_rest viewed.link };

    fn write(&mut self, piece: &[u8]) -> Result<(), Failed> {
        self.count();
        self.link.write(piece)
    }
}

impl<L: Link> Link for Viewed<L> {
    ghost read_leaves_sink = { λ viewed. L.read_leaves_sink viewed.link };

    ghost write_leaves_source = { λ viewed. L.write_leaves_source viewed.link };
}
