//! Where bytes come from and go to.
ghost use Rattle.std.specs.Prelude.{◌≡◌};

use super::sink::Sink;
use super::source::Source;

/// A source and a sink in one, of which a read leaves the sink alone and a write the source.
pub trait Link: Source + Sink {
    /// A read leaves alone exactly what the sink has: the bytes written, and its count of
    /// faults.
    ghost read_leaves_sink: { (link : Self) → Self.read_rest link
        ≡ (Self.written link, Self.write_faults link) };

    /// A write leaves alone exactly what the source has: the bytes not read yet, and its
    /// count of faults.
    ghost write_leaves_source: { (link : Self) → Self.write_rest link
        ≡ (Self.left link, Self.read_faults link) };
}
