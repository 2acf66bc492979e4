//! Std's readers and writers as a source and a sink.
ghost use Rattle.std.specs.Prelude.{◌≡◌, ◌≤◌, None, OnOk, OnErr};
ghost use Rattle.std.specs.Io.{ReadsAtMost};
ghost use Rattle.std.specs.Io.KnownBytes.{ReadConsumes, Appends};
ghost use Rattle.ipam_io.specs.Streams.{AppendsPart};
ghost use Rattle.ipam_io.specs.Counts.{next_count};
ghost use Rattle.ipam_io.specs.Standard.{reader_of, reader_faults, writer_of, writer_faults};

use super::sink::Sink;
use super::source::{Failed, Source};
use std::io::{ErrorKind, Read, Write};

/// A reader of std as a source. It does not tell which bytes are left.
#[derive(Drop)]
pub struct StdSource<R> {
    reader: R,
    faults: u64,
}

impl<R: Read> StdSource<R> {
    /// A source that reads this reader.
    pub fn new(reader: R) -> StdSource<R>
        ensures reader { reader_of result ≡ reader }
        ensures faults { reader_faults result ≡ 0 }
    {
        StdSource { reader, faults: 0 }
    }
}

impl<R: Read> Source for StdSource<R> {
    ghost left = { λ _. None };

    ghost read_faults = { reader_faults };

    ghost read_rest = { λ _. (None, 0) };

    /// Makes one read of the reader, whose error is a fault.
    fn read(&mut self, into: &mut [u8]) -> Result<usize, Failed>
        ensures bound { ReadsAtMost result into.new }
        ensures bytes { ReadConsumes
            (R.remaining (reader_of self.old)) (R.remaining (reader_of self.new)) result into.new }
        ensures fault { OnErr result (reader_faults self.new ≡ next_count (reader_faults self.old)) }
        ensures no_fault { OnOk result (reader_faults self.new ≡ reader_faults self.old) }
        ensures never_falls { reader_faults self.old ≤ reader_faults self.new }
    {
        match self.reader.read(into) {
            Ok(count) => Ok(count),
            Err(_) => {
                self.faults = self.faults.saturating_add(1);
                Err(Failed)
            }
        }
    }
}

/// A writer of std as a sink. It does not tell what was written.
#[derive(Drop)]
pub struct StdSink<W> {
    writer: W,
    faults: u64,
}

impl<W: Write> StdSink<W> {
    /// A sink that writes to this writer.
    pub fn new(writer: W) -> StdSink<W>
        ensures writer { writer_of result ≡ writer }
        ensures faults { writer_faults result ≡ 0 }
    {
        StdSink { writer, faults: 0 }
    }
}

impl<W: Write> Sink for StdSink<W> {
    ghost written = { λ _. None };

    ghost write_faults = { writer_faults };

    ghost write_rest = { λ _. (None, 0) };

    /// Hands the whole piece to the writer, in as many writes as it asks for. An interrupted write
    /// is tried again; any other error is a fault, and so is a write that takes nothing. What was
    /// taken before a fault stays written. What a writer buffers may stay in its buffer.
    fn write(&mut self, piece: &[u8]) -> Result<(), Failed>
        ensures bytes { OnOk result (Appends
            (W.contents (writer_of self.old)) (W.contents (writer_of self.new)) piece.now) }
        ensures part { OnErr result (AppendsPart
            (W.contents (writer_of self.old)) (W.contents (writer_of self.new)) piece.now) }
        ensures fault { OnErr result (writer_faults self.new ≡ next_count (writer_faults self.old)) }
        ensures no_fault { OnOk result (writer_faults self.new ≡ writer_faults self.old) }
        ensures never_falls { writer_faults self.old ≤ writer_faults self.new }
    {
        match write_each(&mut self.writer, piece) {
            Ok(()) => Ok(()),
            Err(Failed) => {
                self.faults = self.faults.saturating_add(1);
                Err(Failed)
            }
        }
    }
}

/// Writes the piece part by part. Std's `write_all` promises nothing of what it wrote before an
/// error, so the loop stands here.
pub(crate) fn write_each<W: Write>(writer: &mut W, piece: &[u8]) -> Result<(), Failed>
    ensures bytes { OnOk result (Appends (W.contents writer.old) (W.contents writer.new) piece.now) }
    ensures part { OnErr result (AppendsPart (W.contents writer.old) (W.contents writer.new) piece.now) }
{
    let mut rest = piece;
    for _ in 0..u64::MAX {
        if rest.is_empty() {
            return Ok(());
        }
        match writer.write(rest) {
            Ok(0) => return Err(Failed),
            Ok(count) => rest = &rest[count..],
            Err(error) => {
                if error.kind() != ErrorKind::Interrupted {
                    return Err(Failed);
                }
            }
        }
    }
    Err(Failed)
}
