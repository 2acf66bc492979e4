//! A link over a socket, or over any stream of std.
ghost use Rattle.std.specs.Prelude.{◌≡◌, ◌≤◌, OnOk, OnErr};
ghost use Rattle.std.specs.Io.{ReadsAtMost};
ghost use Rattle.std.specs.Io.KnownBytes.{ReadConsumes, Appends};
ghost use Rattle.ipam_io.specs.Counts.{next_count};
ghost use Rattle.ipam_io.specs.Streams.{AppendsPart};
ghost use Rattle.ipam_io.specs.Standard.{stream_of, stream_read_faults, stream_write_faults};

use super::link::Link;
use super::sink::Sink;
use super::source::{Failed, Source};
use super::standard::write_each;
use std::io::{Read, Write};
use std::net::TcpStream;

/// A stream of std as a link. It tells neither the bytes that come nor those that went.
#[derive(Drop)]
pub struct StreamLink<S> {
    stream: S,
    read_faults: u64,
    write_faults: u64,
}

/// A link over a TCP connection.
pub type TcpLink = StreamLink<TcpStream>;

impl StreamLink<TcpStream> {
    /// A link over this connection, which sends each write at once: a short reply that waits for
    /// more to come would be late by some 40 milliseconds. Where the system refuses that, the link
    /// is slow and nothing else.
    pub fn new(stream: TcpStream) -> StreamLink<TcpStream>
        ensures stream { stream_of result ≡ stream }
        ensures read_faults { stream_read_faults result ≡ 0 }
        ensures write_faults { stream_write_faults result ≡ 0 }
    {
        let _ = stream.set_nodelay(true);
        StreamLink::over(stream)
    }
}

impl<S: Read + Write> StreamLink<S> {
    /// A link over this stream as it stands.
    pub fn over(stream: S) -> StreamLink<S>
        ensures stream { stream_of result ≡ stream }
        ensures read_faults { stream_read_faults result ≡ 0 }
        ensures write_faults { stream_write_faults result ≡ 0 }
    {
        StreamLink {
            stream,
            read_faults: 0,
            write_faults: 0,
        }
    }
}

impl<S: Read + Write> Source for StreamLink<S> {
    ghost use Rattle.std.specs.Prelude.{None};

    ghost left = { λ _. None };

    ghost read_faults = { stream_read_faults };

    ghost read_rest = { λ link. (None, stream_write_faults link) };

    /// Makes one read of the stream, whose error is a fault.
    fn read(&mut self, into: &mut [u8]) -> Result<usize, Failed>
        ensures bound { ReadsAtMost result into.new }
        ensures bytes { ReadConsumes
            (S.remaining (stream_of self.old)) (S.remaining (stream_of self.new)) result into.new }
        ensures fault { OnErr result
            (stream_read_faults self.new ≡ next_count (stream_read_faults self.old)) }
        ensures no_fault { OnOk result
            (stream_read_faults self.new ≡ stream_read_faults self.old) }
        ensures never_falls { stream_read_faults self.old ≤ stream_read_faults self.new }
        ensures writes { stream_write_faults self.new ≡ stream_write_faults self.old }
    {
        match self.stream.read(into) {
            Ok(count) => Ok(count),
            Err(_) => {
                self.read_faults = self.read_faults.saturating_add(1);
                Err(Failed)
            }
        }
    }
}

impl<S: Read + Write> Sink for StreamLink<S> {
    ghost use Rattle.std.specs.Prelude.{None};

    ghost written = { λ _. None };

    ghost write_faults = { stream_write_faults };

    ghost write_rest = { λ link. (None, stream_read_faults link) };

    /// Hands the whole piece to the stream, in one write where it takes it all. An interrupted
    /// write is tried again; any other error is a fault, and so is a write that takes nothing.
    /// That it went well does not say that a peer has it.
    fn write(&mut self, piece: &[u8]) -> Result<(), Failed>
        ensures bytes { OnOk result (Appends
            (S.contents (stream_of self.old)) (S.contents (stream_of self.new)) piece.now) }
        ensures part { OnErr result (AppendsPart
            (S.contents (stream_of self.old)) (S.contents (stream_of self.new)) piece.now) }
        ensures fault { OnErr result
            (stream_write_faults self.new ≡ next_count (stream_write_faults self.old)) }
        ensures no_fault { OnOk result
            (stream_write_faults self.new ≡ stream_write_faults self.old) }
        ensures never_falls { stream_write_faults self.old ≤ stream_write_faults self.new }
        ensures reads { stream_read_faults self.new ≡ stream_read_faults self.old }
    {
        match write_each(&mut self.stream, piece) {
            Ok(()) => Ok(()),
            Err(Failed) => {
                self.write_faults = self.write_faults.saturating_add(1);
                Err(Failed)
            }
        }
    }
}

impl<S: Read + Write> Link for StreamLink<S> {
    ghost use Rattle.std.specs.Prelude.{refl};

    ghost read_leaves_sink = { λ _. refl };

    ghost write_leaves_source = { λ _. refl };
}
