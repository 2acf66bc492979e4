//! A connection.
ghost use Rattle.std.specs.Prelude.{◌≡◌};
ghost use Rattle.std.specs.Io.{ReadsAtMost, WritesAtMost};
ghost use Rattle.ipam_socket.specs.Links.{may_begin, is_open_to_hosts};

use crate::connection::Connection;
use std::io;
use std::io::{Read, Write};
use std::net::TcpStream;
use std::os::fd::{AsRawFd, RawFd};
use std::os::unix::net::UnixStream;
use std::time::Duration;

/// A connection over a Unix stream socket or over TCP. It may be read and written by `&`.
#[derive(Drop)]
pub enum Stream {
    /// A connection over a socket file.
    File(UnixStream),
    /// A connection over TCP.
    Host(TcpStream),
}

/// What has a connection.
pub trait Connected {
    /// The connection.
    fn stream(&self) -> &Stream;

    /// The connection, where somebody keeps it once its session is left. None where a session lasts as long as it.
    fn kept(&self) -> Option<&Connection>;
}

impl Connected for Stream {
    fn stream(&self) -> &Stream {
        self
    }

    fn kept(&self) -> Option<&Connection> {
        None
    }
}

/// Whether a session may begin with this byte: a brace, or a blank before one.
pub fn may_begin(byte: u8) -> bool
    ensures { result ≡ may_begin byte }
{
    byte == b'{' || byte == b' ' || byte == b'\t' || byte == b'\r' || byte == b'\n'
}

impl Stream {
    /// A connection over TCP, which sends each write at once: a short reply that waits for more to
    /// come would be late by some 40 milliseconds. Where the system refuses that, it is slow and
    /// nothing else.
    pub fn over_tcp(stream: TcpStream) -> Stream {
        let _ = stream.set_nodelay(true);
        Stream::Host(stream)
    }

    /// Whether anyone who reaches this machine may be the peer. The mode of its file says who may
    /// reach a socket file.
    pub fn is_open_to_hosts(&self) -> bool
        ensures { result ≡ is_open_to_hosts self.now }
    {
        match self {
            Stream::File(_) => false,
            Stream::Host(_) => true,
        }
    }

    /// What the system knows it by.
    pub(crate) fn raw_fd(&self) -> RawFd {
        match self {
            Stream::File(stream) => stream.as_raw_fd(),
            Stream::Host(stream) => stream.as_raw_fd(),
        }
    }

    /// Reads once, and gives up where nothing comes for so long.
    pub(crate) fn read_within(&self, limit: Duration, into: &mut [u8]) -> io::Result<usize>
        ensures { ReadsAtMost result into.new }
    {
        match self {
            Stream::File(stream) => {
                stream.set_read_timeout(Some(limit))?;
                let mut reader = stream;
                reader.read(into)
            }
            Stream::Host(stream) => {
                stream.set_read_timeout(Some(limit))?;
                let mut reader = stream;
                reader.read(into)
            }
        }
    }

    /// Writes once, and gives up where the peer takes nothing for so long.
    pub(crate) fn write_within(&self, limit: Duration, piece: &[u8]) -> io::Result<usize>
        ensures { WritesAtMost result piece.now }
    {
        match self {
            Stream::File(stream) => {
                stream.set_write_timeout(Some(limit))?;
                let mut writer = stream;
                writer.write(piece)
            }
            Stream::Host(stream) => {
                stream.set_write_timeout(Some(limit))?;
                let mut writer = stream;
                writer.write(piece)
            }
        }
    }

    /// Whether the peer is still there. A write of no bytes to a Unix socket fails once the peer has
    /// closed, also where it left lines unread, and not where it has only ended its output. Over TCP
    /// it fails after a reset alone.
    pub fn has_peer(&self) -> bool {
        let put = match self {
            Stream::File(stream) => {
                let mut writer = stream;
                writer.write(&[])
            }
            Stream::Host(stream) => {
                let mut writer = stream;
                writer.write(&[])
            }
        };
        put.is_ok()
    }
}
