//! A client's connection to a daemon.
ghost use Rattle.std.specs.Prelude.{◌≡◌};
ghost use Rattle.std.specs.IoError.{error_kind};

use crate::address::Address;
use crate::stream::Stream;
use mio::net;
use std::io::{Error, ErrorKind};
use std::net::{Net, TcpStream, ToSocketAddrs};
use std::os::unix::net::UnixStream;
use std::time::Duration;
use std::{fmt, io};

/// Why there is no connection.
#[derive(Clone, Copy, Debug, PartialEq, Eq)]
pub enum DialError {
    /// Nobody listens at the address: a host refused the connection, or there is no socket file at which
    /// somebody does.
    Refused,
    /// Somebody listens at the socket file, and as many connections wait to be accepted as may. A later try may find
    /// room.
    Busy,
    /// The process may not use the socket file, or a folder on the way to it.
    Denied,
    /// The text is no HOST:PORT, or no address of the host is known.
    Unknown,
    /// The connection failed in another way, or took longer than the limit.
    Failed,
}

impl fmt::Display for DialError {
    fn fmt<W: fmt::Write>(&self, f: &mut fmt::Formatter<W>) -> fmt::Result {
        f.write_str(match self {
            DialError::Refused => "nobody listens there",
            DialError::Busy => "its queue of connections was full all the time",
            DialError::Denied => "permission denied",
            DialError::Unknown => "this is no path from /, and no HOST:PORT of a known host",
            DialError::Failed => "the connection failed or took too long",
        })
    }
}

/// Connects to the address. Each address of a host's name has this limit by itself, and the first that answers
/// is taken. At a socket file nothing is waited for.
pub fn dial<R: Net<Stream = TcpStream>>(
    rt: &R,
    address: Address<'_>,
    limit: Duration,
) -> Result<Stream, DialError> {
    match address {
        Address::File(path) => Ok(Stream::File(dial_file(rt, path)?)),
        Address::Host(host) => Ok(Stream::over_tcp(dial_host(rt, host, limit)?)),
    }
}

fn dial_file<R: Net<Stream = TcpStream>>(rt: &R, path: &str) -> Result<UnixStream, DialError> {
    match connect_file(rt, path) {
        Ok(stream) => Ok(stream),
        Err(error) => Err(why(&error)),
    }
}

/// Connects to a socket file. Where as many connections wait to be accepted as may, std's own call would wait until
/// there is room, without a limit; this one fails with `WouldBlock`.
pub(crate) fn connect_file<R: Net>(rt: &R, path: &str) -> io::Result<UnixStream> {
    let stream = UnixStream::from(net::UnixStream::connect(rt, path)?);
    stream.set_nonblocking(false)?;
    Ok(stream)
}

fn dial_host<R: Net<Stream = TcpStream>>(
    rt: &R,
    host: &str,
    limit: Duration,
) -> Result<TcpStream, DialError> {
    let Ok(addresses) = host.to_socket_addrs(rt) else {
        return Err(DialError::Unknown);
    };
    let mut last = DialError::Failed;
    for address in addresses {
        match TcpStream::connect_timeout(rt, &address, limit) {
            Ok(stream) => return Ok(stream),
            Err(error) => last = why(&error),
        }
    }
    Err(last)
}

fn why(error: &Error) -> DialError
    ensures refused { error_kind error.now ≡ ErrorKind.ConnectionRefused → result ≡ DialError.Refused }
    ensures no_file { error_kind error.now ≡ ErrorKind.NotFound → result ≡ DialError.Refused }
    ensures busy { error_kind error.now ≡ ErrorKind.WouldBlock → result ≡ DialError.Busy }
    ensures denied { error_kind error.now ≡ ErrorKind.PermissionDenied → result ≡ DialError.Denied }
{
    match error.kind() {
        ErrorKind::ConnectionRefused | ErrorKind::NotFound => DialError::Refused,
        ErrorKind::WouldBlock => DialError::Busy,
        ErrorKind::PermissionDenied => DialError::Denied,
        _ => DialError::Failed,
    }
}
