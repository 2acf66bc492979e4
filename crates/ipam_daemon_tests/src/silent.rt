//! A client that is silent after a line.
use ipam_io::Source;
use ipam_socket::{Connection, Limits, SocketLink, Stream};
use std::alloc::AllocError;
use std::io;
use std::io::Write;
use std::net::{TcpListener, TcpStream};
use std::sync::Arc;
use std::sync::atomic::AtomicU64;
use std::time::Duration;

/// Whether the daemon's end of a connection can be read once a line was sent, and again where no other is.
pub(crate) fn told(rt: &HostRuntime) -> Result<String, AllocError> {
    let Ok((mut client, accepted)) = connection(rt) else {
        return String::from_str(rt.alloc(), "no connection\n");
    };
    let _ = client.write(b"{}\n");
    let (first, second) = two_reads(rt, accepted);
    format!(in rt.alloc(); "{first} {second}\n")
}

/// The client's end, and the daemon's.
fn connection(rt: &HostRuntime) -> io::Result<(TcpStream, TcpStream)> {
    let listener = TcpListener::bind(rt, "127.0.0.1:0")?;
    let client = TcpStream::connect(rt, listener.local_addr()?)?;
    let (accepted, _) = listener.accept()?;
    Ok((client, accepted))
}

/// Whether each of two reads goes well at the daemon's end, whose limits are short between two lines, and long else.
fn two_reads(rt: &HostRuntime, accepted: TcpStream) -> (bool, bool) {
    let mut link = SocketLink::of_session(rt, Stream::over_tcp(accepted), limits(40_000, 200));
    let mut piece = [0u8; 16];
    (link.read(&mut piece).is_ok(), link.read(&mut piece).is_ok())
}

/// Limits of so many milliseconds for a line, and between two lines.
fn limits(line: u64, between: u64) -> Limits {
    let line = Duration::from_millis(line);
    Limits {
        first: line,
        line,
        between: Duration::from_millis(between),
        write: line,
    }
}

/// What three sessions over one connection read. Two are left after their lines, of which the second begins as no
/// connection may. The third has a part of a line.
pub(crate) fn told_left(rt: &HostRuntime) -> Result<String, AllocError> {
    let Ok((mut client, accepted)) = connection(rt) else {
        return String::from_str(rt.alloc(), "no connection\n");
    };
    let waiting = Arc::new(rt.alloc(), AtomicU64::new(0))?;
    let connection = Connection::new(Stream::over_tcp(accepted), waiting);
    let _ = client.write(b"{}\n");
    let first = idle_reads(rt, &connection);
    let is_left = connection.is_left();
    let _ = client.write(b"no\n");
    let second = idle_reads(rt, &connection);
    let _ = client.write(b"no");
    let third = idle_reads(rt, &connection);
    let was_left = connection.is_left();
    let ((one, two), (three, four), (five, six)) = (first, second, third);
    format!(in rt.alloc(); "{one} {two} {is_left}, {three} {four}, {five} {six} {was_left}\n")
}

/// How many bytes each of two reads has of a new session over the connection, which may be left. A read that fails has
/// 99.
fn idle_reads(rt: &HostRuntime, connection: &Connection) -> (usize, usize) {
    let mut link = SocketLink::of_session(rt, connection, limits(200, 40_000));
    connection.set_idle(true);
    let mut piece = [0u8; 16];
    let first = link.read(&mut piece).unwrap_or(99);
    (first, link.read(&mut piece).unwrap_or(99))
}
