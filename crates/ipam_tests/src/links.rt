//! What passes over a connection.
use ipam_io::{Failed, Sink, Source, TcpLink};
use std::alloc::AllocError;
use std::io;
use std::net::{TcpListener, TcpStream};

// Two ends of a connection over the loopback.
fn connected(rt: &HostRuntime) -> io::Result<(TcpStream, TcpStream)> {
    let listener = TcpListener::bind(rt, "127.0.0.1:0")?;
    let near = TcpStream::connect(rt, listener.local_addr()?)?;
    let (far, _) = listener.accept()?;
    Ok((near, far))
}

/// Whether a client over the stream sends with no delay, and what its write of the bytes answers.
fn sent(near: TcpStream, bytes: &[u8]) -> (bool, Result<(), Failed>) {
    let twin = near.try_clone();
    let written = TcpLink::new(near).write(bytes);
    let is_quick = match twin {
        Ok(twin) => twin.nodelay().unwrap_or(false),
        Err(_) => false,
    };
    (is_quick, written)
}

/// Whether a client sends with no delay, and what comes of the text.
pub(crate) fn socket_text(rt: &HostRuntime, text: &str) -> Result<String, AllocError> {
    let Ok((near, far)) = connected(rt) else {
        return Err(AllocError);
    };
    let mut into = [0u8; 5];
    let (is_quick, written) = sent(near, text.as_bytes());
    let read = TcpLink::new(far).read(&mut into);
    format!(in rt.alloc(); "{is_quick} {written:?} {read:?} {into:?}")
}
