//! What the system listens with.
use crate::address::Address;
use crate::file;
use crate::file::FileId;
use crate::stream::Stream;
use std::alloc::Global;
use std::fs::Files;
use std::io;
use std::net::{Net, SocketAddr, TcpListener, TcpStream};
use std::os::fd::{AsRawFd, RawFd};
use std::os::unix::net::UnixListener;

/// A socket at which the system listens. A try to accept a connection doesn't wait for one.
#[derive(Drop)]
pub(crate) enum Bound {
    File(UnixListener, FileId),
    Host(TcpListener),
}

impl Bound {
    /// Listens at the address.
    pub(crate) fn at<R: Files + Net<Listener = TcpListener, Stream = TcpStream>>(
        rt: &R,
        alloc: Global,
        address: Address<'_>,
    ) -> io::Result<Bound> {
        match address {
            Address::File(path) => Bound::over(file::bind(rt, alloc, path)?),
            Address::Host(host) => {
                let listener = TcpListener::bind(rt, host)?;
                listener.set_nonblocking(true)?;
                Ok(Bound::Host(listener))
            }
        }
    }

    /// Listens with this socket file.
    pub(crate) fn over(made: (UnixListener, FileId)) -> io::Result<Bound> {
        let (listener, id) = made;
        listener.set_nonblocking(true)?;
        Ok(Bound::File(listener, id))
    }

    /// Accepts a connection. Where nobody is there, the error is that it would wait.
    pub(crate) fn accept(&self) -> io::Result<Stream> {
        match self {
            Bound::File(listener, _) => Ok(Stream::File(listener.accept()?.0)),
            Bound::Host(listener) => Ok(Stream::over_tcp(listener.accept()?.0)),
        }
    }

    /// What the system knows it by.
    pub(crate) fn raw_fd(&self) -> RawFd {
        match self {
            Bound::File(listener, _) => listener.as_raw_fd(),
            Bound::Host(listener) => listener.as_raw_fd(),
        }
    }

    /// Its socket file.
    pub(crate) fn file(&self) -> Option<FileId> {
        match self {
            Bound::File(_, id) => Some(*id),
            Bound::Host(_) => None,
        }
    }

    /// The address and the port at which it listens over TCP.
    pub(crate) fn local_addr(&self) -> Option<SocketAddr> {
        match self {
            Bound::Host(listener) => listener.local_addr().ok(),
            Bound::File(_, _) => None,
        }
    }
}
