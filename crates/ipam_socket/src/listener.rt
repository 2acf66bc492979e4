//! A listener at an address.
ghost use Rattle.std.specs.Prelude.{◌≡◌};
ghost use Rattle.ipam_io.specs.Counts.{next_count};

use crate::address::Address;
use crate::bell::Bell;
use crate::connection::Connection;
use crate::entrance::Entrance;
use crate::limits::Limits;
use crate::listening::{Came, Listens};
use ipam_io::Failed;
use std::alloc::{AllocError, Global};
use std::fs::Files;
use std::io;
use std::io::ErrorKind;
use std::net::{Net, SocketAddr, TcpListener, TcpStream};
use std::time::Clock;

/// A listener at an address: a socket file that its owner and its group may use, or a TCP port. A connection that it
/// accepts waits there, without a worker, until something comes of it or the limits are over.
#[derive(Drop)]
pub struct SocketListener<'a, R> {
    rt: &'a R,
    alloc: Global,
    address: Address<'a>,
    limits: Limits,
    entrance: Option<Entrance>,
    accepted: u64,
    kept: u64,
    faults: u64,
    why: Option<io::Error>,
}

impl<'a, R: Files + Net<Listener = TcpListener, Stream = TcpStream> + Clock> SocketListener<'a, R> {
    /// A listener that doesn't listen yet. By these limits connections wait for a line.
    pub fn new(
        rt: &'a R,
        alloc: Global,
        address: Address<'a>,
        limits: Limits,
    ) -> SocketListener<'a, R> {
        SocketListener {
            rt,
            alloc,
            address,
            limits,
            entrance: None,
            accepted: 0,
            kept: 0,
            faults: 0,
            why: None,
        }
    }

    /// The address and the port at which it listens over TCP.
    pub fn local_addr(&self) -> Option<SocketAddr> {
        match &self.entrance {
            Some(entrance) => entrance.local_addr(),
            None => None,
        }
    }

    /// Why listening or accepting failed the last time, where it did. No contract speaks of it.
    pub fn why(&self) -> Option<io::Error> {
        self.why
    }

    /// Counts the fault, and keeps its cause.
    fn fail(&mut self, error: io::Error) -> Failed
        ensures accepted { self.new.accepted ≡ self.old.accepted }
        ensures kept { self.new.kept ≡ self.old.kept }
        ensures fault { self.new.faults ≡ next_count self.old.faults }
    {
        self.faults = self.faults.saturating_add(1);
        self.why = Some(error);
        Failed
    }

    /// The next connection, or what else there is.
    fn next(&mut self) -> io::Result<Came<Connection>>
        ensures accepted { self.new.accepted ≡ self.old.accepted }
        ensures kept { self.new.kept ≡ self.old.kept }
        ensures faults { self.new.faults ≡ self.old.faults }
    {
        match &mut self.entrance {
            Some(entrance) => entrance.next(self.rt, self.alloc, self.address, &self.limits),
            None => Err(io::Error::from(ErrorKind::NotConnected)),
        }
    }
}

impl<R: Files + Net<Listener = TcpListener, Stream = TcpStream> + Clock> Listens<Connection>
    for SocketListener<'_, R> {
    ghost accepted = { λ listener. listener.accepted };

    ghost kept = { λ listener. listener.kept };

    ghost faults = { λ listener. listener.faults };

    /// Listens at the address. A socket file at which nobody listens is replaced. One at which
    /// somebody does is left as it is, and so is a file that is no socket, and that is a fault.
    fn open(&mut self) -> Result<(), Failed> {
        match Entrance::at(self.rt, self.alloc, self.address) {
            Ok(entrance) => {
                self.entrance = Some(entrance);
                Ok(())
            }
            Err(error) => Err(self.fail(error)),
        }
    }

    fn bell(&self) -> Result<Bell, AllocError> {
        match &self.entrance {
            Some(entrance) => entrance.bell().another(),
            None => Ok(Bell::silent()),
        }
    }

    /// The next connection of which something came: a byte, or its end. A try waits for a quarter of a second.
    fn accept(&mut self) -> Result<Came<Connection>, Failed> {
        match self.next() {
            Ok(Came::One(connection)) => {
                self.accepted = self.accepted.saturating_add(1);
                Ok(Came::One(connection))
            }
            Ok(Came::Nobody) => Ok(Came::Nobody),
            Ok(Came::Woken) => Ok(Came::Woken),
            Ok(Came::Passing(cause)) => Ok(Came::Passing(cause)),
            Err(error) => Err(self.fail(error)),
        }
    }

    /// Keeps the connection until something comes of it. It is closed where it waits for too long, or others need its
    /// place.
    fn keep(&mut self, connection: Connection) {
        self.kept = self.kept.saturating_add(1);
        if let Some(entrance) = &mut self.entrance {
            entrance.keep(self.rt, connection);
        }
    }

    /// Listens no more, and removes the socket file if it is still the one that it made.
    fn close(&mut self) {
        if let Some(entrance) = self.entrance.take() {
            entrance.close(self.rt, self.address);
        }
    }
}
