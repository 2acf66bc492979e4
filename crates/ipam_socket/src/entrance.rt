//! Where connections come in, and wait for a line.
use crate::address::Address;
use crate::bell::Bell;
use crate::bound::Bound;
use crate::connection::Connection;
use crate::file;
use crate::file::Standing;
use crate::idle::IdleConnections;
use crate::limits::Limits;
use crate::listening::Came;
use crate::passing::Passing;
use std::alloc::Global;
use std::fs::Files;
use std::io;
use std::io::ErrorKind;
use std::net::{Net, SocketAddr, TcpListener, TcpStream};
use std::sync::Arc;
use std::sync::atomic::AtomicU64;
use std::time::{Clock, Duration};

/// How many milliseconds one try waits, and how many pass between two looks around.
const TRY_MILLIS: u64 = 250;

/// How many connections one try accepts at most.
const MOST_AT_ONCE: u32 = 64;

/// A socket that listens, and the connections that came by it and wait for a line.
#[derive(Drop)]
pub(crate) struct Entrance {
    bound: Bound,
    idle: IdleConnections,
    // how many connections wait for a worker
    waiting: Arc<AtomicU64, Global>,
    // whether somebody may want to be accepted
    has_callers: bool,
    // when it was looked around last, by the clock
    looked: Duration,
}

impl Entrance {
    /// Listens at the address. Nobody came yet.
    pub(crate) fn at<R: Files + Net<Listener = TcpListener, Stream = TcpStream> + Clock>(
        rt: &R,
        alloc: Global,
        address: Address<'_>,
    ) -> io::Result<Entrance> {
        let idle = IdleConnections::new(rt, alloc)?;
        let waiting = Arc::new(alloc, AtomicU64::new(0))?;
        let looked = rt.monotonic()?;
        let bound = Bound::at(rt, alloc, address)?;
        idle.watch(bound.raw_fd())?;
        Ok(Entrance {
            bound,
            idle,
            waiting,
            has_callers: true,
            looked,
        })
    }

    pub(crate) fn local_addr(&self) -> Option<SocketAddr> {
        self.bound.local_addr()
    }

    pub(crate) fn bell(&self) -> &Bell {
        self.idle.bell()
    }

    /// Keeps a connection whose session was left.
    pub(crate) fn keep<R: Clock>(&mut self, rt: &R, connection: Connection) {
        let now = rt.monotonic().unwrap_or(self.looked);
        self.idle.keep(connection, now);
    }

    /// The next connection of which something came, or what else there is. A try waits for a quarter of a second.
    pub(crate) fn next<R: Files + Net<Listener = TcpListener, Stream = TcpStream> + Clock>(
        &mut self,
        rt: &R,
        alloc: Global,
        address: Address<'_>,
        limits: &Limits,
    ) -> io::Result<Came<Connection>> {
        let limit = self.limit();
        let seen = self.idle.wait(limit)?;
        self.has_callers = self.has_callers || seen.has_callers;
        if seen.is_rung {
            return Ok(Came::Woken);
        }
        let now = rt.monotonic()?;
        if let Some(cause) = self.look_around(rt, alloc, address, limits, now)? {
            return Ok(Came::Passing(cause));
        }
        let lack = self.accept_some(now)?;
        match (self.idle.take_ready(), lack) {
            (Some(connection), _) => Ok(Came::One(connection)),
            (None, Some(cause)) => Ok(Came::Passing(cause)),
            (None, None) => Ok(Came::Nobody),
        }
    }

    /// How long this try may wait.
    fn limit(&self) -> Duration {
        if self.idle.has_ready() || (self.has_callers && self.idle.has_room()) {
            Duration::ZERO
        } else {
            Duration::from_millis(TRY_MILLIS)
        }
    }

    /// Accepts those who want to be, and keeps them. Why one was not accepted, where that passes.
    fn accept_some(&mut self, now: Duration) -> io::Result<Option<Passing>> {
        for _ in 0..MOST_AT_ONCE {
            if !self.has_callers || !self.idle.has_room() {
                return Ok(None);
            }
            match self.accept_one(now)? {
                None => {}
                cause => return Ok(cause),
            }
        }
        Ok(None)
    }

    /// Accepts one and keeps it. Where the process has too many files open, the connection that waits longest is closed,
    /// and the next try has its place.
    fn accept_one(&mut self, now: Duration) -> io::Result<Option<Passing>> {
        match self.bound.accept() {
            Ok(stream) => {
                let waiting = Arc::try_clone(&self.waiting)?;
                self.idle.keep(Connection::new(stream, waiting), now);
                Ok(None)
            }
            Err(error) => {
                if error.kind() == ErrorKind::WouldBlock {
                    self.has_callers = false;
                    return Ok(None);
                }
                match Passing::of(&error) {
                    Some(Passing::ProcessFiles) if self.idle.close_first() => Ok(None),
                    Some(cause) => Ok(Some(cause)),
                    None => Err(error),
                }
            }
        }
    }

    /// Closes who waited for too long, and looks whether the socket file is still there, unless it just did.
    fn look_around<R: Files + Net<Listener = TcpListener, Stream = TcpStream>>(
        &mut self,
        rt: &R,
        alloc: Global,
        address: Address<'_>,
        limits: &Limits,
        now: Duration,
    ) -> io::Result<Option<Passing>> {
        if now.saturating_sub(self.looked) < Duration::from_millis(TRY_MILLIS) {
            return Ok(None);
        }
        self.looked = now;
        self.idle.close_late(now, limits);
        let (Some(own), Address::File(path)) = (self.bound.file(), address) else {
            return Ok(None);
        };
        match file::found_at(rt, path, own)? {
            Standing::Own => Ok(None),
            Standing::Nothing => self.make_again(rt, alloc, path),
            Standing::Other => Err(io::Error::new(
                ErrorKind::AddrInUse,
                "another file took the place of the socket file",
            )),
        }
    }

    /// Listens at a new socket file, since nobody can come by one that is gone, unless it can't be made for a cause that
    /// passes.
    fn make_again<R: Files + Net<Listener = TcpListener, Stream = TcpStream>>(
        &mut self,
        rt: &R,
        alloc: Global,
        path: &str,
    ) -> io::Result<Option<Passing>> {
        match file::make(rt, alloc, path) {
            Ok(made) => {
                let bound = Bound::over(made)?;
                self.idle.watch(bound.raw_fd())?;
                self.bound = bound;
                self.has_callers = true;
                Ok(Some(Passing::FileGone))
            }
            Err(error) => match Passing::lack_of(&error) {
                Some(cause) => Ok(Some(cause)),
                None => Err(error),
            },
        }
    }

    /// Listens no more, and removes the socket file if it is still the one that it made.
    pub(crate) fn close<R: Files>(self, rt: &R, address: Address<'_>) {
        if let (Some(own), Address::File(path)) = (self.bound.file(), address) {
            file::remove(rt, path, own);
        }
    }
}
