//! Connections that wait for a line without a worker.
use crate::bell::Bell;
use crate::connection::Connection;
use crate::limits::Limits;
use crate::ready::Ready;
use crate::stream::Connected;
use mio::unix::SourceFd;
use mio::{Events, Interest, Poll, Token, Waker};
use std::alloc::{AllocError, Global};
use std::io;
use std::net::Net;
use std::os::fd::RawFd;
use std::time::Duration;

/// How many connections may wait.
const PLACES: usize = 512;

/// How many of the places are for those that were kept alone.
const SPARE: usize = 64;

/// How many events one wait gives at most.
const EVENTS: usize = 64;

/// The tokens of the listener and of the bell. Those of the places follow.
const LISTENER: usize = 0;

const BELL: usize = 1;

const FIRST_PLACE: usize = 2;

/// A connection that waits.
#[derive(Drop)]
struct Place {
    connection: Connection,
    /// Since when, by the clock.
    since: Duration,
    /// Whether something came of it, or its peer is gone: it goes to a worker.
    is_ready: bool,
}

impl Place {
    /// Whether a session over it had a line before.
    fn has_begun(&self) -> bool {
        self.connection.has_begun()
    }

    /// From now on it waits for a worker. False where it did before.
    fn line_up(&mut self) -> bool {
        if self.is_ready {
            return false;
        }
        self.is_ready = true;
        self.connection.await_worker();
        true
    }

    /// Whether it waited longer for its first line, or for the next one, than the limits allow.
    fn is_late(&self, now: Duration, limits: &Limits) -> bool {
        let limit = if self.has_begun() {
            limits.between
        } else {
            limits.first
        };
        !self.is_ready && now.saturating_sub(self.since) >= limit
    }
}

/// What a wait found, beside the connections that are ready.
#[derive(Clone, Copy)]
pub(crate) struct Seen {
    /// Somebody wants to be accepted.
    pub(crate) has_callers: bool,
    /// The bell rang.
    pub(crate) is_rung: bool,
}

/// Connections that wait for a line, each in a place of its own.
#[derive(Drop)]
pub(crate) struct IdleConnections {
    poll: Poll,
    events: Events,
    bell: Bell,
    places: Vec<Option<Place>>,
    free: Vec<usize>,
    ready: Ready,
}

impl IdleConnections {
    /// None waits.
    pub(crate) fn new<R: Net>(rt: &R, alloc: Global) -> io::Result<IdleConnections> {
        let poll = Poll::new(rt)?;
        let waker = Waker::new(poll.registry(), Token(BELL))?;
        let (places, free) = empty_places(alloc)?;
        Ok(IdleConnections {
            poll,
            events: Events::with_capacity(alloc, EVENTS)?,
            bell: Bell::of(alloc, waker)?,
            places,
            free,
            ready: Ready::new(alloc, PLACES)?,
        })
    }

    /// What ends a wait.
    pub(crate) fn bell(&self) -> &Bell {
        &self.bell
    }

    /// A wait ends as well where somebody wants to be accepted at this listener.
    pub(crate) fn watch(&self, listener: RawFd) -> io::Result<()> {
        self.poll.registry().register(
            &mut SourceFd(&listener),
            Token(LISTENER),
            Interest::READABLE,
        )
    }

    /// Waits until a connection is ready or somebody wants to be accepted, the bell rings, or the time is up.
    pub(crate) fn wait(&mut self, limit: Duration) -> io::Result<Seen> {
        self.poll.poll(&mut self.events, Some(limit))?;
        Ok(note_all(&self.events, &mut self.places, &mut self.ready)?)
    }

    /// Whether one is ready.
    pub(crate) fn has_ready(&self) -> bool {
        self.ready.len() > 0
    }

    /// Whether there is a place for a new one, or would be once another is closed.
    pub(crate) fn has_room(&self) -> bool {
        let taken = self.ready.len().saturating_add(self.free.len());
        self.free.len() > SPARE || taken < PLACES
    }

    /// The next one that is ready. Connections that are new and those that were kept take turns.
    pub(crate) fn take_ready(&mut self) -> Option<Connection> {
        let index = self.ready.next()?;
        let Place { connection, .. } = self.places.get_mut(index)?.take()?;
        let _ = self.free.push(index);
        let fd = connection.stream().raw_fd();
        let _ = self.poll.registry().deregister(&mut SourceFd(&fd));
        Some(connection)
    }

    /// Keeps the connection until something comes of it. Where no place is left, that which waits longest is closed,
    /// and this one where none waits or the system lacks memory.
    pub(crate) fn keep(&mut self, connection: Connection, now: Duration) {
        let spare = if connection.has_begun() { 0 } else { SPARE };
        if self.free.len() <= spare {
            self.close_first();
        }
        if let Some(index) = self.free.pop() {
            if !self.put(index, connection, now) {
                let _ = self.free.push(index);
            }
        }
    }

    /// Puts the connection at this place. False where the system can't watch it.
    fn put(&mut self, index: usize, connection: Connection, now: Duration) -> bool {
        let fd = connection.stream().raw_fd();
        let token = Token(index.saturating_add(FIRST_PLACE));
        let registered = self
            .poll
            .registry()
            .register(&mut SourceFd(&fd), token, Interest::READABLE);
        if registered.is_err() {
            return false;
        }
        let Some(place) = self.places.get_mut(index) else {
            return false;
        };
        *place = Some(Place {
            connection,
            since: now,
            is_ready: false,
        });
        true
    }

    /// Closes that which waits longest for a line, of those that had none yet if there is one. False where none waits.
    pub(crate) fn close_first(&mut self) -> bool {
        match first_waiting(self.places.as_slice()) {
            Some(index) => self.close(index),
            None => false,
        }
    }

    /// Closes those that waited for longer than the limits allow.
    pub(crate) fn close_late(&mut self, now: Duration, limits: &Limits) {
        for index in 0..PLACES {
            if let Some(Some(place)) = self.places.get(index) {
                if place.is_late(now, limits) {
                    self.close(index);
                }
            }
        }
    }

    /// Closes the connection at this place. False where there is none.
    fn close(&mut self, index: usize) -> bool {
        let Some(place) = self.places.get_mut(index) else {
            return false;
        };
        let closed = place.take();
        closed.is_some() && self.free.push(index).is_ok()
    }
}

/// Places, and the numbers of all of them.
fn empty_places(alloc: Global) -> Result<(Vec<Option<Place>>, Vec<usize>), AllocError> {
    let mut places = Vec::with_capacity(alloc, PLACES)?;
    let mut free = Vec::with_capacity(alloc, PLACES)?;
    for index in 0..PLACES {
        places.push(None)?;
        free.push(index)?;
    }
    Ok((places, free))
}

/// Lines up the connections of these events.
fn note_all(
    events: &Events,
    places: &mut Vec<Option<Place>>,
    ready: &mut Ready,
) -> Result<Seen, AllocError> {
    let mut seen = Seen {
        has_callers: false,
        is_rung: false,
    };
    for event in events.iter() {
        let Token(token) = event.token();
        match token {
            LISTENER => seen.has_callers = true,
            BELL => seen.is_rung = true,
            _ => note(places, ready, token.saturating_sub(FIRST_PLACE))?,
        }
    }
    Ok(seen)
}

/// Lines up the connection at this place.
fn note(
    places: &mut Vec<Option<Place>>,
    ready: &mut Ready,
    index: usize,
) -> Result<(), AllocError> {
    let Some(Some(place)) = places.get_mut(index) else {
        return Ok(());
    };
    if place.line_up() {
        ready.push(index, !place.has_begun())
    } else {
        Ok(())
    }
}

/// The place of the connection that waits longest for a line, of those that had none yet if there is one.
fn first_waiting(places: &[Option<Place>]) -> Option<usize> {
    let mut first: Option<(bool, Duration, usize)> = None;
    for (index, place) in places.iter().enumerate() {
        if let Some(place) = place {
            let (has_begun, since) = (place.has_begun(), place.since);
            if !place.is_ready && is_before(has_begun, since, first) {
                first = Some((has_begun, since, index));
            }
        }
    }
    match first {
        Some((_, _, index)) => Some(index),
        None => None,
    }
}

/// Whether one that has or has not had a line, and waits since then, is closed before the other.
fn is_before(has_begun: bool, since: Duration, other: Option<(bool, Duration, usize)>) -> bool {
    match other {
        Some((true, other, _)) => !has_begun || since < other,
        Some((false, other, _)) => !has_begun && since < other,
        None => true,
    }
}
