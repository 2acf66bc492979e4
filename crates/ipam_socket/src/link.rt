//! A connection as a link, which waits for no longer than its limits.
ghost use Rattle.std.specs.Prelude.{◌≡◌, ◌<◌, ◌≤◌, length, IfOk};
ghost use Rattle.ipam_socket.specs.Links.{connection_of, link_read_faults, link_write_faults};

use crate::limits::Limits;
use crate::stream::{Connected, may_begin};
use crate::waits::Waits;
use ipam_io::{Failed, Link, Sink, Source};
use std::io;
use std::io::ErrorKind;
use std::time::{Clock, Duration, Instant};

/// How many milliseconds a session stays with its worker for the next line to begin, before it is left.
const STAY_MILLIS: u64 = 50;

/// How many milliseconds it stays where others wait for a worker.
const SHORT_STAY_MILLIS: u64 = 2;

/// For how many milliseconds a session is served in one go, and for how many where others wait for a worker. After that
/// it is left at once. Who accepts connections may serve it, and then doesn't see whether others wait.
const TURN_MILLIS: u64 = 1_000;

const SHORT_TURN_MILLIS: u64 = 50;

/// A connection as a link. It tells neither the bytes that come nor those that went. A read or a
/// write that takes longer than its limit is a fault, and so is a first byte over TCP with which no
/// session begins: a web page can have a browser send lines of a session, but only after a first
/// line of its own. The daemon's end takes no bytes of a peer that is gone, which is a fault too.
///
/// Where somebody keeps the connection, a session is left between two lines once it has stayed long enough: it reads
/// its end, nothing is taken from the connection, and a new session goes on with the next line.
#[derive(Drop)]
pub struct SocketLink<C, S> {
    clock: C,
    stream: S,
    write_limit: Duration,
    waits: Waits,
    // when it was made
    began: Option<Instant>,
    // whether bytes are taken only while the peer is there
    is_session: bool,
    is_checked: bool,
    is_refused: bool,
    read_faults: u64,
    write_faults: u64,
}

impl<C: Clock, S: Connected> SocketLink<C, S> {
    /// The daemon's end of this connection.
    pub fn of_session(clock: C, stream: S, limits: Limits) -> SocketLink<C, S>
        ensures connection { connection_of result ≡ stream }
        ensures read_faults { link_read_faults result ≡ 0 }
        ensures write_faults { link_write_faults result ≡ 0 }
    {
        let goes_on = match stream.kept() {
            Some(kept) => kept.begin(),
            None => false,
        };
        let is_checked = goes_on || !stream.stream().is_open_to_hosts();
        let waits = if goes_on {
            Waits::between(limits)
        } else {
            Waits::new(limits)
        };
        SocketLink::new(clock, stream, waits, limits.write, true, is_checked)
    }

    /// The client's end of this connection, where each first byte is taken.
    pub fn of_call(clock: C, stream: S, limits: Limits) -> SocketLink<C, S>
        ensures connection { connection_of result ≡ stream }
        ensures read_faults { link_read_faults result ≡ 0 }
        ensures write_faults { link_write_faults result ≡ 0 }
    {
        SocketLink::new(clock, stream, Waits::new(limits), limits.write, false, true)
    }

    fn new(
        clock: C,
        stream: S,
        waits: Waits,
        write_limit: Duration,
        is_session: bool,
        is_checked: bool,
    ) -> SocketLink<C, S>
        ensures connection { connection_of result ≡ stream }
        ensures read_faults { link_read_faults result ≡ 0 }
        ensures write_faults { link_write_faults result ≡ 0 }
    {
        let began = Instant::now(&clock).ok();
        SocketLink {
            clock,
            stream,
            write_limit,
            waits,
            began,
            is_session,
            is_checked,
            is_refused: false,
            read_faults: 0,
            write_faults: 0,
        }
    }

    /// Whether the first byte was none with which a session begins.
    pub fn is_refused(&self) -> bool {
        self.is_refused
    }

    /// Makes one read, or none where the session is left.
    fn read_next(&mut self, into: &mut [u8]) -> io::Result<usize>
        requires { 0 < length into.old }
        ensures bound { IfOk result (λ n. n ≤ length into.new) }
        ensures read_faults { link_read_faults self.new ≡ link_read_faults self.old }
        ensures write_faults { link_write_faults self.new ≡ link_write_faults self.old }
    {
        match self.stay() {
            Some(stay) => self.read_or_leave(stay, into),
            None => self.read_in_time(into),
        }
    }

    /// How long the session stays for the next line before it is left. None where it is not.
    fn stay(&self) -> Option<Duration> {
        let kept = self.stream.kept()?;
        if self.waits.has_begun() || !kept.is_idle() {
            return None;
        }
        let (stay, turn) = if kept.others_wait() {
            (SHORT_STAY_MILLIS, SHORT_TURN_MILLIS)
        } else {
            (STAY_MILLIS, TURN_MILLIS)
        };
        if self.was_served_for(Duration::from_millis(turn)) {
            return Some(Duration::ZERO);
        }
        Some(Duration::from_millis(stay))
    }

    /// Whether it was served for so long. So it is where the clock fails.
    fn was_served_for(&self, turn: Duration) -> bool {
        let Some(began) = &self.began else {
            return true;
        };
        match began.elapsed(&self.clock) {
            Ok(served) => served >= turn,
            Err(_) => true,
        }
    }

    /// Makes one read, for no longer than the session stays. Where nothing comes, it is left, and has its end.
    fn read_or_leave(&mut self, stay: Duration, into: &mut [u8]) -> io::Result<usize>
        ensures bound { IfOk result (λ n. n ≤ length into.new) }
        ensures read_faults { link_read_faults self.new ≡ link_read_faults self.old }
        ensures write_faults { link_write_faults self.new ≡ link_write_faults self.old }
    {
        if !stay.is_zero() {
            match self.stream.stream().read_within(stay, into) {
                Ok(count) => {
                    self.waits.took(&into[..count]);
                    return Ok(count);
                }
                Err(error) => match error.kind() {
                    ErrorKind::WouldBlock | ErrorKind::Interrupted => {}
                    _ => return Err(error),
                },
            }
        }
        if let Some(kept) = self.stream.kept() {
            kept.leave();
        }
        Ok(0)
    }

    /// Makes one read, again where a signal interrupts it.
    fn read_in_time(&mut self, into: &mut [u8]) -> io::Result<usize>
        requires { 0 < length into.old }
        ensures bound { IfOk result (λ n. n ≤ length into.new) }
        ensures read_faults { link_read_faults self.new ≡ link_read_faults self.old }
        ensures write_faults { link_write_faults self.new ≡ link_write_faults self.old }
    {
        for _ in 0..u64::MAX {
            match self.read_once(into) {
                Ok(count) => {
                    self.waits.took(&into[..count]);
                    return Ok(count);
                }
                Err(error) => {
                    if error.kind() != ErrorKind::Interrupted {
                        return Err(error);
                    }
                }
            }
        }
        Err(io::Error::from(ErrorKind::TimedOut))
    }

    /// Makes one read, for no longer than is left.
    fn read_once(&mut self, into: &mut [u8]) -> io::Result<usize>
        ensures bound { IfOk result (λ n. n ≤ length into.new) }
        ensures read_faults { link_read_faults self.new ≡ link_read_faults self.old }
        ensures write_faults { link_write_faults self.new ≡ link_write_faults self.old }
    {
        let Some(left) = self.waits.left() else {
            return Err(io::Error::from(ErrorKind::TimedOut));
        };
        let began = Instant::now(&self.clock)?;
        let found = self.stream.stream().read_within(left, into);
        self.waits.spend(began.elapsed(&self.clock)?);
        found
    }

    /// Whether the session may go on after these bytes, of which the first is looked at once. A peer that
    /// closed after its last line has sent none.
    fn admits(&mut self, bytes: &[u8]) -> bool
        ensures read_faults { link_read_faults self.new ≡ link_read_faults self.old }
        ensures write_faults { link_write_faults self.new ≡ link_write_faults self.old }
    {
        if let (false, Some(first)) = (self.is_checked, bytes.first()) {
            self.is_checked = true;
            self.is_refused = !may_begin(*first);
        }
        !self.is_refused && (bytes.is_empty() || self.has_reader())
    }

    /// Whether somebody waits for what follows.
    fn has_reader(&self) -> bool {
        !self.is_session || self.stream.stream().has_peer()
    }

    /// Writes the whole piece part by part, for no longer than the limit in all.
    fn write_in_time(&self, piece: &[u8]) -> io::Result<()> {
        let mut rest = piece;
        let mut left = self.write_limit;
        for _ in 0..u64::MAX {
            if rest.is_empty() {
                return Ok(());
            }
            let began = Instant::now(&self.clock)?;
            match self.write_once(left, rest) {
                Ok(count) => rest = &rest[count..],
                Err(error) => {
                    if error.kind() != ErrorKind::Interrupted {
                        return Err(error);
                    }
                }
            }
            left = left.saturating_sub(began.elapsed(&self.clock)?);
        }
        Err(io::Error::from(ErrorKind::TimedOut))
    }

    /// Makes one write, which takes something of the piece.
    fn write_once(&self, left: Duration, piece: &[u8]) -> io::Result<usize>
        ensures { IfOk result (λ n. n ≤ length piece.now) }
    {
        if left.is_zero() {
            return Err(io::Error::from(ErrorKind::TimedOut));
        }
        match self.stream.stream().write_within(left, piece) {
            Ok(0) => Err(io::Error::from(ErrorKind::WriteZero)),
            done => done,
        }
    }
}

impl<C: Clock, S: Connected> Source for SocketLink<C, S> {
    ghost use Rattle.std.specs.Prelude.{None};

    ghost left = { λ _. None };

    ghost read_faults = { link_read_faults };

    ghost read_rest = { λ link. (None, link_write_faults link) };

    /// Makes one read of the connection, which waits for no longer than is left for the line. An
    /// error of it is a fault.
    fn read(&mut self, into: &mut [u8]) -> Result<usize, Failed> {
        if let Ok(count) = self.read_next(into) {
            if self.admits(&into[..count]) {
                return Ok(count);
            }
        }
        self.read_faults = self.read_faults.saturating_add(1);
        Err(Failed)
    }
}

impl<C: Clock, S: Connected> Sink for SocketLink<C, S> {
    ghost use Rattle.std.specs.Prelude.{None};

    ghost written = { λ _. None };

    ghost write_faults = { link_write_faults };

    ghost write_rest = { λ link. (None, link_read_faults link) };

    /// Hands the whole piece to the system, in one write where it takes it all, and waits for no
    /// longer than the limit for the peer to make room. That it went well does not say that a peer
    /// has it.
    fn write(&mut self, piece: &[u8]) -> Result<(), Failed> {
        match self.write_in_time(piece) {
            Ok(()) => Ok(()),
            Err(_) => {
                self.write_faults = self.write_faults.saturating_add(1);
                Err(Failed)
            }
        }
    }
}

impl<C: Clock, S: Connected> Link for SocketLink<C, S> {
    ghost use Rattle.std.specs.Prelude.{refl};

    ghost read_leaves_sink = { λ _. refl };

    ghost write_leaves_source = { λ _. refl };
}
