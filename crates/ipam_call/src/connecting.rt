//! A connection to the daemon.
ghost use Rattle.std.specs.Prelude.{◌≡◌, ◌+◌, ◌<◌, ◌≤◌, min, ℕ, List, IfSome, IfNone};
ghost use Rattle.std.specs.Duration.{as_nanos};
ghost use Rattle.ipam_io.specs.Counts.{Rose, next_count};
ghost use Rattle.ipam_call.specs.Connecting.{HasConnected, HasFailed, nanos_tried};

use ipam_socket::{Address, DialError, Limits, SocketLink, Stream, dial};
use std::net::{Net, TcpStream};
use std::thread;
use std::time::{Clock, Duration, Instant};

/// How many milliseconds the pause after the first try is.
const FIRST_PAUSE_MILLIS: u64 = 10;

/// How many milliseconds the longest pause between two tries is.
const LONGEST_PAUSE_MILLIS: u64 = 250;

/// The most tries, also where the clock stands still. With the longest pause they take 75 seconds.
const MOST_TRIES: u32 = 300;

/// What connects to a daemon. Each relation is stated by its method alone, so who has it made that call.
pub trait Connects<L> {
    /// The address was reached, by this new link, of which nothing was asked.
    ghost reaches: { Self → List ℕ → L → Self → Type 0 };

    /// Nobody was reached at the address.
    ghost fails: { Self → List ℕ → Self → Type 0 };

    /// The link was ended in this state.
    ghost ends: { Self → L → Self → Type 0 };

    /// Connects to the address. None where nobody answers.
    fn connect(&mut self, address: &str) -> Option<L>
        ensures reached { IfSome result (λ link. reaches self.old address.now link self.new) }
        ensures failed { IfNone result (fails self.old address.now self.new) };

    /// Ends the link.
    fn end(&mut self, link: L)
        ensures { ends self.old link self.new };
}

/// What connects to a daemon over the system's sockets, and waits for it for no longer than its limits.
#[derive(Drop)]
pub struct Connector<R> {
    rt: R,
    limits: Limits,
    patience: Duration,
    connected: u64,
    faults: u64,
    why: Option<DialError>,
}

impl<R: Net<Stream = TcpStream> + Clock> Connector<R> {
    /// What connects within these limits. Where nobody listens it tries again, for as long as its patience. Where
    /// the daemon has no room for one more connection, it tries for as long as it waits for a first line.
    pub fn new(rt: R, limits: Limits, patience: Duration) -> Connector<R> {
        Connector {
            rt,
            limits,
            patience,
            connected: 0,
            faults: 0,
            why: None,
        }
    }

    /// Why nobody was reached the last time, where nobody was. No contract speaks of it.
    pub fn why(&self) -> Option<DialError> {
        self.why
    }

    /// The connection that the tries come to, with the time that is left of the limit for the first line. One that
    /// leaves no time is closed again, before anything is sent.
    fn reach(&self, address: &str) -> Result<(Stream, Duration), DialError> {
        let Ok(began) = Instant::now(&self.rt) else {
            return Err(DialError::Failed);
        };
        let mut last = DialError::Failed;
        let mut pause = FIRST_PAUSE_MILLIS;
        for _ in 0..MOST_TRIES {
            let left = self.limits.first.saturating_sub(self.spent(&began)?);
            let dialed = dial(&self.rt, Address::of(address), left);
            let spent = self.spent(&began)?;
            match dialed {
                Ok(stream) => return in_time(stream, time_left(self.limits.first, spent)),
                Err(error) => last = error,
            }
            let Some(left) = time_left(self.tried_for(last), spent) else {
                return Err(last);
            };
            thread::sleep(&self.rt, Duration::from_millis(pause).min(left));
            pause = next_pause(pause);
        }
        Err(last)
    }

    /// How long ago it began. An error where the clock fails.
    fn spent(&self, began: &Instant) -> Result<Duration, DialError> {
        match began.elapsed(&self.rt) {
            Ok(spent) => Ok(spent),
            Err(_) => Err(DialError::Failed),
        }
    }

    /// How long it goes on after a try that failed so, counted from the first.
    fn tried_for(&self, error: DialError) -> Duration
        ensures { as_nanos result ≡ nanos_tried self.now error }
    {
        match error {
            DialError::Refused => self.patience,
            DialError::Busy => self.limits.first,
            DialError::Denied | DialError::Unknown | DialError::Failed => Duration::ZERO,
        }
    }
}

/// The connection, where time is left of the limit.
fn in_time(stream: Stream, left: Option<Duration>) -> Result<(Stream, Duration), DialError> {
    match left {
        Some(left) => Ok((stream, left)),
        None => Err(DialError::Failed),
    }
}

/// What is left of so much time. None where nothing is.
fn time_left(limit: Duration, spent: Duration) -> Option<Duration>
    ensures some { IfSome result (λ left. (0 < as_nanos left) × (as_nanos left + as_nanos spent ≡ as_nanos limit)) }
    ensures none { IfNone result (as_nanos limit ≤ as_nanos spent) }
{
    let left = limit.checked_sub(spent)?;
    if left.is_zero() { None } else { Some(left) }
}

/// The pause after this one: twice as long, up to the longest.
fn next_pause(millis: u64) -> u64
    ensures { result ≡ min (millis + millis) 250 }
{
    millis.saturating_mul(2).min(LONGEST_PAUSE_MILLIS)
}

impl<R: Net<Stream = TcpStream> + Clock + Copy> Connects<SocketLink<R, Stream>> for Connector<R> {
    ghost reaches = { λ before _ _ after. HasConnected before after };

    ghost fails = { λ before _ after. HasFailed before after };

    ghost ends = { λ before _ after. after ≡ before };

    /// Connects to the address: at a socket file, where the address begins with a slash, and else at an IP
    /// address or the name of a host, a colon and a port. Of the addresses of a host's name it takes the
    /// first that answers. The time that this takes is taken off the limit for the first line.
    fn connect(&mut self, address: &str) -> Option<SocketLink<R, Stream>> {
        match self.reach(address) {
            Ok((stream, left)) => {
                self.connected = self.connected.saturating_add(1);
                self.why = None;
                let limits = Limits {
                    first: left,
                    ..self.limits
                };
                Some(SocketLink::of_call(self.rt, stream, limits))
            }
            Err(why) => {
                self.faults = self.faults.saturating_add(1);
                self.why = Some(why);
                None
            }
        }
    }

    fn end(&mut self, link: SocketLink<R, Stream>) {
        drop(link);
    }
}
