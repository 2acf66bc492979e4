//! The operator's words over a running daemon.
ghost use Rattle.std.specs.Prelude.{◌≡◌, codes, map, option_map, string_bytes};
ghost use Rattle.ipam_call.specs.Daemon.{address_of};
ghost use Rattle.ipam_call.specs.Values.{last_value};
ghost use Rattle.ipam_words.specs.Daemon.{ask_of, daemon_asked};

use crate::hinting::{KeptSink, KeptSource, hint_asked, hint_document};
use crate::viewed::Viewed;
use ipam_call::{Connector, Connects, DialError, Limits, connect_seconds, daemon_named};
use ipam_io::{Link, Sink, StdSink, StdSource};
use ipam_operator::{End, apply, get, release, routes, show, unreached};
use ipam_text::Seq;
use ipam_words::{Command, DaemonAsk, View, daemon_asked};
use std::io;
use std::time::Duration;

/// The exit status of words that no daemon is asked.
const UNKNOWN_WORDS: u8 = 2;

/// The exit status where standard output fails.
const WRITE_FAULT: u8 = 4;

/// The address of the daemon that is asked, and what it is asked: by `--daemon ADDRESS` before the words, or
/// by the last `IPAM_DAEMON` of the environment.
pub(crate) fn asked_of<'a>(words: &'a [String], entries: &'a [Seq<u8>]) -> Option<DaemonAsk<'a>>
    ensures { option_map ask_of result
        ≡ daemon_asked (map string_bytes words.now) (address_of (last_value (codes "IPAM_DAEMON") entries.now)) }
{
    daemon_asked(words, daemon_named(entries))
}

/// What connects to a daemon, and tries to for as long as the environment says.
pub(crate) fn connector_of(rt: &HostRuntime, entries: &[Seq<u8>]) -> Connector<HostRuntime> {
    let patience = Duration::from_secs(u64::from(connect_seconds(entries)));
    Connector::new(*rt, Limits::of_call(), patience)
}

/// Asks the daemon, and answers the exit status.
pub(crate) fn ask(rt: &HostRuntime, entries: &[Seq<u8>], asked: &DaemonAsk<'_>) -> u8 {
    match &asked.command {
        Some(command) => ask_at(rt, entries, asked.address, command),
        None => unasked(rt),
    }
}

/// Tells that no daemon is asked these words.
fn unasked(rt: &HostRuntime) -> u8 {
    let _ = eprintln!(rt;
        "ipam: a daemon is asked apply, get, show, routes NODE, release NODE CIDR, unreserve NAME, audit N and backup FILE; ipam --help tells the words"
    );
    match StdSink::new(io::writer(rt)).write(b"unknown words\n") {
        Ok(()) => UNKNOWN_WORDS,
        Err(_) => WRITE_FAULT,
    }
}

/// Asks the daemon at the address what the command asks.
fn ask_at(rt: &HostRuntime, entries: &[Seq<u8>], address: &str, command: &Command<'_>) -> u8 {
    let mut connector = connector_of(rt, entries);
    match connector.connect(address) {
        Some(link) => ask_over(rt, command, &mut Viewed::new(rt, link)),
        None => unreached_at(rt, address, connector.why()),
    }
}

/// Tells that nobody answers at the address.
pub(crate) fn unreached_at(rt: &HostRuntime, address: &str, why: Option<DialError>) -> u8 {
    tell_unanswered(rt, address, why);
    unreached(&mut StdSink::new(io::writer(rt))).code()
}

/// Tells on standard error why nobody was reached at the address, if nobody was.
pub(crate) fn tell_unanswered(rt: &HostRuntime, address: &str, why: Option<DialError>) {
    if let Some(why) = why {
        let _ = eprintln!(rt; "ipam: no daemon answers at {address:?}: {why}");
    }
}

/// Asks over the link. What no daemon is asked is not sent, and told as `unasked` does.
fn ask_over<L: Link>(rt: &HostRuntime, command: &Command<'_>, link: &mut L) -> u8 {
    let mut sink = StdSink::new(io::writer(rt));
    let end = match command {
        Command::Get(kind) => get(rt.alloc(), &mut sink, link, *kind),
        Command::Show(view) => ask_shown(rt, link, view),
        Command::Routes(node) => routes(rt.alloc(), &mut sink, link, node),
        Command::Release(node, block) => release(rt.alloc(), &mut sink, link, node, *block),
        Command::Apply => ask_applied(rt, &mut sink, link),
        Command::Cni
        | Command::Play
        | Command::Gen(_)
        | Command::Audit(_)
        | Command::Serve(_, _)
        | Command::Call(_)
        | Command::Help
        | Command::Version => return unasked(rt),
    };
    end.code()
}

/// Asks for what is shown, and tells that no row names a node.
fn ask_shown<L: Link>(rt: &HostRuntime, link: &mut L, view: &View<'_>) -> End {
    let mut sink = KeptSink::new(rt.alloc(), StdSink::new(io::writer(rt)));
    let end = show(rt.alloc(), &mut sink, link, view);
    hint_asked(rt, view, sink.shown(), link);
    end
}

/// Asks for the resources of the document on standard input, and tells what nobody reads of it.
fn ask_applied<K: Sink, L: Link>(rt: &HostRuntime, sink: &mut K, link: &mut L) -> End {
    let mut source = KeptSource::of_document(rt.alloc(), StdSource::new(rt.stdin()));
    let end = apply(rt.alloc(), &mut source, sink, link);
    hint_document(rt, source.document(), end.code());
    end
}
