//! The daemon that the words ask.
ghost use Rattle.std.specs.Prelude.{◌≡◌, map, option_map, string_bytes};
ghost use Rattle.ipam_words.specs.Daemon.{address_and, address_before, ask_of, asked_of_daemon, by_name, daemon_asked, is_of_daemon};
ghost use Rattle.ipam_words.specs.Words.{asked_by};

use crate::command::Command;
use crate::reading::{is_option, read_words};

/// What a daemon is asked.
#[derive(Clone, Copy)]
pub struct DaemonAsk<'a> {
    /// The daemon's address, which is any text.
    pub address: &'a str,
    /// What it is asked. None where the words can't be asked of a daemon.
    pub command: Option<Command<'a>>,
}

/// The daemon that is asked, and what it is asked. Takes no memory.
///
/// Words that begin with `--daemon ADDRESS` ask the daemon at that address, which is any text that does not begin
/// with `-`, what follows.
/// `apply`, `get`, `show`, `routes NODE` and `release NODE CIDR` ask the daemon that is named, where one is. No
/// daemon can be asked anything else: after `--daemon ADDRESS` that is none, and other words ask no daemon.
pub fn daemon_asked<'a>(words: &'a [String], named: Option<&'a str>) -> Option<DaemonAsk<'a>>
    ensures { option_map ask_of result
        ≡ daemon_asked (map string_bytes words.now) (option_map (λ t. t.now) named.entry) }
{
    match address_before(words) {
        Some((address, rest)) => Some(DaemonAsk {
            address,
            command: asked_of_daemon(rest),
        }),
        None => asked_by_name(words, named),
    }
}

/// The daemon that is named, and what it is asked.
fn asked_by_name<'a>(words: &'a [String], named: Option<&'a str>) -> Option<DaemonAsk<'a>>
    ensures { option_map ask_of result
        ≡ by_name (option_map (λ t. t.now) named.entry) (asked_of_daemon (map string_bytes words.now)) }
{
    match (named, asked_of_daemon(words)) {
        (Some(address), Some(command)) => Some(DaemonAsk {
            address,
            command: Some(command),
        }),
        _ => None,
    }
}

/// The address and the words after it, where the words begin with `--daemon`.
pub(crate) fn address_before<'a>(words: &'a [String]) -> Option<(&'a str, &'a [String])>
    ensures { option_map (λ found. (found.0.now, map string_bytes found.1.now)) result
        ≡ address_before (map string_bytes words.now) }
{
    match words {
        [first, address, rest @ ..] if first.as_str() == "--daemon" => {
            address_and(address.as_str(), rest)
        }
        _ => None,
    }
}

fn address_and<'a>(address: &'a str, rest: &'a [String]) -> Option<(&'a str, &'a [String])>
    ensures { option_map (λ found. (found.0.now, map string_bytes found.1.now)) result
        ≡ address_and address.now (map string_bytes rest.now) }
{
    if is_option(address) {
        None
    } else {
        Some((address, rest))
    }
}

/// What the words ask of a daemon.
fn asked_of_daemon<'a>(words: &'a [String]) -> Option<Command<'a>>
    ensures { option_map asked_by result ≡ asked_of_daemon (map string_bytes words.now) }
{
    match read_words(words) {
        Some(command) if is_of_daemon(&command) => Some(command),
        _ => None,
    }
}

/// Whether a daemon can be asked the command.
fn is_of_daemon(command: &Command<'_>) -> bool
    ensures { result ≡ is_of_daemon (asked_by command.now) }
{
    match command {
        Command::Apply
        | Command::Get(_)
        | Command::Show(_)
        | Command::Routes(_)
        | Command::Release(_, _) => true,
        Command::Cni
        | Command::Play
        | Command::Gen(_)
        | Command::Audit(_)
        | Command::Serve(_, _)
        | Command::Call(_)
        | Command::Help
        | Command::Version => false,
    }
}
