ghost use Rattle.std.specs.Prelude.{◌≡◌, IfSome, option_map, map, string_bytes};
ghost use Rattle.ipam_addr.specs.Text.{address_of};
ghost use Rattle.ipam_words.specs.Words.{IsSound, asked_by, audit_named, call_named, command_named, count_named, generated_of, first_named, get_named, is_option, more_named, other_named, small_number_of, release_named, routes_named, second_named, serve_named, word_named, workers_of};

use crate::command::Command;
use crate::kind::RowKind;
use crate::show_words::show_named;
use crate::view::View;
use ipam_addr::{is_name, read_cidr};
use ipam_json::is_index;

/// The most requests that are generated.
pub const MOST_GENERATED: u32 = 65_536;

/// The most workers of an audit and of the daemon.
pub const MOST_WORKERS: u8 = 16;

/// The command that the words name. None where they have no command's form. Takes no memory.
///
/// What follows the command's word is read exactly: a number is decimal, with no sign and no zero before
/// another digit; a node is a name; a block is written as `Cidr` writes it. An address is any text that does not
/// begin with `-`.
pub fn read_words(words: &[String]) -> Option<Command<'_>>
    ensures named { option_map asked_by result ≡ command_named (map string_bytes words.now) }
    ensures sound { IfSome result (λ command. IsSound (asked_by command)) }
{
    match words {
        [] => Some(Command::Cni),
        [word] => word_named(word.as_str()),
        [word, more @ ..] => more_named(word.as_str(), more),
    }
}

#[tactic(auto, unfolding(crate::specs::Words::more_named))]
fn more_named<'a>(word: &str, more: &'a [String]) -> Option<Command<'a>>
    ensures { option_map asked_by result ≡ more_named word.now (map string_bytes more.now) }
{
    match word {
        "show" => show_named(more),
        _ => other_named(word, more),
    }
}

fn other_named<'a>(word: &str, more: &'a [String]) -> Option<Command<'a>>
    ensures { option_map asked_by result ≡ other_named word.now (map string_bytes more.now) }
{
    match more {
        [first] => first_named(word, first.as_str()),
        [first, second] => second_named(word, first.as_str(), second.as_str()),
        _ => None,
    }
}

#[tactic(auto, unfolding(crate::specs::Words::word_named))]
fn word_named<'a>(word: &'a str) -> Option<Command<'a>>
    ensures { option_map asked_by result ≡ word_named word.now }
{
    match word {
        "cni" => Some(Command::Cni),
        "play" => Some(Command::Play),
        "apply" => Some(Command::Apply),
        "get" => Some(Command::Get(None)),
        "show" => Some(Command::Show(View::Pools)),
        "--help" => Some(Command::Help),
        "--version" => Some(Command::Version),
        _ => None,
    }
}

#[tactic(auto, unfolding(crate::specs::Words::first_named))]
fn first_named<'a>(word: &str, first: &'a str) -> Option<Command<'a>>
    ensures { option_map asked_by result ≡ first_named word.now first.now }
{
    match word {
        "get" => kind_named(first),
        "routes" => routes_named(first),
        "gen" => count_named(first),
        "audit" => audit_named(first),
        "call" => call_named(first),
        _ => None,
    }
}

/// Whether the word begins with `-`, and so names no file and no address.
pub(crate) fn is_option(word: &str) -> bool
    ensures { result ≡ is_option word.now }
{
    match word.as_bytes() {
        [first, ..] => *first == b'-',
        [] => false,
    }
}

#[tactic(auto, unfolding(crate::specs::Words::call_named))]
fn call_named<'a>(address: &'a str) -> Option<Command<'a>>
    ensures { option_map asked_by result ≡ call_named address.now }
{
    if is_option(address) {
        None
    } else {
        Some(Command::Call(address))
    }
}

fn kind_named<'a>(word: &str) -> Option<Command<'a>>
    ensures { option_map asked_by result ≡ get_named word.now }
{
    match RowKind::of(word) {
        Some(kind) => Some(Command::Get(Some(kind))),
        None => None,
    }
}

#[tactic(auto, unfolding(crate::specs::Words::routes_named))]
fn routes_named<'a>(node: &'a str) -> Option<Command<'a>>
    ensures { option_map asked_by result ≡ routes_named node.now }
{
    if is_name(node.as_bytes()) {
        Some(Command::Routes(node))
    } else {
        None
    }
}

fn count_named<'a>(word: &str) -> Option<Command<'a>>
    ensures { option_map asked_by result ≡ count_named word.now }
{
    match count_of(word) {
        Some(count) => Some(Command::Gen(count)),
        None => None,
    }
}

fn audit_named<'a>(word: &str) -> Option<Command<'a>>
    ensures { option_map asked_by result ≡ audit_named word.now }
{
    match workers_of(word) {
        Some(workers) => Some(Command::Audit(workers)),
        None => None,
    }
}

#[tactic(auto, unfolding(crate::specs::Words::second_named))]
fn second_named<'a>(word: &str, first: &'a str, second: &'a str) -> Option<Command<'a>>
    ensures { option_map asked_by result ≡ second_named word.now first.now second.now }
{
    match word {
        "release" => release_named(first, second),
        "serve" => serve_named(first, second),
        _ => None,
    }
}

#[tactic(auto, unfolding(crate::specs::Words::release_named))]
fn release_named<'a>(node: &'a str, block: &str) -> Option<Command<'a>>
    ensures { option_map asked_by result ≡ release_named node.now block.now }
{
    if !is_name(node.as_bytes()) {
        return None;
    }
    match read_cidr(block.as_bytes()) {
        Ok(cidr) => Some(Command::Release(node, cidr)),
        Err(_) => None,
    }
}

#[tactic(auto, unfolding(crate::specs::Words::serve_named))]
fn serve_named<'a>(address: &'a str, word: &str) -> Option<Command<'a>>
    ensures { option_map asked_by result ≡ serve_named address.now word.now }
{
    if is_option(address) {
        return None;
    }
    match workers_of(word) {
        Some(workers) => Some(Command::Serve(address, workers)),
        None => None,
    }
}

/// The number that the word writes in decimal, where so many requests are generated at most.
fn count_of(word: &str) -> Option<u32>
    ensures { result ≡ generated_of word.now }
{
    let count = number_of(word)?;
    if count <= MOST_GENERATED {
        Some(count)
    } else {
        None
    }
}

/// The number that the word writes in decimal, where there may be so many workers.
fn workers_of(word: &str) -> Option<u8>
    ensures { result ≡ workers_of word.now }
{
    let workers = number_of(word)?;
    if 1 <= workers && workers <= MOST_WORKERS as u32 {
        Some(workers as u8)
    } else {
        None
    }
}

/// The number that the word writes in decimal, where 32 bits hold it.
fn number_of(word: &str) -> Option<u32>
    ensures { result ≡ small_number_of word.now }
{
    if !is_index(word.as_bytes()) {
        return None;
    }
    word.parse::<u32>().ok()
}
