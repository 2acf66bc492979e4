//! Which upkeep words name, and where.
ghost use Rattle.std.specs.Prelude.{◌≡◌, IfSome, map, option_map, string_bytes};
ghost use Rattle.ipam_words.specs.Upkeep.{IsFit, backup_named, help_asked, named_beside, of_upkeep, pair_named, unreserve_named, upkeep_asked, upkeep_at, upkeep_named, upkeep_of};

use crate::command::Command;
use crate::daemon::address_before;
use crate::reading::{is_option, read_words};
use ipam_addr::is_name;

/// What the words of a command line ask of a datastore, beside the commands that `read_words` reads.
#[derive(Clone, Copy)]
pub enum Upkeep<'a> {
    /// Reports what is left over in the rows, by so many workers, 1 to 16.
    Audit(u8),
    /// Puts all rows into a new database at the path, which is any text that does not begin with `-`.
    Backup(&'a str),
    /// Takes back the reservation of the name, which has the form of one.
    Unreserve(&'a str),
}

/// What is asked, and of which daemon.
#[derive(Clone, Copy)]
pub struct UpkeepAsk<'a> {
    /// The daemon's address, which is any text. None where the database is asked.
    pub daemon: Option<&'a str>,
    pub upkeep: Upkeep<'a>,
}

/// The upkeep that the words ask, of the daemon whose address stands before them behind `--daemon`, or else of
/// the daemon that is named, or else of the database. None of other words. Takes no memory.
///
/// A name has the form of a reservation's name; a number of workers is read as in `read_words`.
pub fn upkeep_asked<'a>(words: &'a [String], named: Option<&'a str>) -> Option<UpkeepAsk<'a>>
    ensures asked { option_map upkeep_of result
        ≡ upkeep_asked (map string_bytes words.now) (option_map (λ t. t.now) named.entry) }
    ensures fit { IfSome result (λ ask. IsFit (of_upkeep ask.upkeep)) }
{
    match address_before(words) {
        Some((address, rest)) => upkeep_at(Some(address), rest),
        None => upkeep_at(named, words),
    }
}

fn upkeep_at<'a>(daemon: Option<&'a str>, words: &'a [String]) -> Option<UpkeepAsk<'a>>
    ensures asked { option_map upkeep_of result
        ≡ upkeep_at (option_map (λ t. t.now) daemon.entry) (upkeep_named (map string_bytes words.now)) }
    ensures fit { IfSome result (λ ask. IsFit (of_upkeep ask.upkeep)) }
{
    match upkeep_named(words) {
        Some(upkeep) => Some(UpkeepAsk { daemon, upkeep }),
        None => None,
    }
}

/// The upkeep that the words name. `audit N` is read with the commands.
fn upkeep_named<'a>(words: &'a [String]) -> Option<Upkeep<'a>>
    ensures named { option_map of_upkeep result ≡ upkeep_named (map string_bytes words.now) }
    ensures fit { IfSome result (λ upkeep. IsFit (of_upkeep upkeep)) }
{
    match read_words(words) {
        Some(Command::Audit(workers)) => Some(Upkeep::Audit(workers)),
        Some(_) => None,
        None => named_beside(words),
    }
}

/// The upkeep that the words name, where they name no command.
fn named_beside<'a>(words: &'a [String]) -> Option<Upkeep<'a>>
    ensures named { option_map of_upkeep result ≡ named_beside (map string_bytes words.now) }
    ensures fit { IfSome result (λ upkeep. IsFit (of_upkeep upkeep)) }
{
    match words {
        [word, first] => pair_named(word.as_str(), first.as_str()),
        _ => None,
    }
}

#[tactic(auto, unfolding(crate::specs::Upkeep::pair_named))]
fn pair_named<'a>(word: &str, first: &'a str) -> Option<Upkeep<'a>>
    ensures named { option_map of_upkeep result ≡ pair_named word.now first.now }
    ensures fit { IfSome result (λ upkeep. IsFit (of_upkeep upkeep)) }
{
    match word {
        "backup" => backup_named(first),
        "unreserve" => unreserve_named(first),
        _ => None,
    }
}

#[tactic(auto, unfolding(crate::specs::Upkeep::backup_named))]
fn backup_named<'a>(path: &'a str) -> Option<Upkeep<'a>>
    ensures named { option_map of_upkeep result ≡ backup_named path.now }
    ensures fit { IfSome result (λ upkeep. IsFit (of_upkeep upkeep)) }
{
    if is_option(path) {
        None
    } else {
        Some(Upkeep::Backup(path))
    }
}

#[tactic(auto, unfolding(crate::specs::Upkeep::unreserve_named))]
fn unreserve_named<'a>(name: &'a str) -> Option<Upkeep<'a>>
    ensures named { option_map of_upkeep result ≡ unreserve_named name.now }
    ensures fit { IfSome result (λ upkeep. IsFit (of_upkeep upkeep)) }
{
    if is_name(name.as_bytes()) {
        Some(Upkeep::Unreserve(name))
    } else {
        None
    }
}

/// The word whose help is asked for, as by `get --help`. It is any text.
pub fn help_asked<'a>(words: &'a [String]) -> Option<&'a str>
    ensures { option_map (λ t. t.now) result ≡ help_asked (map string_bytes words.now) }
{
    match words {
        [word, help] if help.as_str() == "--help" => Some(word.as_str()),
        _ => None,
    }
}
