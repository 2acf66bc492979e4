//! The words of an audit.
ghost use Rattle.std.specs.Prelude.{◌≡◌, ◌≤◌, ◌<◌, IfSome, map, string_bytes};
ghost use Rattle.ipam_words.specs.declared.reading.TheConstants.{MOST_WORKERS};
ghost use Rattle.ipam_commands.specs.Words.{workers_asked};

use ipam_words::{Command, read_words};

/// How many workers the words `audit N` ask for. None of other words. Takes no memory.
pub(crate) fn workers_asked(words: &[String]) -> Option<u8>
    ensures value { result ≡ workers_asked (map string_bytes words.now) }
    ensures some { IfSome result (λ workers. 0 < workers) }
    ensures few { IfSome result (λ workers. workers ≤ MOST_WORKERS) }
{
    match read_words(words) {
        Some(Command::Audit(workers)) => Some(workers),
        _ => None,
    }
}
