//! Commands over the database.
ghost use Rattle.std.specs.Prelude.{IfSome};
ghost use Rattle.ipam_words.specs.Upkeep.{IsFit, of_upkeep};

use crate::freeing::Freeing;
use crate::hinting::{KeptSink, KeptSource, hint_kept};
use crate::telling::{tell_missing, tell_no_path, tell_reading, tell_why};
use crate::upkeep::{Rows, back_up};
use ipam_call::Database;
use ipam_command::run_command;
use ipam_commands::{run_audit, unreserve};
use ipam_io::{StdSink, StdSource};
use ipam_keeper::Keeper;
use ipam_sqlite::{FileKeeper, Waiting};
use ipam_text::Text;
use ipam_words::{Command, Upkeep, read_words};
use std::io;
use std::thread::Threads;

/// The path of no file: a keeper over it fails where it would open the file.
const NO_PATH: &str = "";

/// What a command does with the database.
#[derive(Clone, Copy)]
pub(crate) enum Use {
    /// It reads and writes it, and makes it where it is not there.
    Keep,
    /// It reads it.
    Look,
}

/// How long a command waits for its turn at the database: a CNI call without a word. None does where the words
/// begin with `--no-wait`.
pub(crate) fn waiting_of(words: &[String]) -> Waiting {
    match read_words(words) {
        Some(Command::Cni) => Waiting::Silent,
        _ => Waiting::Told,
    }
}

/// Runs the command over the database, or its upkeep. The database is opened once its rows are asked for.
/// `threads` is the runtime too: what makes threads.
pub(crate) fn run_over<R: Threads + Sync>(
    rt: &HostRuntime,
    threads: &R,
    words: &[String],
    variables: &[(Text, Text)],
    database: &Database,
    aim: Use,
    waiting: Waiting,
    upkeep: Option<&Upkeep<'_>>,
) -> u8
    requires { IfSome upkeep (λ asked. IsFit (of_upkeep asked.now)) }
{
    if upkeep.is_some() || reads_rows(words) {
        tell_reading(rt, path_of(database));
    }
    let keeper = keeper_of(rt, database, aim).waiting(waiting);
    let mut keeper = Freeing::new(rt.alloc(), keeper);
    let status = run_kept(rt, threads, words, variables, upkeep, &mut keeper);
    if let Some(Command::Cni) = read_words(words) {
        keeper.tell(rt, variables, status);
    }
    tell_end(rt, database, aim, keeper.keeper());
    status
}

/// The path of the database's file.
fn path_of(database: &Database) -> &str {
    match database {
        Database::File(path) => path.as_str(),
        Database::NoPath => NO_PATH,
    }
}

/// The keeper of the database's rows. One over no file only reads, whatever the command does.
pub(crate) fn keeper_of(rt: &HostRuntime, database: &Database, aim: Use) -> FileKeeper {
    match (database, aim) {
        (Database::File(path), Use::Keep) => FileKeeper::new(rt, path.as_str()),
        _ => FileKeeper::reader(rt, path_of(database)),
    }
}

/// Tells why the keeper failed, if it did, or that a command looked at a file that is not there.
pub(crate) fn tell_end(rt: &HostRuntime, database: &Database, aim: Use, keeper: &FileKeeper) {
    match (database, keeper.why(), aim) {
        (Database::File(path), Some(why), _) => tell_why(rt, path.as_str(), why),
        (Database::File(path), None, Use::Look) => tell_missing(rt, path.as_str()),
        (Database::NoPath, Some(_), _) => tell_no_path(rt),
        _ => {}
    }
}

/// Whether the command begins with reading all rows.
fn reads_rows(words: &[String]) -> bool {
    match read_words(words) {
        None | Some(Command::Play | Command::Gen(_) | Command::Help | Command::Version) => false,
        Some(_) => true,
    }
}

/// Runs the command over standard input and output and the keeper. Which keeper it is stays open here, since each
/// call of code for any keeper with that of files is dear to prove.
fn run_kept<R: Threads + Sync, D: Keeper + Rows>(
    rt: &HostRuntime,
    threads: &R,
    words: &[String],
    variables: &[(Text, Text)],
    upkeep: Option<&Upkeep<'_>>,
    keeper: &mut D,
) -> u8
    requires { IfSome upkeep (λ asked. IsFit (of_upkeep asked.now)) }
{
    match upkeep {
        Some(Upkeep::Unreserve(name)) => {
            let mut sink = StdSink::new(io::writer(rt));
            unreserve(rt.alloc(), &mut sink, keeper, name).code()
        }
        Some(Upkeep::Backup(path)) => back_up(rt, path, keeper),
        Some(Upkeep::Audit(_)) => run_workers(rt, threads, words, keeper),
        None => run_words(rt, words, variables, keeper),
    }
}

/// Runs the audit that the words name.
fn run_workers<R: Threads + Sync, D: Keeper>(
    rt: &HostRuntime,
    threads: &R,
    words: &[String],
    keeper: &mut D,
) -> u8 {
    let mut sink = StdSink::new(io::writer(rt));
    run_audit(threads, rt.alloc(), words, &mut sink, keeper)
}

/// Runs a command that needs no threads.
fn run_words<D: Keeper>(
    rt: &HostRuntime,
    words: &[String],
    variables: &[(Text, Text)],
    keeper: &mut D,
) -> u8 {
    let mut source = KeptSource::new(rt.alloc(), StdSource::new(rt.stdin()), words);
    let mut sink = KeptSink::new(rt.alloc(), StdSink::new(io::writer(rt)));
    let status = run_command(rt.alloc(), words, variables, &mut source, &mut sink, keeper);
    hint_kept(
        rt,
        words,
        variables,
        source.document(),
        sink.shown(),
        status,
        keeper,
    );
    status
}
