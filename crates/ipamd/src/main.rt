//! The program: its commands over standard input and output, and over a database file, and its daemon.
#![tactic(auto)]

ghost use Rattle.std.specs.Prelude.{IfSome};
ghost use Rattle.ipam_words.specs.Upkeep.{IsFit, of_upkeep};

mod asking;
mod causes;
mod freeing;
mod hinting;
mod new_file;
mod plugin;
mod process;
mod serving;
mod stack;
mod stored;
mod telling;
mod upkeep;
mod viewed;

use asking::{ask, asked_of, connector_of, tell_unanswered};
use ipam_call::{call, call_variables, daemon_named, database_named};
use ipam_command::NO_MEMORY;
use ipam_daemon::Host;
use ipam_io::{StdSink, StdSource};
use ipam_operator::End;
use ipam_sqlite::Waiting;
use ipam_text::Seq;
use ipam_words::{
    Command, Upkeep, UpkeepAsk, help_asked, help_of, help_text, read_words, upkeep_asked,
    words_given,
};
use plugin::{plugin_folder, run_plugin};
use process::{all_words, entries_of};
use serving::serve_database;
use stack::refused_stack;
use std::alloc::AllocError;
use std::fs::Files;
use std::io;
use std::net::{Net, TcpListener, TcpStream};
use std::process::ExitCode;
use std::thread::Threads;
use stored::{Use, run_over, waiting_of};
use telling::tell_unknown;
use upkeep::{ask_upkeep, say};

/// The word before the others for a command that takes no turn at the database, and is refused at once where another
/// process has it.
const NO_WAIT: &str = "--no-wait";

fn main(rt: HostRuntime) -> ExitCode {
    match run(&rt, rt) {
        Ok(status) => ExitCode::from(status),
        Err(AllocError) => ExitCode::from(NO_MEMORY),
    }
}

/// Runs what the words ask, and answers the exit status. `threads` is the runtime too: what makes threads.
fn run<R: Host + Files + Net<Listener = TcpListener, Stream = TcpStream> + Sync>(
    rt: &HostRuntime,
    threads: R,
) -> Result<u8, AllocError> {
    let all = all_words(rt)?;
    let entries = entries_of(rt)?;
    if let Some(folder) = plugin_folder(rt, all.as_ref())? {
        return match refused_stack(rt, true)? {
            Some(status) => Ok(status),
            None => run_plugin(rt, entries, folder.as_str()),
        };
    }
    let words = words_given(rt.alloc(), all)?;
    match words.as_slice() {
        [first, rest @ ..] if first.as_str() == NO_WAIT => {
            run_asked(rt, threads, rest, &entries, Waiting::Never)
        }
        words => run_asked(rt, threads, words, &entries, waiting_of(words)),
    }
}

/// Runs what these words ask with this environment, and answers the exit status.
fn run_asked<R: Host + Files + Net<Listener = TcpListener, Stream = TcpStream> + Sync>(
    rt: &HostRuntime,
    threads: R,
    words: &[String],
    entries: &[Seq<u8>],
    waiting: Waiting,
) -> Result<u8, AllocError> {
    if let Some(status) = refused_stack(rt, is_call(words))? {
        return Ok(status);
    }
    if let Some(text) = help_for(rt, words)? {
        return Ok(say(rt, text.as_str(), End::Done));
    }
    if let Some(asked) = upkeep_asked(words, daemon_named(entries)) {
        return run_upkeep(rt, &threads, words, entries, waiting, &asked);
    }
    if let Some(asked) = asked_of(words, entries) {
        return Ok(ask(rt, entries, &asked));
    }
    run_command_of(rt, threads, words, entries, waiting)
}

/// Whether the words make a CNI call.
fn is_call(words: &[String]) -> bool {
    matches!(read_words(words), Some(Command::Cni | Command::Call(_)))
}

/// Runs the command that the words name.
fn run_command_of<R: Host + Files + Net<Listener = TcpListener, Stream = TcpStream> + Sync>(
    rt: &HostRuntime,
    threads: R,
    words: &[String],
    entries: &[Seq<u8>],
    waiting: Waiting,
) -> Result<u8, AllocError> {
    match read_words(words) {
        Some(Command::Serve(address, workers)) => serve_database(
            rt, threads, entries, waiting, address, workers,
        ),
        Some(Command::Call(address)) => call_at(rt, entries, address),
        Some(command) => {
            run_stored(
                rt,
                &threads,
                words,
                entries,
                use_of(&command),
                waiting,
                None,
            )
        }
        None => {
            tell_unknown(rt, words);
            run_stored(rt, &threads, words, entries, Use::Keep, waiting, None)
        }
    }
}

/// What the command does with the database.
fn use_of(command: &Command<'_>) -> Use {
    match command {
        Command::Get(_) | Command::Show(_) | Command::Routes(_) | Command::Audit(_) => Use::Look,
        _ => Use::Keep,
    }
}

/// What `--help` writes, or `WORD --help` where the help tells of the word.
fn help_for(rt: &HostRuntime, words: &[String]) -> Result<Option<String>, AllocError> {
    if let Some(word) = help_asked(words) {
        return help_of(rt.alloc(), word);
    }
    match read_words(words) {
        Some(Command::Help) => Ok(Some(help_text(rt.alloc())?)),
        _ => Ok(None),
    }
}

/// Asks the daemon, or the database where no daemon is named.
fn run_upkeep<R: Threads + Sync>(
    rt: &HostRuntime,
    threads: &R,
    words: &[String],
    entries: &[Seq<u8>],
    waiting: Waiting,
    asked: &UpkeepAsk<'_>,
) -> Result<u8, AllocError>
    requires { IsFit (of_upkeep asked.now.upkeep) }
{
    if let Some(address) = asked.daemon {
        return Ok(ask_upkeep(rt, threads, entries, address, &asked.upkeep));
    }
    let aim = match asked.upkeep {
        Upkeep::Unreserve(_) => Use::Keep,
        Upkeep::Audit(_) | Upkeep::Backup(_) => Use::Look,
    };
    run_stored(
        rt,
        threads,
        words,
        entries,
        aim,
        waiting,
        Some(&asked.upkeep),
    )
}

/// Makes a CNI call of the daemon, over standard input and output.
pub(crate) fn call_at(
    rt: &HostRuntime,
    entries: &[Seq<u8>],
    address: &str,
) -> Result<u8, AllocError> {
    let variables = call_variables(rt.alloc(), entries)?;
    let mut connector = connector_of(rt, entries);
    let mut source = StdSource::new(rt.stdin());
    let mut sink = StdSink::new(io::writer(rt));
    let status = call(
        rt.alloc(),
        &mut connector,
        address,
        &variables,
        &mut source,
        &mut sink,
    );
    tell_unanswered(rt, address, connector.why());
    Ok(status)
}

/// Runs a command of the database, or its upkeep. It is opened once its rows are asked for.
fn run_stored<R: Threads + Sync>(
    rt: &HostRuntime,
    threads: &R,
    words: &[String],
    entries: &[Seq<u8>],
    aim: Use,
    waiting: Waiting,
    upkeep: Option<&Upkeep<'_>>,
) -> Result<u8, AllocError>
    requires { IfSome upkeep (λ asked. IsFit (of_upkeep asked.now)) }
{
    let variables = call_variables(rt.alloc(), entries)?;
    let database = database_named(rt.alloc(), entries)?;
    Ok(run_over(
        rt, threads, words, &variables, &database, aim, waiting, upkeep,
    ))
}
