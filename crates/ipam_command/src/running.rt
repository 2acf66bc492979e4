//! A command is run.
ghost use Rattle.std.specs.Prelude.{◌≡◌, Some, false, map, string_bytes, true};
ghost use Rattle.std.specs.Io.KnownBytes.{IsAtEnd};
ghost use Rattle.ipam_io.specs.Counts.{Rose};
ghost use Rattle.ipam_words.specs.Words.{IsSound, Play, asked_by, command_named};
ghost use Rattle.ipam_command.specs.Commands.{Does, SaysFixedText, unknown_text};
ghost use Rattle.ipam_keeper.specs.Outside.{outside_of};
ghost use Rattle.ipam_command.specs.Rules.{CompleteLaw, asks_keeper, reads};

use crate::cni_run::cni;
use crate::gen_whole::generate;
use crate::statuses::{code_of_gen, code_of_play};
use ipam_commands::{DONE, UNKNOWN_WORDS, WRITE_FAULT, apply, get, release, routes, show};
use ipam_io::{Sink, Source};
use ipam_keeper::Keeper;
use ipam_play::play;
use ipam_text::Text;
use ipam_words::{Command, HELP, VERSION, read_words};
use std::alloc::Global;

/// Runs the command that the words name, and answers the exit status. It always returns.
///
/// Only `play`, `apply` and `cni` read the source, only `cni` looks at the environment, and the
/// keeper is not asked by `play` and `gen`. Words that name no command are answered `unknown words`; so are
/// those of an audit, of the daemon and of its client, which are run by `run_audit`, `serve` and `call`.
///
/// `does` is the whole contract. The other clauses follow from it, each a rule by itself: which status has which
/// cause, what is left as it was, and that nothing is left unsaid.
pub fn run_command<S: Source, K: Sink, D: Keeper>(
    alloc: Global,
    words: &[String],
    env: &[(Text, Text)],
    source: &mut S,
    sink: &mut K,
    keeper: &mut D,
) -> u8
    ensures does { Does (keeper.new ≡ keeper.old) env.now (command_named (map string_bytes words.now))
        (outside_of (S.left source.old) (S.read_faults source.old) (K.written sink.old) (K.write_faults sink.old) (D.rows keeper.old) (D.faults keeper.old))
        (outside_of (S.left source.new) (S.read_faults source.new) (K.written sink.new) (K.write_faults sink.new)
        (D.rows keeper.new) (D.faults keeper.new)) result }

    ensures status_0 { result ≡ 0 → reads (command_named (map string_bytes words.now)) ≡ true → IsAtEnd (S.left source.new) }
    ensures status_2_source { result ≡ 2 → (S.left source.new ≡ S.left source.old) × (S.read_faults source.new ≡ S.read_faults source.old) }
    ensures status_2_keeper { result ≡ 2 → (D.rows keeper.new ≡ D.rows keeper.old) × (D.faults keeper.new ≡ D.faults keeper.old) }
    ensures status_3 { result ≡ 3 → Rose (S.read_faults source.old) (S.read_faults source.new) }
    ensures status_4 { result ≡ 4 → Rose (K.write_faults sink.old) (K.write_faults sink.new) }
    ensures status_5 { result ≡ 5 → Rose (D.faults keeper.old) (D.faults keeper.new) }
    ensures status_7 { result ≡ 7 → D.rows keeper.new ≡ D.rows keeper.old }
    ensures status_8 { result ≡ 8 → command_named (map string_bytes words.now) ≡ Some Play }

    ensures unread { reads (command_named (map string_bytes words.now)) ≡ false → (S.left source.new ≡ S.left source.old) × (S.read_faults source.new ≡ S.read_faults source.old) }
    ensures unasked { asks_keeper (command_named (map string_bytes words.now)) ≡ false → (D.rows keeper.new ≡ D.rows keeper.old) × (D.faults keeper.new ≡ D.faults keeper.old) }
    ensures complete { CompleteLaw env.now (command_named (map string_bytes words.now))
        (outside_of (S.left source.old) (S.read_faults source.old) (K.written sink.old) (K.write_faults sink.old) (D.rows keeper.old) (D.faults keeper.old))
        (outside_of (S.left source.new) (S.read_faults source.new) (K.written sink.new) (K.write_faults sink.new)
        (D.rows keeper.new) (D.faults keeper.new)) result }

    ensures source_rest { S.read_rest source.new ≡ S.read_rest source.old }
    ensures sink_rest { K.write_rest sink.new ≡ K.write_rest sink.old }
{
    run_named(alloc, words, env, source, sink, keeper)
}

/// Runs the command that the words name.
fn run_named<S: Source, K: Sink, D: Keeper>(
    alloc: Global,
    words: &[String],
    env: &[(Text, Text)],
    source: &mut S,
    sink: &mut K,
    keeper: &mut D,
) -> u8
    ensures does { Does (keeper.new ≡ keeper.old) env.now (command_named (map string_bytes words.now))
        (outside_of (S.left source.old) (S.read_faults source.old) (K.written sink.old) (K.write_faults sink.old) (D.rows keeper.old) (D.faults keeper.old))
        (outside_of (S.left source.new) (S.read_faults source.new) (K.written sink.new) (K.write_faults sink.new)
        (D.rows keeper.new) (D.faults keeper.new)) result }
    ensures source_rest { S.read_rest source.new ≡ S.read_rest source.old }
    ensures sink_rest { K.write_rest sink.new ≡ K.write_rest sink.old }
{
    match read_words(words) {
        Some(command) => run(alloc, &command, env, source, sink, keeper),
        None => unknown(sink),
    }
}

/// Runs the command.
fn run<S: Source, K: Sink, D: Keeper>(
    alloc: Global,
    command: &Command<'_>,
    env: &[(Text, Text)],
    source: &mut S,
    sink: &mut K,
    keeper: &mut D,
) -> u8
    requires { IsSound (asked_by command.now) }
    ensures does { Does (keeper.new ≡ keeper.old) env.now (Some (asked_by command.now))
        (outside_of (S.left source.old) (S.read_faults source.old) (K.written sink.old) (K.write_faults sink.old) (D.rows keeper.old) (D.faults keeper.old))
        (outside_of (S.left source.new) (S.read_faults source.new) (K.written sink.new) (K.write_faults sink.new)
        (D.rows keeper.new) (D.faults keeper.new)) result }
    ensures source_rest { S.read_rest source.new ≡ S.read_rest source.old }
    ensures sink_rest { K.write_rest sink.new ≡ K.write_rest sink.old }
{
    match command {
        Command::Play => code_of_play(play(alloc, source, sink)),
        Command::Gen(count) => code_of_gen(generate(alloc, *count, sink)),
        Command::Get(kind) => get(alloc, sink, keeper, *kind).code(),
        Command::Show(view) => show(alloc, sink, keeper, view).code(),
        Command::Routes(node) => routes(alloc, sink, keeper, node).code(),
        Command::Release(node, block) => release(alloc, sink, keeper, node, *block).code(),
        Command::Cni => cni(alloc, env, source, sink, keeper),
        Command::Apply => apply(alloc, source, sink, keeper).code(),
        Command::Help => say(sink, HELP, DONE),
        Command::Version => say(sink, VERSION, DONE),
        Command::Audit(_) | Command::Serve(_, _) | Command::Call(_) => unknown(sink),
    }
}

/// The words name no command that is run here.
fn unknown<K: Sink>(sink: &mut K) -> u8
    ensures said { SaysFixedText unknown_text UNKNOWN_WORDS (K.written sink.old) (K.written sink.new) (K.write_faults sink.old) (K.write_faults sink.new) result }
    ensures rest { K.write_rest sink.new ≡ K.write_rest sink.old }
{
    say(sink, "unknown words\n", UNKNOWN_WORDS)
}

/// Writes the text, and answers its status.
fn say<K: Sink>(sink: &mut K, text: &str, own: u8) -> u8
    ensures said { SaysFixedText text.now own (K.written sink.old) (K.written sink.new) (K.write_faults sink.old) (K.write_faults sink.new) result }
    ensures rest { K.write_rest sink.new ≡ K.write_rest sink.old }
{
    match sink.write(text.as_bytes()) {
        Ok(()) => own,
        Err(_) => WRITE_FAULT,
    }
}
