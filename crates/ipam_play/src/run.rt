//! Scripts are played from a source to a sink.
ghost use Rattle.std.specs.Prelude.{◌≡◌, ◌≢◌, [], IfSome};
ghost use Rattle.std.specs.Io.KnownBytes.{IsAtEnd};
ghost use Rattle.ipam_io.specs.Counts.{Rose};
ghost use Rattle.ipam_play.specs.Halting.{held_by};
ghost use Rattle.ipam_play.specs.Player.{IsGathering, IsStanding};
ghost use Rattle.ipam_play.specs.Readings.{readings};
ghost use Rattle.ipam_play.specs.Script.{nothing_gathered, script_of};
ghost use Rattle.ipam_play.specs.Writing.{HasWrittenJournal, WritesSoFar};

use crate::end::PlayEnd;
use crate::game::Game;
use crate::halt::Halt;
use crate::lines::{Next, ScriptFault, ScriptLines};
use ipam_io::{Sink, Source};
use std::alloc::Global;

/// Plays the script that the source gives, and writes its journal to the sink. After each line fewer than
/// 65,536 bytes of the journal are held.
///
/// Where a read fails, the lines of all entries so far are written, and the fault after them: of each line
/// that was read whole, whichever read it is.
pub fn play<S: Source, K: Sink>(alloc: Global, source: &mut S, sink: &mut K) -> PlayEnd
    ensures written { IfSome (S.left source.old) (λ bytes.
        HasWrittenJournal result (script_of (readings bytes)) (K.written sink.old) (K.written sink.new)) }
    ensures so_far { result ≡ PlayEnd.ReadFault
        → WritesSoFar (S.left source.old) (S.left source.new) (K.written sink.old) (K.written sink.new) }
    ensures read { result ≡ PlayEnd.Done → IsAtEnd (S.left source.new) }
    ensures read_fault { result ≡ PlayEnd.ReadFault → Rose (S.read_faults source.old) (S.read_faults source.new) }
    ensures no_read_fault { result ≢ PlayEnd.ReadFault → result ≢ PlayEnd.WriteFault
        → S.read_faults source.new ≡ S.read_faults source.old }
    ensures write_fault { result ≡ PlayEnd.WriteFault → Rose (K.write_faults sink.old) (K.write_faults sink.new) }
    ensures no_write_fault { result ≢ PlayEnd.WriteFault → K.write_faults sink.new ≡ K.write_faults sink.old }
    ensures source_rest { S.read_rest source.new ≡ S.read_rest source.old }
    ensures sink_rest { K.write_rest sink.new ≡ K.write_rest sink.old }
{
    let mut lines = ScriptLines::new(alloc);
    let mut game = Game::new(alloc);
    play_lines(alloc, source, sink, &mut lines, &mut game)
}

/// Plays the script by lines of which none was read and a game in which none was played.
fn play_lines<S: Source, K: Sink>(
    alloc: Global,
    source: &mut S,
    sink: &mut K,
    lines: &mut ScriptLines,
    game: &mut Game,
) -> PlayEnd
    requires unread { lines.old.lines ≡ [] }
    requires start { lines.old.before.bytes ≡ 0 }
    requires gathering { IsGathering game.old.player nothing_gathered }
    requires standing { IsStanding game.old.player }
    requires held { held_by game.old ≡ [] }
    ensures written { IfSome (S.left source.old) (λ bytes.
        HasWrittenJournal result (script_of (readings bytes)) (K.written sink.old) (K.written sink.new)) }
    ensures so_far { result ≡ PlayEnd.ReadFault
        → WritesSoFar (S.left source.old) (S.left source.new) (K.written sink.old) (K.written sink.new) }
    ensures read { result ≡ PlayEnd.Done → IsAtEnd (S.left source.new) }
    ensures read_fault { result ≡ PlayEnd.ReadFault → Rose (S.read_faults source.old) (S.read_faults source.new) }
    ensures no_read_fault { result ≢ PlayEnd.ReadFault → result ≢ PlayEnd.WriteFault
        → S.read_faults source.new ≡ S.read_faults source.old }
    ensures write_fault { result ≡ PlayEnd.WriteFault → Rose (K.write_faults sink.old) (K.write_faults sink.new) }
    ensures no_write_fault { result ≢ PlayEnd.WriteFault → K.write_faults sink.new ≡ K.write_faults sink.old }
    ensures source_rest { S.read_rest source.new ≡ S.read_rest source.old }
    ensures sink_rest { K.write_rest sink.new ≡ K.write_rest sink.old }
{
    let mut number: u64 = 1;
    loop {
        match lines.next(alloc, source) {
            Ok(Next::Line(line)) => {
                let played = game.line(alloc, sink, &line);
                drop(line);
                if let Err(halt) = played {
                    return game.halted(sink, number, halt);
                }
            }
            Ok(Next::Last(line)) => {
                let end = game.last_line(alloc, sink, number, &line);
                drop(line);
                return end;
            }
            Ok(Next::Refused(why)) => return game.halted(sink, number, Halt::Refused(why)),
            Ok(Next::End) => return game.finish(alloc, sink, number),
            Err(ScriptFault::Read) => return game.read_fault(sink),
            Err(ScriptFault::Memory) => return PlayEnd::NoMemory,
        }
        number += 1;
    }
}
