//! How a script that is played ends.
ghost use Rattle.std.specs.Prelude.{◌≡◌, ◌≢◌, ◌⊎◌, ◌∷◌, [], ℕ, List, Option, Ok};
ghost use Rattle.ipam_records.specs.Datastore.{Datastore};
ghost use Rattle.ipam_model.specs.declared.entry.Entry.{Entry};
ghost use Rattle.ipam_play.specs.Player.{IsPlaying, IsStanding};
ghost use Rattle.ipam_play.specs.Readings.{LineReading};
ghost use Rattle.ipam_play.specs.Script.{Gathered, Script};
ghost use Rattle.ipam_play.specs.SoundLine.{IsSoundLine};
ghost use Rattle.ipam_play.specs.Writing.{CountsEnd, HasWrittenJournal, WroteSoFar, ended_so};

use crate::end::PlayEnd;
use crate::game::Game;
use crate::halt::Halt;
use crate::output::Output;
use crate::refusal::LineRefusal;
use ipam_answer_text::Line;
use ipam_io::{Failed, Sink};
use ipam_text::Text;
use itoa::Buffer;
use std::alloc::Global;

impl Game {
    ghost use Rattle.ipam_play.specs.Halting.{IsHalted, IsOn};

    /// Plays the last line, which has no line end.
    pub(crate) fn last_line<K: Sink>(
        &mut self,
        alloc: Global,
        sink: &mut K,
        number: u64,
        line: &Line,
    ) -> PlayEnd
        requires sound { IsSoundLine line.now }
        requires standing { IsStanding self.old.player }
        ensures written { (script : Script) (first : Option (List ℕ)) → IsOn script first (K.written sink.old) self.old number (Ok line.now ∷ [])
            → HasWrittenJournal result script first (K.written sink.new) }
        ensures no_read_fault { result ≢ PlayEnd.ReadFault }
        ensures counts { CountsEnd result (K.write_faults sink.old) (K.write_faults sink.new) }
        ensures rest { K.write_rest sink.new ≡ K.write_rest sink.old }
    {
        match self.line(alloc, sink, line) {
            Ok(()) => self.finish(alloc, sink, number),
            Err(halt) => self.halted(sink, number, halt),
        }
    }

    /// The script is at its end. Once the base is open, this takes no memory.
    pub(crate) fn finish<K: Sink>(&mut self, alloc: Global, sink: &mut K, number: u64) -> PlayEnd
        ensures written { (script : Script) (first : Option (List ℕ)) (next : ℕ) → IsOn script first (K.written sink.old) self.old next []
            → HasWrittenJournal result script first (K.written sink.new) }
        ensures no_read_fault { result ≢ PlayEnd.ReadFault }
        ensures no_memory { (base : Gathered) (store : Datastore) (past : List Entry) → IsPlaying self.old.player base store past → result ≢ PlayEnd.NoMemory }
        ensures counts { CountsEnd result (K.write_faults sink.old) (K.write_faults sink.new) }
        ensures rest { K.write_rest sink.new ≡ K.write_rest sink.old }
    {
        match self.player.finish(alloc) {
            Ok(()) => ended(self.output.end(sink, &[]), PlayEnd::Done),
            Err(fault) => self.halted(sink, number, Halt::of(fault)),
        }
    }

    /// The script is not played on from this line. Telling so takes no memory.
    pub(crate) fn halted<K: Sink>(&self, sink: &mut K, number: u64, halt: Halt) -> PlayEnd
        ensures written { (script : Script) (first : Option (List ℕ)) → IsHalted halt script first (K.written sink.old) self.now number
            → HasWrittenJournal result script first (K.written sink.new) }
        ensures no_read_fault { result ≢ PlayEnd.ReadFault }
        ensures not_done { result ≢ PlayEnd.Done }
        ensures no_memory { halt ≢ Halt.Memory → result ≢ PlayEnd.NoMemory }
        ensures counts { halt ≢ Halt.Write → CountsEnd result (K.write_faults sink.old) (K.write_faults sink.new) }
        ensures write { halt ≡ Halt.Write → result ≡ PlayEnd.WriteFault }
        ensures write_count { halt ≡ Halt.Write → K.write_faults sink.new ≡ K.write_faults sink.old }
        ensures rest { K.write_rest sink.new ≡ K.write_rest sink.old }
    {
        match halt {
            Halt::Refused(why) => self.output.refused(sink, number, why),
            Halt::NotOpened(rule, about) => self.output.not_opened(sink, rule, &about),
            Halt::Write => PlayEnd::WriteFault,
            Halt::Memory => PlayEnd::NoMemory,
        }
    }

    /// A read of the source failed. The lines of all entries so far are written, and the fault after them.
    pub(crate) fn read_fault<K: Sink>(&self, sink: &mut K) -> PlayEnd
        ensures written { (script : Script) (first : Option (List ℕ)) (number : ℕ) (more : List LineReading) → IsOn script first (K.written sink.old) self.now number more
            → HasWrittenJournal result script first (K.written sink.new) }
        ensures so_far { (script : Script) (first : Option (List ℕ)) (number : ℕ) → IsOn script first (K.written sink.old) self.now number []
            → result ≡ PlayEnd.ReadFault → WroteSoFar script first (K.written sink.new) }
        ensures faults { (result ≡ PlayEnd.ReadFault) ⊎ (result ≡ PlayEnd.WriteFault) }
        ensures counts { CountsEnd result (K.write_faults sink.old) (K.write_faults sink.new) }
        ensures rest { K.write_rest sink.new ≡ K.write_rest sink.old }
    {
        ended(self.output.end(sink, &["read fault\n"]), PlayEnd::ReadFault)
    }
}

impl Output {
    ghost use Rattle.ipam_play.specs.Played.{IsPlayed, LineRefused, NotOpened};
    ghost use Rattle.ipam_play.specs.Writing.{Wrote, held_in};

    /// The line is refused.
    fn refused<K: Sink>(&self, sink: &mut K, number: u64, why: LineRefusal) -> PlayEnd
        ensures written { (script : Script) (first : Option (List ℕ)) (past : List Entry)
            → Wrote first (K.written sink.old) (held_in self.now) past → IsPlayed script past (LineRefused number why)
            → HasWrittenJournal result script first (K.written sink.new) }
        ensures no_read_fault { result ≢ PlayEnd.ReadFault }
        ensures not_done { result ≢ PlayEnd.Done }
        ensures no_memory { result ≢ PlayEnd.NoMemory }
        ensures counts { CountsEnd result (K.write_faults sink.old) (K.write_faults sink.new) }
        ensures rest { K.write_rest sink.new ≡ K.write_rest sink.old }
    {
        let mut digits = Buffer::new();
        let last = ["line ", digits.format(number), ": ", why.text(), "\n"];
        ended(self.end(sink, &last), PlayEnd::LineRefused)
    }

    /// The base is refused.
    fn not_opened<K: Sink>(&self, sink: &mut K, rule: u8, about: &Text) -> PlayEnd
        ensures written { (script : Script) (first : Option (List ℕ)) (past : List Entry)
            → Wrote first (K.written sink.old) (held_in self.now) past → IsPlayed script past (NotOpened rule about.now)
            → HasWrittenJournal result script first (K.written sink.new) }
        ensures no_read_fault { result ≢ PlayEnd.ReadFault }
        ensures not_done { result ≢ PlayEnd.Done }
        ensures no_memory { result ≢ PlayEnd.NoMemory }
        ensures counts { CountsEnd result (K.write_faults sink.old) (K.write_faults sink.new) }
        ensures rest { K.write_rest sink.new ≡ K.write_rest sink.old }
    {
        let mut digits = Buffer::new();
        let last = [
            "datastore OR",
            digits.format(rule),
            " ",
            about.as_str(),
            "\n",
        ];
        ended(self.end(sink, &last), PlayEnd::NotOpened)
    }
}

/// How it ended, with the last line to be written.
fn ended(written: Result<(), Failed>, end: PlayEnd) -> PlayEnd
    ensures { result ≡ ended_so written end }
{
    match written {
        Ok(()) => end,
        Err(_) => PlayEnd::WriteFault,
    }
}
