//! A script that is played, and what is to be written of it.
ghost use Rattle.std.specs.Prelude.{◌≡◌, ◌++◌, ℕ, List, [], ◌∷◌, Option, Some, None, OnOk, Ok, Err, IfErr, ◌⊎◌, ◌<◌, ◌≤◌, replicate};
ghost use Rattle.ipam_records.specs.Datastore.{Datastore};
ghost use Rattle.ipam_io.specs.Streams.{AppendsPrefix};
ghost use Rattle.ipam_model.specs.Course.{Event, Turn};
ghost use Rattle.ipam_model.specs.declared.limits.TheConstants.{SLOTS};
ghost use Rattle.ipam_model.specs.declared.entry.Entry.{Entry};
ghost use Rattle.ipam_model.specs.declared.entry.Fate.TheVariants.{Well};
ghost use Rattle.ipam_play.specs.Player.{IsGathering, IsPlaying, IsStanding, journal_of};
ghost use Rattle.ipam_play.specs.Output.{journal_text};
ghost use Rattle.ipam_play.specs.Readings.{LineReading};
ghost use Rattle.ipam_play.specs.Script.{Broken, Gathered, Script, events_of, nothing_gathered};
ghost use Rattle.ipam_play.specs.SoundLine.{IsSoundLine};
ghost use Rattle.ipam_play.specs.declared.refusal.LineRefusal.TheVariants as refusal;
ghost use Rattle.ipam_play.specs.Outcome.{IsNotRefused, line_then};
ghost use Rattle.ipam_play.specs.Writing.{AreFew, Wrote};

use crate::halt::Halt;
use crate::output::Output;
use crate::player::Player;
use ipam_answer_text::Line;
use ipam_io::Sink;
use std::alloc::Global;

/// A script that is played, and the lines of its journal that are not written yet.
#[derive(Drop)]
pub(crate) struct Game {
    pub(crate) player: Player,
    pub(crate) output: Output,
}

impl Game {
    ghost use Rattle.ipam_play.specs.Halting.{IsAt, IsBefore, IsGoing, IsAtOr, IsBeforeOr, IsLate, IsOn, IsOnOr, CountsWrites, held_by};

    /// No line was played.
    pub(crate) fn new(alloc: Global) -> Game
        ensures gathering { IsGathering result.player nothing_gathered }
        ensures standing { IsStanding result.player }
        ensures held { held_by result ≡ [] }
    {
        Game {
            player: Player::new(alloc),
            output: Output {
                text: String::new(alloc),
            },
        }
    }

    /// Plays the line. Fewer than 65,536 bytes of the journal are held after it.
    pub(crate) fn line<K: Sink>(
        &mut self,
        alloc: Global,
        sink: &mut K,
        line: &Line,
    ) -> Result<(), Halt>
        requires sound { IsSoundLine line.now }
        requires standing { IsStanding self.old.player }
        ensures standing { IsStanding self.new.player }
        ensures on { (script : Script) (first : Option (List ℕ)) (number : ℕ) (more : List LineReading)
            → IsOn script first (K.written sink.old) self.old number (Ok line.now ∷ more)
            → IsOnOr result script first (K.written sink.new) self.new number more }
        ensures few { OnOk result (AreFew (held_by self.new)) }
        ensures counts { CountsWrites result (K.write_faults sink.old) (K.write_faults sink.new) }
        ensures rest { K.write_rest sink.new ≡ K.write_rest sink.old }
    {
        match line {
            Line::Turn(slot, count) => self.turns(alloc, sink, *slot, *count),
            _ => self.step(alloc, sink, line),
        }
    }

    /// Plays so many turns, one after another.
    fn turns<K: Sink>(
        &mut self,
        alloc: Global,
        sink: &mut K,
        slot: u8,
        count: u32,
    ) -> Result<(), Halt>
        requires slot { slot < SLOTS }
        requires some { 1 ≤ count }
        requires standing { IsStanding self.old.player }
        ensures standing { IsStanding self.new.player }
        ensures turns { (script : Script) (first : Option (List ℕ)) (number : ℕ) (rest : Script)
            → IsAt script first (K.written sink.old) self.old (line_then number (replicate count (Turn slot Well)) rest)
            → IsAtOr result script first (K.written sink.new) self.new number (line_then number [] rest) }
        ensures few { OnOk result (AreFew (held_by self.new)) }
        ensures counts { CountsWrites result (K.write_faults sink.old) (K.write_faults sink.new) }
        ensures rest { K.write_rest sink.new ≡ K.write_rest sink.old }
    {
        for done in 0..count {
            self.turn(alloc, sink, slot)?;
        }
        Ok(())
    }

    /// Plays one turn. Fewer than 65,536 bytes of the journal are held after it.
    fn turn<K: Sink>(&mut self, alloc: Global, sink: &mut K, slot: u8) -> Result<(), Halt>
        requires slot { slot < SLOTS }
        requires standing { IsStanding self.old.player }
        ensures standing { IsStanding self.new.player }
        ensures turn { (script : Script) (first : Option (List ℕ)) (number : ℕ) (events : List Event) (rest : Script)
            → IsAt script first (K.written sink.old) self.old (line_then number (Turn slot Well ∷ events) rest)
            → IsAtOr result script first (K.written sink.new) self.new number (line_then number events rest) }
        ensures few { OnOk result (AreFew (held_by self.new)) }
        ensures counts { CountsWrites result (K.write_faults sink.old) (K.write_faults sink.new) }
        ensures rest { K.write_rest sink.new ≡ K.write_rest sink.old }
    {
        let line = Line::Turn(slot, 1);
        let played = self.step(alloc, sink, &line);
        drop(line);
        played
    }

    /// Plays a line of one event, or one of the base. Once the base is open, there is no memory only for an
    /// event that is not refused.
    fn step<K: Sink>(&mut self, alloc: Global, sink: &mut K, line: &Line) -> Result<(), Halt>
        requires sound { IsSoundLine line.now }
        requires standing { IsStanding self.old.player }
        ensures standing { IsStanding self.new.player }
        ensures event { (script : Script) (first : Option (List ℕ)) (number : ℕ) (event : Event) (events : List Event) (rest : Script)
            → events_of line.now ≡ Some (event ∷ [])
            → IsAt script first (K.written sink.old) self.old (line_then number (event ∷ events) rest)
            → IsAtOr result script first (K.written sink.new) self.new number (line_then number events rest) }
        ensures base { (script : Script) (first : Option (List ℕ)) (number : ℕ) (more : List LineReading)
            → events_of line.now ≡ None
            → IsBefore script first (K.written sink.old) self.old number (Ok line.now ∷ more)
            → IsBeforeOr result script first (K.written sink.new) self.new number more }
        ensures late { (script : Script) (first : Option (List ℕ)) (number : ℕ) (rest : Script)
            → events_of line.now ≡ None → rest.steps ≡ [] → rest.stops ≡ Broken number refusal.Base
            → IsGoing script first (K.written sink.old) self.old rest
            → IsLate result script first (K.written sink.new) self.new number }
        ensures wants { (event : Event) → events_of line.now ≡ Some (event ∷ []) → result ≡ Err Halt.Memory → IsNotRefused self.old.player event }
        ensures few { OnOk result (AreFew (held_by self.new)) }
        ensures counts { CountsWrites result (K.write_faults sink.old) (K.write_faults sink.new) }
        ensures rest { K.write_rest sink.new ≡ K.write_rest sink.old }
    {
        match self.player.step(alloc, line) {
            Ok(()) => self.write_journal(alloc, sink),
            Err(fault) => Err(Halt::of(fault)),
        }
    }

    /// Writes what happened, once it is large. The journal is then forgotten.
    fn write_journal<K: Sink>(&mut self, alloc: Global, sink: &mut K) -> Result<(), Halt>
        ensures wrote { (first : Option (List ℕ)) (past : List Entry) → Wrote first (K.written sink.old) (held_by self.old) past
            → OnOk result (Wrote first (K.written sink.new) (held_by self.new) (past ++ journal_of self.old.player)) }
        ensures part { result ≡ Err Halt.Write → AppendsPrefix (K.written sink.old) (K.written sink.new)
            (held_by self.old ++ journal_text (journal_of self.old.player)) }
        ensures no_memory { result ≡ Err Halt.Memory → K.written sink.new ≡ K.written sink.old }
        ensures causes { IfErr result (λ why. (why ≡ Halt.Write) ⊎ (why ≡ Halt.Memory)) }
        ensures standing { IsStanding self.old.player → IsStanding self.new.player }
        ensures forgotten { OnOk result (journal_of self.new.player ≡ []) }
        ensures gathering { (base : Gathered) → IsGathering self.old.player base → OnOk result (IsGathering self.new.player base) }
        ensures playing { (base : Gathered) (store : Datastore) (past : List Entry) → IsPlaying self.old.player base store past
            → OnOk result (IsPlaying self.new.player base store (past ++ journal_of self.old.player)) }
        ensures few { OnOk result (AreFew (held_by self.new)) }
        ensures counts { CountsWrites result (K.write_faults sink.old) (K.write_faults sink.new) }
        ensures rest { K.write_rest sink.new ≡ K.write_rest sink.old }
    {
        if self.output.take(alloc, self.player.journal()).is_err() {
            return Err(Halt::Memory);
        }
        self.player.forget();
        match self.output.write_large(sink) {
            Ok(()) => Ok(()),
            Err(_) => Err(Halt::Write),
        }
    }
}
