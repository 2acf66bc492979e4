//! The lines of a script, read of a source one after another.
ghost use Rattle.std.specs.Prelude.{◌≡◌, ◌+◌, ◌++◌, ◌<◌, ◌≤◌, [], List, ℕ, true, length, slice_index, take, IfOk, IfErr, IfNone, IfSome, OnErr, OnOk};
ghost use Rattle.ipam_io.specs.Counts.{Rose};
ghost use Rattle.ipam_io.specs.Feeds.{HasNoFeed};
ghost use Rattle.ipam_answer_text.specs.Lines.{Whole, is_long, told_line};
ghost use Rattle.ipam_answer_text.specs.declared.limits.TheConstants.{MOST_SCRIPT_BYTES};
ghost use Rattle.std.specs.Io.KnownBytes.{IsAtEnd};
ghost use Rattle.ipam_play.specs.Readings.{line_reading_of, coming, IfLine, IsLineEnd, IsNextOf, IsTold, IsLastTold, OnEnd, OnLine, Takes, UnlessRead};
ghost use Rattle.ipam_play.specs.SoundLine.{IsSoundLine};

use crate::offset::Offset;
use crate::refusal::LineRefusal;
use ipam_answer_text::{Line, LineFault, MOST_LINE_BYTES, MOST_SCRIPT_BYTES, read_line};
use ipam_io::{Got, Lines, LinesFault, Source};
use std::alloc::{AllocError, Global};

/// The most bytes of a line and its line end.
const LINE_LIMIT: usize = MOST_LINE_BYTES + 1;

/// What comes next in a script.
#[derive(Drop)]
pub enum Next {
    /// A line that has a line end.
    Line(Line),
    /// A last line that has no line end.
    Last(Line),
    /// A line that is refused whatever was before it.
    Refused(LineRefusal),
    /// The script ended.
    End,
}

/// Why nothing could be read.
#[derive(Clone, Copy)]
pub enum ScriptFault {
    /// A read of the source failed.
    Read,
    /// There was no memory.
    Memory,
}

/// The lines of a script that are still to come.
#[derive(Drop)]
pub struct ScriptLines {
    lines: Lines<LINE_LIMIT>,
    /// How many bytes stand before them in the script.
    before: Offset,
}

impl ScriptLines {
    /// The lines of a script of which nothing was read.
    pub fn new(alloc: Global) -> ScriptLines
        ensures held { result.lines ≡ [] }
        ensures before { result.before.bytes ≡ 0 }
    {
        ScriptLines {
            lines: Lines::new(alloc),
            before: Offset { bytes: 0 },
        }
    }

    /// The next line, or that the script ended. A line that is refused, and a fault, end the reading:
    /// no contract states what comes after them.
    ///
    /// `Memory` is returned only for a line that, as far as its bytes were read, is not too long.
    pub fn next<S: Source>(&mut self, alloc: Global, source: &mut S) -> Result<Next, ScriptFault>
        ensures next { IsNextOf result (coming self.old (S.left source.old)) (coming self.new (S.left source.new)) }
        ensures takes { Takes result self.old self.new (S.left source.old) (S.left source.new) }
        ensures sound { IfLine result IsSoundLine }
        ensures end { OnEnd result (IsAtEnd (S.left source.new)) }
        ensures onward { OnLine result (self.old.before.bytes < self.new.before.bytes) }
        ensures within { OnLine result (self.new.before.bytes ≤ 67108865) }
        ensures fault { IfErr result (λ e. e ≡ ScriptFault.Read
            → Rose (S.read_faults source.old) (S.read_faults source.new)) }
        ensures no_fault { UnlessRead result
            (S.read_faults source.new ≡ S.read_faults source.old) }
        ensures never_falls { S.read_faults source.old ≤ S.read_faults source.new }
        ensures rest { S.read_rest source.new ≡ S.read_rest source.old }
    {
        match self.lines.next(source) {
            Ok(Got::Line(bytes)) => self.line(alloc, &bytes),
            Ok(Got::Cut) => self.last(alloc),
            Ok(Got::End) => Ok(Next::End),
            Err(LinesFault::TooLong) => Ok(Next::Refused(LineRefusal::Long)),
            Err(LinesFault::Read) => Err(ScriptFault::Read),
            Err(LinesFault::Memory) => self.wanting(),
        }
    }

    /// What comes of a line for which there was no memory. The line is refused where the bytes of it
    /// that are held are too many already.
    fn wanting(&self) -> Result<Next, ScriptFault>
        ensures refused { IfOk result (λ n. n ≡ Next.Refused LineRefusal.Long) }
        ensures fault { IfErr result (λ e. e ≡ ScriptFault.Memory) }
        ensures cut { (bytes rest : List ℕ) × (self.now.lines ≡ bytes ++ rest) × IsLineEnd rest × HasNoFeed bytes
            × OnOk result (is_long self.now.before.bytes bytes ≡ true)
            × OnErr result (told_line self.now.before.bytes bytes ≡ Whole bytes) }
    {
        if is_long(self.before, line_part(self.lines.held())) {
            return Ok(Next::Refused(LineRefusal::Long));
        }
        Err(ScriptFault::Memory)
    }

    /// What the line of these bytes asks.
    fn line(&mut self, alloc: Global, bytes: &[u8]) -> Result<Next, ScriptFault>
        requires { length bytes.now < LINE_LIMIT }
        ensures told { IsTold result (line_reading_of (told_line self.old.before.bytes bytes.now)) }
        ensures sound { IfLine result IsSoundLine }
        ensures lines { self.new.lines ≡ self.old.lines }
        ensures before { OnLine result (self.new.before.bytes ≡ self.old.before.bytes + length bytes.now + 1) }
        ensures within { OnLine result (self.new.before.bytes ≤ 67108865) }
        ensures not_long { OnErr result (told_line self.old.before.bytes bytes.now ≡ Whole bytes.now) }
    {
        match asked(alloc, self.before, bytes) {
            Ok(Ok(line)) => {
                self.before = Offset {
                    bytes: self.before.bytes + bytes.len() as u64 + 1,
                };
                Ok(Next::Line(line))
            }
            Ok(Err(why)) => Ok(Next::Refused(why)),
            Err(_) => Err(ScriptFault::Memory),
        }
    }

    /// What the bytes ask that are left where the script ended.
    fn last(&self, alloc: Global) -> Result<Next, ScriptFault>
        requires { length self.now.lines < LINE_LIMIT }
        ensures told { IsLastTold result (line_reading_of (told_line self.now.before.bytes self.now.lines)) }
        ensures sound { IfLine result IsSoundLine }
        ensures not_long { OnErr result (told_line self.now.before.bytes self.now.lines ≡ Whole self.now.lines) }
    {
        match asked(alloc, self.before, self.lines.held()) {
            Ok(Ok(line)) => Ok(Next::Last(line)),
            Ok(Err(why)) => Ok(Next::Refused(why)),
            Err(_) => Err(ScriptFault::Memory),
        }
    }
}

/// What the bytes of a line ask, before which so many stand in the script.
#[tactic(auto, using(crate::proofs::SoundLines::reading_sound))]
fn asked(
    alloc: Global,
    before: Offset,
    bytes: &[u8],
) -> Result<Result<Line, LineRefusal>, AllocError>
    requires short { length bytes.now < LINE_LIMIT }
    ensures reading { IfOk result (λ r. r ≡ line_reading_of (told_line before.bytes bytes.now)) }
    ensures sound { IfOk result (λ r. IfOk r IsSoundLine) }
    ensures in_time { IfOk result (λ r. IfOk r (λ line. before.bytes + length bytes.now ≤ MOST_SCRIPT_BYTES)) }
    ensures not_long { OnErr result (told_line before.bytes bytes.now ≡ Whole bytes.now) }
{
    if bytes.is_empty() {
        return Ok(Err(LineRefusal::Unreadable));
    }
    if before.bytes + bytes.len() as u64 > MOST_SCRIPT_BYTES {
        return Ok(Err(LineRefusal::Long));
    }
    match read_line(alloc, bytes) {
        Ok(line) => Ok(Ok(line)),
        Err(LineFault::Unreadable) => Ok(Err(LineRefusal::Unreadable)),
        Err(LineFault::Memory) => Err(AllocError),
    }
}

/// Whether a line that has these bytes, before which so many stand in the script, is too long.
fn is_long(before: Offset, bytes: &[u8]) -> bool
    ensures { result ≡ is_long before.bytes bytes.now }
{
    if bytes.len() > MOST_LINE_BYTES {
        return true;
    }
    !bytes.is_empty() && before.bytes + bytes.len() as u64 > MOST_SCRIPT_BYTES
}

/// The bytes before the first line end, or all of them.
fn line_part(bytes: &[u8]) -> &[u8]
    ensures no_feed { HasNoFeed result.now }
    ensures cut { (rest : List ℕ) × (bytes.now ≡ result.now ++ rest) × IsLineEnd rest }
{
    match first_end(bytes) {
        Some(place) => &bytes[..place],
        None => bytes,
    }
}

/// The place of the first line end.
fn first_end(bytes: &[u8]) -> Option<usize>
    ensures within { IfSome result (λ place. place < length bytes.now) }
    ensures found { IfSome result (λ place. slice_index bytes.now place ≡ 10) }
    ensures before { IfSome result (λ place. HasNoFeed (take place bytes.now)) }
    ensures none { IfNone result (HasNoFeed bytes.now) }
{
    bytes.iter().position(|byte| *byte == b'\n')
}
