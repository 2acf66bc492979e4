//! The lines of a source.
ghost use Rattle.std.specs.Prelude.{◌≡◌, ◌+◌, ◌<◌, ◌≤◌, ◌∷◌, ◌++◌, [], take, drop, length, position, vec_len, IfOk, OnOk, OnErr, IfSome, IfNone, IsErr, slice_index, ◌≢◌, Contains};
ghost use Rattle.std.specs.Io.KnownBytes.{prepend_known, IsAtEnd};
ghost use Rattle.ipam_io.specs.Counts.{Rose};
ghost use Rattle.ipam_io.specs.Feeds.{HasNoFeed, IsLine, IsTooLong, IsFirstFeed};
ghost use Rattle.ipam_io.specs.Lines.{bytes_taken, IsAnswerTo, IfLine, OnEnd, OnCut, OnTooLong, OnReadFault, OnNoReadFault};

use crate::source::{Failed, Source};
use std::alloc::{AllocError, Global};
use std::marker::Model;

// How many bytes a read asks for.
pub(crate) const CHUNK: usize = 4096;

// The most bytes of room that stay after a line.
const MOST_ROOM: usize = 65_536;

/// What comes next.
#[derive(Debug, Drop)]
pub enum Got {
    /// The bytes of a line, without its line feed.
    Line(Vec<u8>),
    /// The input ended between lines.
    End,
    /// The input ended inside a line.
    Cut,
}

/// Why no line could be had.
#[derive(Clone, Copy, Debug, PartialEq, Eq)]
pub enum LinesFault {
    /// There are `LIMIT` bytes without a line feed.
    TooLong,
    /// A read of the source failed.
    Read,
    /// No memory was found.
    Memory,
}

/// The bytes that were read of a source and not yet given in a line. A line has at most `LIMIT` bytes,
/// its line feed among them. Once a line over 65,536 bytes is given, its room is given back.
pub struct Lines<const LIMIT: usize> {
    bytes: Vec<u8>,
    given: usize,
}

impl<const LIMIT: usize> Drop for Lines<LIMIT> {
    fn drop(self) {
        let Lines { bytes: _, given: _ } = self;
    }
}

impl<const LIMIT: usize> Model for Lines<LIMIT> {
    ghost use Rattle.std.specs.Prelude.{List, ℕ, ◌≤◌, drop, vec_len};

    ghost Value = { List ℕ };

    ghost view = { λ lines. drop lines.given lines.bytes.items };

    ghost invariant = { λ lines. lines.given ≤ vec_len lines.bytes };
}

impl<const LIMIT: usize> Lines<LIMIT> {
    /// Holds no bytes, and takes no memory before the first read.
    pub fn new(alloc: Global) -> Lines<LIMIT>
        ensures { result ≡ [] }
    {
        Lines {
            bytes: Vec::new(alloc),
            given: 0,
        }
    }

    /// The bytes that are held.
    pub fn held(&self) -> &[u8]
        ensures { result.now ≡ self.now }
    {
        &self.bytes[self.given..]
    }

    // The place of the first line feed among the bytes that a line may have.
    fn feed_place(&self, searched: usize) -> Option<usize>
        requires { HasNoFeed (take searched self.now) }
        ensures within { IfSome result (λ place. place < LIMIT) }
        ensures first { IfSome result (IsFirstFeed self.now) }
        ensures none { IfNone result (HasNoFeed (take LIMIT self.now)) }
    {
        let held = self.held();
        let end = held.len().min(LIMIT);
        if end <= searched {
            return None;
        }
        let place = first_feed(&held[searched..end])?;
        Some(searched + place)
    }

    // Gives the bytes before the line feed at this place.
    fn take_line(&mut self, place: usize) -> Result<Vec<u8>, AllocError>
        requires { IsFirstFeed self.old place }
        ensures line { IfOk result (λ line. line.items ≡ take place self.old) }
        ensures after { OnOk result (self.new ≡ drop (place + 1) self.old) }
        ensures err { OnErr result (self.new ≡ self.old) }
    {
        let alloc = *self.bytes.allocator();
        let line = Vec::from_slice(alloc, &self.held()[..place])?;
        self.given += place + 1;
        self.give_back();
        Ok(line)
    }

    // Gives back the room that a long line took.
    fn give_back(&mut self)
        ensures { self.new ≡ self.old }
    {
        if self.bytes.capacity() > MOST_ROOM {
            drop_front(&mut self.bytes, self.given);
            self.given = 0;
            self.bytes.shrink_to(CHUNK);
        }
    }

    /// The next line, which ends by a line feed. It is given without a read where it is held, and
    /// else the source is read until a line feed comes, the input ends or a line would be too long.
    ///
    /// `LIMIT` is above 0. What was read stays held, whatever the answer; a line is given once.
    pub fn next<S: Source>(&mut self, source: &mut S) -> Result<Got, LinesFault>
        requires { 0 < LIMIT }
        ensures bytes { prepend_known self.old (S.left source.old)
            ≡ prepend_known (bytes_taken result ++ self.new) (S.left source.new) }
        ensures answer { IfSome (prepend_known self.old (S.left source.old))
            (λ bytes. IsAnswerTo LIMIT bytes result) }
        ensures long_is_refused { IfSome (prepend_known self.old (S.left source.old))
            (λ bytes. IsTooLong LIMIT bytes → IsErr result) }

        // Where the source tells nothing, the same of the bytes that are held.
        ensures line { IfLine result (IsLine LIMIT) }
        ensures end { OnEnd result ((self.new ≡ []) × IsAtEnd (S.left source.new)) }
        ensures cut { OnCut result
            (IsLine LIMIT self.new × (self.new ≢ []) × IsAtEnd (S.left source.new)) }
        ensures too_long { OnTooLong result (IsTooLong LIMIT self.new) }
        ensures read_fault { OnReadFault result (IsLine LIMIT self.new) }

        ensures no_read { Contains (take LIMIT self.old) 10 → source.new ≡ source.old }
        ensures fault { OnReadFault result
            (Rose (S.read_faults source.old) (S.read_faults source.new)) }
        ensures no_fault { OnNoReadFault result
            (S.read_faults source.new ≡ S.read_faults source.old) }
        ensures never_falls { S.read_faults source.old ≤ S.read_faults source.new }
        ensures rest { S.read_rest source.new ≡ S.read_rest source.old }
    {
        match self.fetch(source) {
            Ok(Some(place)) => match self.take_line(place) {
                Ok(line) => Ok(Got::Line(line)),
                Err(AllocError) => Err(LinesFault::Memory),
            },
            Ok(None) if self.held().is_empty() => Ok(Got::End),
            Ok(None) => Ok(Got::Cut),
            Err(fault) => Err(fault),
        }
    }

    // The place of the next line feed, once it is held, or none where the input ends before it.
    fn fetch<S: Source>(&mut self, source: &mut S) -> Result<Option<usize>, LinesFault>
        ensures bytes { prepend_known self.old (S.left source.old)
            ≡ prepend_known self.new (S.left source.new) }
        ensures found { IfOk result (λ found. IfSome found (λ place. (place < LIMIT)
            × IsFirstFeed self.new place)) }
        ensures end { IfOk result (λ found. IfNone found
            (IsLine LIMIT self.new × IsAtEnd (S.left source.new))) }
        ensures too_long { OnTooLong result (IsTooLong LIMIT self.new) }
        ensures read_fault { OnReadFault result (IsLine LIMIT self.new) }
        ensures no_read { Contains (take LIMIT self.old) 10 → source.new ≡ source.old }

        ensures fault { OnReadFault result
            (Rose (S.read_faults source.old) (S.read_faults source.new)) }
        ensures no_fault { OnNoReadFault result
            (S.read_faults source.new ≡ S.read_faults source.old) }
        ensures never_falls { S.read_faults source.old ≤ S.read_faults source.new }
        ensures rest { S.read_rest source.new ≡ S.read_rest source.old }
    {
        let mut searched = 0;
        loop {
            if let Some(place) = self.feed_place(searched) {
                return Ok(Some(place));
            }
            searched = self.held().len();
            if searched >= LIMIT {
                return Err(LinesFault::TooLong);
            }
            match self.read_more(source) {
                Ok(0) => return Ok(None),
                Ok(_) => {}
                Err(fault) => return Err(fault),
            }
        }
    }

    // Reads once, onto the bytes that are held.
    fn read_more<S: Source>(&mut self, source: &mut S) -> Result<usize, LinesFault>
        ensures bytes { prepend_known self.old (S.left source.old)
            ≡ prepend_known self.new (S.left source.new) }
        ensures grows { IfOk result (λ count. length self.new ≡ length self.old + count) }
        ensures front { take (length self.old) self.new ≡ self.old }
        ensures end { IfOk result (λ count. count ≡ 0 → (self.new ≡ self.old)
            × IsAtEnd (S.left source.new)) }
        ensures kept { OnErr result (self.new ≡ self.old) }
        ensures not_long { OnTooLong result ⊥ }

        ensures fault { OnReadFault result
            (Rose (S.read_faults source.old) (S.read_faults source.new)) }
        ensures no_fault { OnNoReadFault result
            (S.read_faults source.new ≡ S.read_faults source.old) }
        ensures never_falls { S.read_faults source.old ≤ S.read_faults source.new }
        ensures rest { S.read_rest source.new ≡ S.read_rest source.old }
    {
        drop_front(&mut self.bytes, self.given);
        self.given = 0;
        append_chunk(&mut self.bytes, source)
    }
}

// The place of the first line feed.
fn first_feed(bytes: &[u8]) -> Option<usize>
    ensures within { IfSome result (λ place. place < length bytes.now) }
    ensures found { IfSome result (λ place. slice_index bytes.now place ≡ 10) }
    ensures before { IfSome result (λ place. HasNoFeed (take place bytes.now)) }
    ensures none { IfNone result (HasNoFeed bytes.now) }
{
    bytes.iter().position(|byte| *byte == b'\n')
}

// Moves no byte where there is nothing to drop: a long line comes in many reads.
fn drop_front(bytes: &mut Vec<u8>, count: usize)
    requires { count ≤ vec_len bytes.old }
    ensures { bytes.new.items ≡ drop count bytes.old.items }
{
    if count == 0 {
        return;
    }
    let kept = bytes.len() - count;
    bytes.copy_within(count.., 0);
    bytes.truncate(kept);
}

// Makes room for a chunk before it reads, so that no byte that was read is lost.
fn append_chunk<S: Source>(bytes: &mut Vec<u8>, source: &mut S) -> Result<usize, LinesFault>
    ensures bytes { prepend_known bytes.old.items (S.left source.old)
        ≡ prepend_known bytes.new.items (S.left source.new) }
    ensures grows { IfOk result (λ count. vec_len bytes.new ≡ vec_len bytes.old + count) }
    ensures front { take (vec_len bytes.old) bytes.new.items ≡ bytes.old.items }
    ensures end { IfOk result (λ count. count ≡ 0 → IsAtEnd (S.left source.new)) }
    ensures kept { OnErr result (bytes.new.items ≡ bytes.old.items) }
    ensures not_long { OnTooLong result ⊥ }

    ensures fault { OnReadFault result
        (Rose (S.read_faults source.old) (S.read_faults source.new)) }
    ensures no_fault { OnNoReadFault result
        (S.read_faults source.new ≡ S.read_faults source.old) }
    ensures never_falls { S.read_faults source.old ≤ S.read_faults source.new }
    ensures rest { S.read_rest source.new ≡ S.read_rest source.old }
{
    if bytes.reserve(CHUNK).is_err() {
        return Err(LinesFault::Memory);
    }
    let mut chunk = [0u8; CHUNK];
    let Ok(count) = source.read(&mut chunk) else {
        return Err(LinesFault::Read);
    };
    match bytes.extend_from_slice(&chunk[..count]) {
        Ok(()) => Ok(count),
        Err(_) => Err(LinesFault::Memory),
    }
}
