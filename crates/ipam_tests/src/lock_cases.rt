// What comes of a case.
ghost use Rattle.std.specs.Prelude.{◌≡◌};

use crate::book::Book;
use crate::writers::{Pass, number_of, spread};
use std::alloc::{AllocError, Global};
use std::sync::Wait;
use std::thread::Threads;
use turn_lock::TurnLock;

/// The counter that each book here is made with.
const FIRST: u64 = 7;

/// The line, and after it the answer to its question: `passes|`, or of so many threads beside this one, and of so
/// many notes, `threads|OTHERS COUNT`.
pub fn answered<R: Threads + Wait + Sync>(
    rt: &R,
    alloc: Global,
    line: &str,
) -> Result<String, AllocError> {
    let (kind, question) = line.split_once('|').unwrap_or((line, ""));
    if kind == "passes" {
        return passes_answer(alloc, line);
    }
    let (others, count) = question.split_once(' ').unwrap_or((question, ""));
    let word = told_of_threads(
        rt,
        alloc,
        others.parse().unwrap_or(0),
        count.parse().unwrap_or(0),
    );
    format!(in alloc; "{line}|{word}")
}

/// What comes of a book into which so many threads beside this one and it itself write so many notes each.
fn told_of_threads<R: Threads + Wait + Sync>(
    rt: &R,
    alloc: Global,
    others: u8,
    count: u64,
) -> &'static str {
    let Ok((lock, pass)) = TurnLock::new(alloc, Book::new(alloc, FIRST)) else {
        return "no book";
    };
    let pass = spread(rt, alloc, &lock, pass, u32::from(others), count);
    if !pass.is_last() {
        return "no book";
    }
    if is_complete(&lock.close(pass), others, count) {
        "complete"
    } else {
        "not complete"
    }
}

/// Whether each of so many writers beside the first wrote `count` notes, and nobody else wrote.
fn is_complete(book: &Book, others: u8, count: u64) -> bool {
    for by in 0..others {
        if !has_all(book, by, count) {
            return false;
        }
    }
    let notes = (u64::from(others) + 1).wrapping_mul(count);
    book.first == FIRST && has_all(book, others, count) && book.notes.len() as u64 == notes
}

/// Whether this writer wrote so many notes in their order, with their texts.
fn has_all(book: &Book, by: u8, count: u64) -> bool {
    let mut left = count;
    for note in book.notes.iter() {
        if note.by == by {
            if left == 0
                || note.place != left - 1
                || note.text.parse() != Ok(number_of(by, note.place))
            {
                return false;
            }
            left -= 1;
        }
    }
    left == 0
}

/// The line, and after it what the first pass says of itself before others are split off and joined again, how many
/// these are, and what it says after them.
fn passes_answer(alloc: Global, line: &str) -> Result<String, AllocError> {
    let Ok((lock, mut first)) = TurnLock::new(alloc, Book::new(alloc, FIRST)) else {
        return Err(AllocError);
    };
    let before = said(&first);
    let count = split_all(&lock, &mut first);
    passes_text(alloc, line, before, count, said(&first))
}

/// Splits passes off, and joins each again, one by one. Answers how many there were.
fn split_all(lock: &TurnLock<Book>, first: &mut Pass) -> u32
    requires { first.old.lock ≡ lock.now }
{
    for count in 0..100 {
        match lock.split(first) {
            Some(other) => lock.join(first, other),
            None => return count,
        }
    }
    100
}

/// What a pass says of itself: how many turns it has left, its number, how many passes were made, and whether it is
/// the last one.
type Said = (u64, u8, u8, bool);

fn said(pass: &Pass) -> Said {
    (pass.left(), pass.number(), pass.made(), pass.is_last())
}

fn passes_text(
    alloc: Global,
    line: &str,
    before: Said,
    count: u32,
    after: Said,
) -> Result<String, AllocError> {
    let (left, number, made, last) = before;
    let (left_after, number_after, made_after, last_after) = after;
    format!(in alloc;
        "{line}|{left} turns left, number {number} of {made}, last: {last}; {count} split off; \
        {left_after} turns left, number {number_after} of {made_after}, last: {last_after}"
    )
}
