//! One session at a shared cluster.
ghost use Rattle.std.specs.Prelude.{◌≡◌, ◌+◌, ◌≤◌, ◌^◌, None, IfSome};
ghost use Rattle.ipam_shared.specs.Passes.{IsNewlyKept, IsSamePass, runs_in};

use crate::counting::Counting;
use crate::rows::{numbers, rest_of};
use crate::told::Told;
use ipam_daemon::Serves;
use ipam_io::{ListClock, MemoryLink};
use ipam_serve::{Opening, SessionGate};
use ipam_shared::{Keeper, Kept, Pass, Shared};
use ipam_text::Text;
use std::alloc::{AllocError, Global};
use std::str;
use std::sync::Wait;

/// How many bytes can be written to a link.
const ROOM: usize = 1_048_576;

/// The text of the opening of which all sessions are.
const OPENED: &str = "7-00000000000000fe";

/// The cluster of this keeper, opened after so many entries and shared, and its first pass.
pub(crate) fn share<D: Keeper + Drop>(
    alloc: Global,
    keeper: D,
    first: u64,
) -> Option<(Shared<D>, Pass)>
    requires { first ≤ 2 ^ 62 }
    ensures lock { IfSome result (λ opened. opened.1.lock ≡ opened.0) }
    ensures idle { IfSome result (λ opened. runs_in opened.1 ≡ None) }
    ensures last { IfSome result (λ opened. opened.1.joined + 1 ≡ opened.1.made) }
{
    let Ok(kept) = Kept::open(alloc, keeper, first) else {
        return None;
    };
    match Shared::new(alloc, kept) {
        Ok(opened) => Some(opened),
        Err(kept) => {
            drop(kept.into_keeper());
            None
        }
    }
}

/// What a session has beside the cluster.
#[derive(Drop)]
struct Given {
    link: MemoryLink,
    clock: ListClock,
    opening: Opening,
}

/// What these lines give. `clock N..` has the readings of the clock.
fn make_given(alloc: Global, lines: &str) -> Result<Given, AllocError> {
    Ok(Given {
        link: link_of(alloc, lines)?,
        clock: ListClock::new(numbers(alloc, lines, "clock ")?),
        opening: Opening::of(alloc, Text::copied(alloc, OPENED)?),
    })
}

/// Serves the session whose lines these are, and tells its replies and its end.
pub(crate) fn served<R: Wait, S: Serves, G: SessionGate>(
    rt: &R,
    alloc: Global,
    shared: &S,
    pass: &mut Pass,
    gate: &mut G,
    patience: &mut Counting,
    lines: &str,
    told: &mut Told,
)
    requires lock { pass.old.lock ≡ S.id shared.now }
    requires idle { runs_in pass.old ≡ None }
    ensures same { IsSamePass pass.old pass.new }
    ensures idle { runs_in pass.new ≡ None }
{
    let Ok(mut given) = make_given(alloc, lines) else {
        told.push(Err(AllocError));
        return;
    };
    let end = shared.session(
        rt,
        alloc,
        &given.opening,
        pass,
        gate,
        &mut given.clock,
        patience,
        &mut given.link,
    );
    tell_replies(given.link.written(), lines, told);
    told.push(format!(in alloc; "session {end:?}\n"));
}

/// Of each reply the part that a line says which begins with `part `.
fn tell_replies(written: &[u8], lines: &str, told: &mut Told) {
    let part = rest_of(lines, "part ").unwrap_or("");
    let replies = str::from_utf8(written).unwrap_or("no text");
    for reply in replies.lines() {
        if !part.is_empty() && reply.contains(part) {
            told.push_line(part);
        } else {
            told.push_line(reply);
        }
    }
}

/// The link on which the bytes of these lines come in. Of its reads and writes, counted from 1, those fail that a line
/// `link N..` says.
fn link_of(alloc: Global, lines: &str) -> Result<MemoryLink, AllocError> {
    let mut bytes = Vec::new(alloc);
    for line in lines.lines() {
        push_bytes(alloc, &mut bytes, line)?;
    }
    MemoryLink::new(alloc, bytes, ROOM, numbers(alloc, lines, "link ")?)
}

/// The bytes that come in by this line: `> TEXT` is a line, `. TEXT` a text without a line feed, and `fill N` are so
/// many bytes.
fn push_bytes(alloc: Global, bytes: &mut Vec<u8>, line: &str) -> Result<(), AllocError> {
    let (word, rest) = line.split_once(' ').unwrap_or((line, ""));
    match word {
        ">" => {
            bytes.extend_from_slice(rest.as_bytes())?;
            bytes.extend_from_slice(b"\n")
        }
        "." => bytes.extend_from_slice(rest.as_bytes()),
        "fill" => bytes.extend_from_slice(vec![in alloc; b'x'; rest
            .parse()
            .unwrap_or(0)]?.as_slice()),
        _ => Ok(()),
    }
}
