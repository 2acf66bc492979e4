//! Places in a queue, taken and left by one thread, which nobody rings.
use crate::told::Told;
use ipam_serve::{MOST_WAITS, Others, Patience, Place, Queue, Queued};
use std::alloc::{AllocError, Global};
use std::sync::{Arc, Wait};

/// The text about these steps at a queue: each that waits writes how often it waited, but for those of a session. Places
/// have numbers, from 0 on, and so have the others that a leave returns.
pub(crate) fn told<R: Wait>(rt: &R, alloc: Global, steps: &str) -> Result<String, AllocError> {
    let queue = Arc::new(alloc, Queue::new())?;
    let mut session = Queued::new(Arc::try_clone(&queue)?, 0);
    let mut places = Vec::new(alloc);
    let mut others = Vec::new(alloc);
    let mut told = Told::new(alloc);
    for line in steps.lines() {
        go_on(rt, &mut session, line);
        let (word, rest) = line.split_once(' ').unwrap_or((line, ""));
        let number = rest.parse().unwrap_or(0u32);
        if let Some(waits) = step(rt, &queue, &mut places, &mut others, word, number)? {
            told.push(format!(in alloc; "{waits} of {MOST_WAITS}\n"));
        }
    }
    told.into_text()
}

/// What the session does by this line: `join` takes a place, and `settle` leaves it as before a settling.
fn go_on<R: Wait>(rt: &R, session: &mut Queued, line: &str) {
    match line {
        "join" => session.enter(rt),
        "settle" => {
            session.leave();
            session.before_settling(rt);
        }
        _ => {}
    }
}

/// Does a step: `enter` takes a place, `leave N` leaves the one with this number, `outwait N` waits for the others
/// that the leave with this number told of, `pass N` enters and leaves so many times, and `alone N` also waits
/// for others. A sum of waits is 0 where each is.
fn step<R: Wait>(
    rt: &R,
    queue: &Queue,
    places: &mut Vec<Place>,
    others: &mut Vec<Others>,
    word: &str,
    number: u32,
) -> Result<Option<u32>, AllocError> {
    match word {
        "enter" => {
            let place = queue.enter(rt);
            places.push(place)?;
            Ok(Some(place.waits))
        }
        "leave" => {
            if let Some(place) = places.get(number as usize) {
                others.push(queue.leave(*place))?;
            }
            Ok(None)
        }
        "outwait" => match others.get(number as usize) {
            Some(others) => Ok(Some(queue.outwait(rt, *others))),
            None => Ok(None),
        },
        "pass" => Ok(Some(pass(rt, queue, number, false))),
        "alone" => Ok(Some(pass(rt, queue, number, true))),
        _ => Ok(None),
    }
}

/// Enters and leaves the queue so many times, and waits for others if asked to. How often it waited.
fn pass<R: Wait>(rt: &R, queue: &Queue, times: u32, for_others: bool) -> u32 {
    let mut waits = 0u32;
    for _ in 0..times {
        let place = queue.enter(rt);
        let others = queue.leave(place);
        waits = waits.saturating_add(place.waits);
        if for_others {
            waits = waits.saturating_add(queue.outwait(rt, others));
        }
    }
    waits
}
