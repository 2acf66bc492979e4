//! What lines ask happens to a cluster, and a journal tells of it.
ghost use Rattle.std.specs.Prelude.{◌≡◌, ◌<◌, ◌≤◌, ◌+◌, ◌++◌, [], ◌∷◌, replicate, IfSome, IfErr, Err, None, OnOk};
ghost use Rattle.std.specs.Vec.{vec_len, vec_capacity};
ghost use Rattle.std.specs.List.{All};
ghost use Rattle.ipam_records.specs.Sound.{IsHandleId};
ghost use Rattle.ipam_model.specs.Course as event;
ghost use Rattle.ipam_model.specs.SoundRequest.{IsSoundRequest};
ghost use Rattle.ipam_model.specs.declared.entry.Fate.TheVariants.{Well};
ghost use Rattle.ipam_play.specs.Script.{events_of};
ghost use Rattle.ipam_play.specs.SoundLine.{IsSoundLine};
ghost use Rattle.ipam_play.specs.Events.{ComesOf, Keeps};
ghost use Rattle.ipam_play.specs.Times.{IsTimed, StandsTimed, times_asked};

use crate::cluster::OpenCluster;
use crate::fault::PlayFault;
use ipam_answer_text::Line;
use ipam_model::{Entry, Fate, Request, SLOTS};
use ipam_text::Text;
use std::alloc::Global;

/// Does what the line asks. A line of the base is refused.
pub(crate) fn play_line(
    alloc: Global,
    cluster: &mut OpenCluster,
    journal: &mut Vec<Entry>,
    line: &Line,
) -> Result<(), PlayFault>
    requires sound { IsSoundLine line.now }
    requires standing { StandsTimed cluster.old }
    ensures timed { IsTimed cluster.new }
    ensures events { IfSome (events_of line.now)
        (ComesOf result cluster.old.cluster cluster.new.cluster journal.old.items journal.new.items) }
    ensures of_base { events_of line.now ≡ None → result ≡ Err PlayFault.Base }
    ensures kept { events_of line.now ≡ None → Keeps cluster.old.cluster cluster.new.cluster }
    ensures journal { events_of line.now ≡ None → journal.new.items ≡ journal.old.items }
{
    match line {
        Line::Row(_) | Line::Counter(_) => Err(PlayFault::Base),
        Line::Begin(slot, request) => begin(alloc, cluster, journal, *slot, request),
        Line::Turn(slot, count) => turns(alloc, cluster, journal, *slot, *count),
        Line::Fail(slot) => turn(alloc, cluster, journal, *slot, Fate::Before),
        Line::Lose(slot) => turn(alloc, cluster, journal, *slot, Fate::After),
        Line::Feed(slot, at, live) => feed(alloc, cluster, journal, *slot, *at, live.as_slice()),
        Line::Stop(slot) => stop(cluster, journal, *slot),
        Line::Restart => restart(cluster, journal),
    }
}

/// The request begins. Once it is known that it may, only memory can be wanting.
fn begin(
    alloc: Global,
    cluster: &mut OpenCluster,
    journal: &mut Vec<Entry>,
    slot: u8,
    request: &Request,
) -> Result<(), PlayFault>
    requires slot { slot < SLOTS }
    requires sound { IsSoundRequest request.now }
    requires standing { StandsTimed cluster.old }
    ensures comes { ComesOf result cluster.old.cluster cluster.new.cluster journal.old.items journal.new.items
        (event.Begin slot request.now ∷ []) }
    ensures timed { IsTimed cluster.new }
{
    cluster.may_begin(slot)?;
    make_room(journal, 1)?;
    match cluster.cluster.begin(alloc, slot, request) {
        Ok(entry) => {
            let (at, grace) = times_asked(request);
            cluster.at[slot as usize] = at;
            cluster.grace[slot as usize] = grace;
            note(journal, entry);
            Ok(())
        }
        Err(_) => Err(PlayFault::Memory),
    }
}

/// The slot's next call is made, with this fate. Once it is known that it may be, only memory can be wanting.
fn turn(
    alloc: Global,
    cluster: &mut OpenCluster,
    journal: &mut Vec<Entry>,
    slot: u8,
    fate: Fate,
) -> Result<(), PlayFault>
    requires slot { slot < SLOTS }
    requires standing { StandsTimed cluster.old }
    ensures comes { ComesOf result cluster.old.cluster cluster.new.cluster journal.old.items journal.new.items
        (event.Turn slot fate ∷ []) }
    ensures timed { IsTimed cluster.new }
{
    cluster.may_turn(slot)?;
    make_room(journal, 1)?;
    match cluster.cluster.prepare(alloc, slot) {
        Ok(prepared) => {
            note(journal, cluster.cluster.commit(prepared, fate));
            Ok(())
        }
        Err(_) => Err(PlayFault::Memory),
    }
}

/// Does so many turns. Where one does not happen, those before it stay.
fn turns(
    alloc: Global,
    cluster: &mut OpenCluster,
    journal: &mut Vec<Entry>,
    slot: u8,
    count: u32,
) -> Result<(), PlayFault>
    requires slot { slot < SLOTS }
    requires standing { StandsTimed cluster.old }
    ensures comes { ComesOf result cluster.old.cluster cluster.new.cluster journal.old.items journal.new.items
        (replicate count (event.Turn slot Well)) }
    ensures timed { IsTimed cluster.new }
{
    for done in 0..count {
        turn(alloc, cluster, journal, slot, Fate::Well)?;
    }
    Ok(())
}

/// The slot's collection is fed its second list. Once it is known that it may be, only memory can be wanting.
fn feed(
    alloc: Global,
    cluster: &mut OpenCluster,
    journal: &mut Vec<Entry>,
    slot: u8,
    at: u64,
    live: &[Text],
) -> Result<(), PlayFault>
    requires slot { slot < SLOTS }
    requires sound { All IsHandleId live.now }
    requires standing { StandsTimed cluster.old }
    ensures comes { ComesOf result cluster.old.cluster cluster.new.cluster journal.old.items journal.new.items
        (event.Feed slot at live.now ∷ []) }
    ensures timed { IsTimed cluster.new }
{
    cluster.may_feed(slot, at)?;
    make_room(journal, 1)?;
    match cluster.cluster.feed(alloc, slot, live, at) {
        Ok(entry) => {
            note(journal, entry);
            Ok(())
        }
        Err(_) => Err(PlayFault::Memory),
    }
}

fn stop(cluster: &mut OpenCluster, journal: &mut Vec<Entry>, slot: u8) -> Result<(), PlayFault>
    requires slot { slot < SLOTS }
    requires timed { IsTimed cluster.old }
    ensures comes { ComesOf result cluster.old.cluster cluster.new.cluster journal.old.items journal.new.items
        (event.Stop slot ∷ []) }
    ensures timed { IsTimed cluster.new }
{
    cluster.may_stop(slot)?;
    make_room(journal, 1)?;
    match cluster.stop(slot) {
        Some(entry) => {
            note(journal, entry);
            Ok(())
        }
        None => Err(PlayFault::Idle),
    }
}

/// Stops whatever runs, slot by slot. The rows are not read again: what would be opened of them is
/// what is there.
fn restart(cluster: &mut OpenCluster, journal: &mut Vec<Entry>) -> Result<(), PlayFault>
    requires { IsTimed cluster.old }
    ensures comes { ComesOf result cluster.old.cluster cluster.new.cluster journal.old.items journal.new.items
        (event.Restart ∷ []) }
    ensures timed { IsTimed cluster.new }
{
    make_room(journal, SLOTS)?;
    for slot in 0..SLOTS {
        if let Some(entry) = cluster.stop(slot as u8) {
            note(journal, entry);
        }
    }
    Ok(())
}

/// When the first list of the request was made, and its grace, in seconds; 0 where it is no collection.
fn times_asked(request: &Request) -> (u64, u64)
    ensures { result ≡ times_asked request.now }
{
    match request {
        Request::Collect(asked) => (asked.at, asked.grace),
        _ => (0, 0),
    }
}

/// Takes the memory for so many entries more.
fn make_room(journal: &mut Vec<Entry>, count: usize) -> Result<(), PlayFault>
    ensures journal { journal.new.items ≡ journal.old.items }
    ensures len { vec_len journal.new ≡ vec_len journal.old }
    ensures room { OnOk result (vec_len journal.new + count ≤ vec_capacity journal.new) }
    ensures fault { IfErr result (λ told. told ≡ PlayFault.Memory) }
{
    match journal.reserve(count) {
        Ok(()) => Ok(()),
        Err(_) => Err(PlayFault::Memory),
    }
}

/// Notes the entry, for which there is room.
fn note(journal: &mut Vec<Entry>, entry: Entry)
    requires { vec_len journal.old < vec_capacity journal.old }
    ensures items { journal.new.items ≡ journal.old.items ++ entry ∷ [] }
    ensures len { vec_len journal.new ≡ vec_len journal.old + 1 }
    ensures capacity { vec_capacity journal.old ≤ vec_capacity journal.new }
{
    if journal.push(entry).is_err() {
        unreachable!()
    }
}
