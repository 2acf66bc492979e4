ghost use Rattle.std.specs.Prelude.{◌≡◌, IfOk};

use crate::answer::Answer;
use crate::request::Request;
use ipam_records::{Call, Key, Kind, Record, Reply};
use ipam_text::{Seq, Text};
use std::alloc::{AllocError, Global};

/// What became of a call.
#[derive(Clone, Copy)]
pub enum Fate {
    /// It was done and answered.
    Well,
    /// It failed and was not done.
    Before,
    /// It failed after the datastore's own answer, so a granted write was done.
    After,
}

/// What there is to do in a slot.
#[derive(Clone, Copy, PartialEq, Eq)]
pub enum SlotState {
    /// No request runs.
    Idle,
    /// A request's next call is to be made.
    Running,
    /// A collection waits for its second list of live handles.
    Waiting,
}

/// The name of a call: what it is about, without the record that it writes.
pub enum CallName {
    /// Reads the record of this key.
    Get(Key),
    /// Lists the records of this kind.
    List(Kind),
    /// Creates a record under this key.
    Create(Key),
    /// Replaces the record of this key if it has this revision.
    Update(Key, u64),
    /// Deletes the record of this key if it has this revision.
    Delete(Key, u64),
}

// Written out, so that a drop of it is one call.
impl Drop for CallName {
    fn drop(self) {
        match self {
            CallName::Get(_)
            | CallName::List(_)
            | CallName::Create(_)
            | CallName::Update(_, _)
            | CallName::Delete(_, _) => {}
        }
    }
}

/// What the datastore answered, in short.
#[derive(Clone, Copy)]
pub enum Told {
    /// The call failed before the datastore answered.
    Nothing,
    /// The revision that was found.
    Found(u64),
    /// There is no record of the key. This answers a read, an update or a deletion.
    Missing,
    /// How many rows there are.
    Listed(u64),
    /// The revision that the write took.
    Done(u64),
    /// The record that was to be created is there already, at this revision.
    Exists(u64),
    /// The record has this revision, and not the one that the call named.
    Conflict(u64),
    /// The record was not created: there is no room for one more row, or for one more block.
    Full,
    /// The write was refused: the last revision has been used.
    Spent,
}

/// A call that was made for the request of a slot.
#[derive(Drop)]
pub struct Called {
    /// The number of the slot, from 0 to 63.
    pub slot: u8,
    /// The call, without the record that it writes.
    pub call: CallName,
    /// Whether the call was answered, or failed before or after it was done.
    pub fate: Fate,
    /// What the datastore answered. `Nothing` where the call failed before that.
    pub reply: Told,
    /// The record that was created or updated.
    pub written: Option<Record>,
    /// The answer of the request, where the call ended it.
    pub answer: Option<Answer>,
}

/// One thing that happened, in a slot.
#[derive(Drop)]
pub enum Entry {
    /// The request began in this slot, which was idle.
    Began(u8, Request),
    /// A second list of live handles, with the time at which it was made.
    Fed(u8, u64, Seq<Text>),
    /// One call of the datastore was made for the request of a slot.
    Called(Called),
    /// The request of this slot was stopped, without an answer.
    Stopped(u8),
}

impl CallName {
    ghost use Rattle.ipam_model.specs.Named.{name_of};

    /// The name of the call.
    pub fn of(alloc: Global, call: &Call) -> Result<CallName, AllocError>
        ensures { IfOk result (λ name. name ≡ name_of call.now) }
    {
        match call {
            Call::Get(key) => Ok(CallName::Get(key.clone()?)),
            Call::List(kind) => Ok(CallName::List(*kind)),
            Call::Create(new) => Ok(CallName::Create(new.key(alloc)?)),
            Call::Update(new, revision) => Ok(CallName::Update(new.key(alloc)?, *revision)),
            Call::Delete(key, revision) => Ok(CallName::Delete(key.clone()?, *revision)),
        }
    }
}

impl Told {
    ghost use Rattle.ipam_records.specs.Said.{said};
    ghost use Rattle.ipam_model.specs.Named.{told_of};

    /// The reply, in short.
    pub fn of(reply: &Reply) -> Told
        ensures { result ≡ told_of (said reply.now) }
    {
        match reply {
            Reply::Found(revision, _) => Told::Found(*revision),
            Reply::Missing => Told::Missing,
            Reply::Listed(listing) => Told::Listed(listing.len() as u64),
            Reply::Can(revision) => Told::Done(*revision),
            Reply::Exists(revision) => Told::Exists(*revision),
            Reply::Conflict(revision) => Told::Conflict(*revision),
            Reply::Full => Told::Full,
            Reply::Spent => Told::Spent,
        }
    }
}
