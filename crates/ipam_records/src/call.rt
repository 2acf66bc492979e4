ghost use Rattle.std.specs.Prelude.{◌≡◌};
ghost use Rattle.ipam_records.specs.Datastore.{write_of};

use crate::key::{Key, Kind};
use crate::listing::Listing;
use crate::record::Record;
use ipam_text::Text;

/// What the datastore is asked. A write names its record, and the revision that the record is
/// to have there.
pub enum Call {
    /// Reads the record of this key.
    Get(Key),
    /// Lists the records of this kind.
    List(Kind),
    /// Writes this record where there is none of its key.
    Create(Record),
    /// Replaces the record of this key where that has this revision.
    Update(Record, u64),
    /// Deletes the record of this key where it has this revision.
    Delete(Key, u64),
}

// Written out, so that a drop of it is one call.
impl Drop for Call {
    fn drop(self) {
        match self {
            Call::Get(_)
            | Call::List(_)
            | Call::Create(_)
            | Call::Update(_, _)
            | Call::Delete(_, _) => {}
        }
    }
}

impl Call {
    /// The write that the call asks for, once this revision was granted to it. None where it only
    /// reads.
    pub fn into_write(self, revision: u64) -> Option<Write>
        ensures { result ≡ write_of self revision }
    {
        match self {
            Call::Get(_) | Call::List(_) => None,
            Call::Create(new) | Call::Update(new, _) => Some(Write::Put(revision, new)),
            Call::Delete(key, _) => Some(Write::Remove(revision, key)),
        }
    }
}

/// What the datastore answers to a call.
#[derive(Clone, Copy)]
pub enum Reply<'a> {
    /// The record, and the revision that it has.
    Found(u64, &'a Record),
    /// There is no such record.
    Missing,
    /// The rows of the kind, ascending by their keys.
    Listed(Listing<'a>),
    /// The write may be applied, and takes this revision.
    Can(u64),
    /// The record is there already, at this revision.
    Exists(u64),
    /// The record has this revision, and not the one that was named.
    Conflict(u64),
    /// There is no room for one more record.
    Full,
    /// There are no more revisions.
    Spent,
}

/// A write, with the revision that it takes.
#[derive(Drop)]
pub enum Write {
    /// The record with this revision, new or in place of the one of its key.
    Put(u64, Record),
    /// The record of this key goes. The removal takes this revision, too.
    Remove(u64, Key),
}

/// A record as texts, as it is kept outside of the process.
pub struct Row {
    /// The text of the record's key.
    pub key: Text,
    /// The revision of the record.
    pub revision: u64,
    /// The text of the record itself.
    pub body: Text,
}

impl Drop for Row {
    fn drop(self) {
        let Row {
            key: _,
            revision: _,
            body: _,
        } = self;
    }
}

/// A reply, and the moment of its call: the number of entries before the call's own.
#[derive(Clone, Copy)]
pub struct Heard<'a> {
    /// What the datastore answered.
    pub reply: Reply<'a>,
    /// How many entries there were before the call's own.
    pub moment: u64,
}
