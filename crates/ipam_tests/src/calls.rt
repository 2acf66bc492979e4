//! Records and calls by texts, and the writes that a store grants.
ghost use Rattle.std.specs.Prelude.{◌≡◌, ℕ, IsTrue, IfOk, Some};
ghost use Rattle.ipam_records.specs.Datastore.{reply_of};
ghost use Rattle.ipam_records.specs.Said as says;
ghost use Rattle.ipam_records.specs.Sound.{IsRecord};
ghost use Rattle.ipam_tests.specs.RecordCall.{IsRecordCall, IsCountedWrite};

use ipam_records::{Call, Record, Reply, Write, from_text, key_of_text};
use ipam_store::Store;
use std::alloc::{AllocError, Global};

/// The record of this key and this body.
pub(crate) fn record(alloc: Global, key: &str, body: &str) -> Result<Record, AllocError>
    ensures { IfOk result IsRecord }
{
    match from_text(alloc, key, body) {
        Ok(read) => Ok(read),
        Err(_) => Err(AllocError),
    }
}

/// The call of `create KEY BODY` or `delete REVISION KEY`.
pub(crate) fn read_call(alloc: Global, text: &str) -> Result<Call, AllocError>
    ensures { IfOk result IsRecordCall }
{
    let (word, rest) = text.split_once(' ').unwrap_or((text, ""));
    let (first, second) = rest.split_once(' ').unwrap_or((rest, ""));
    if word == "create" {
        return Ok(Call::Create(record(alloc, first, second)?));
    }
    match key_of_text(alloc, second.as_bytes())? {
        Some(key) => Ok(Call::Delete(key, first.parse().unwrap_or(0))),
        None => Err(AllocError),
    }
}

/// The revision of the write that the store grants.
fn granted(store: &Store, call: &Call) -> Option<u64>
    ensures { (revision : ℕ) → result ≡ Some revision → reply_of store.now.store call.now ≡ says.Can revision }
{
    match store.reply(call) {
        Reply::Can(revision) => Some(revision),
        _ => None,
    }
}

/// Whether a block that the write puts was written less often than its revision says.
fn is_counted(write: &Write) -> bool
    ensures { IsTrue result → IsCountedWrite write.now }
{
    match write {
        Write::Put(revision, Record::Block(block)) => block.sequence() < *revision,
        _ => true,
    }
}

/// Applies the write that the store grants, and returns its revision.
pub(crate) fn apply(store: &mut Store, call: Call) -> Result<Option<u64>, AllocError>
    requires { IsRecordCall call }
{
    store.reserve()?;
    if let Some(revision) = granted(store, &call) {
        if let Some(write) = call.into_write(revision) {
            if is_counted(&write) {
                store.apply(write);
                return Ok(Some(revision));
            }
        }
    }
    Ok(None)
}
