//! The database that the environment names.
ghost use Rattle.std.specs.Prelude.{◌≡◌, IfOk, codes};
ghost use Rattle.ipam_call.specs.Database.{database_of, file_at, named};
ghost use Rattle.ipam_call.specs.Values.{last_value};

use crate::values::{last_value, text_of};
use ipam_text::{Seq, Text};
use std::alloc::{AllocError, Global};

/// The database file, where the environment names none.
pub const DATABASE: &str = "ipam.db";

/// What the environment says of the database.
#[derive(Drop)]
pub enum Database {
    /// The file at this path.
    File(Text),
    /// `IPAM_DB` is empty or no text, so it names no file.
    NoPath,
}

/// The database that the last entry `IPAM_DB` names, and [`DATABASE`] where there is no such entry.
pub fn database_named(alloc: Global, entries: &[Seq<u8>]) -> Result<Database, AllocError>
    ensures { IfOk result (λ named. named ≡ database_of (last_value (codes "IPAM_DB") entries.now)) }
{
    match last_value(entries, "IPAM_DB") {
        Some(path) => path_of(alloc, path),
        None => Ok(Database::File(Text::copied(alloc, DATABASE)?)),
    }
}

fn path_of(alloc: Global, path: &[u8]) -> Result<Database, AllocError>
    ensures { IfOk result (λ of. of ≡ named path.now) }
{
    match text_of(path) {
        Some(path) => file_at(alloc, path),
        None => Ok(Database::NoPath),
    }
}

fn file_at(alloc: Global, path: &str) -> Result<Database, AllocError>
    ensures { IfOk result (λ of. of ≡ file_at path.now) }
{
    if path.is_empty() {
        return Ok(Database::NoPath);
    }
    Ok(Database::File(Text::copied(alloc, path)?))
}
