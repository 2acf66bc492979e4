//! The installed plugin: the program under the name `calico-ipam`, without words. The file beside it says in one line
//! which database it opens, or which daemon it calls.
use crate::call_at;
use crate::freeing::Freeing;
use crate::stored::{Use, keeper_of, tell_end};
use ipam_call::{Database, FixedError, call_variables, database_named, fixed_text};
use ipam_command::{CniEnd, CniFault, make_call};
use ipam_io::{Sink, StdSink, StdSource};
use ipam_keeper::Keeper;
use ipam_sqlite::{FileKeeper, StorageFault, Waiting};
use ipam_text::{Seq, Text};
use std::alloc::AllocError;
use std::{env, fs, io};

/// The plugin's name, which a configuration's `ipam.type` has.
const NAME: &str = "calico-ipam";

/// What the system has behind the name of a program that was replaced since it was started.
const REPLACED: &str = " (deleted)";

/// The status of a call that ends with an error.
const FAILED: u8 = 1;

/// The status where standard output fails.
const WRITE_FAULT: u8 = 4;

/// The folder of the plugin's configuration, up to its last `/`, where the program was started as the plugin. It is the
/// folder of the program itself, also where a link was started.
pub(crate) fn plugin_folder(
    rt: &HostRuntime,
    args: Option<&Vec<String>>,
) -> Result<Option<String>, AllocError> {
    let Some([name]) = args.map(|all| all.as_slice()) else {
        return Ok(None);
    };
    let own = env::current_exe(rt).ok();
    let path = match &own {
        Some(path) => {
            let path = path.as_str();
            path.strip_suffix(REPLACED).unwrap_or(path)
        }
        None => name.as_str(),
    };
    if last_part(name.as_str()) != NAME && last_part(path) != NAME {
        return Ok(None);
    }
    Ok(Some(String::from_str(rt.alloc(), folder_part(path))?))
}

/// What stands behind the last `/`, or all.
fn last_part(path: &str) -> &str {
    match path.rsplit_once('/') {
        Some((_, name)) => name,
        None => path,
    }
}

/// What stands up to the last `/`, with it.
fn folder_part(path: &str) -> &str {
    path.strip_suffix(last_part(path)).unwrap_or("")
}

/// What the plugin's configuration names.
#[derive(Clone, Copy)]
enum Named<'a> {
    /// The database file at this path.
    Database(&'a str),
    /// The daemon at this address.
    Daemon(&'a str),
    Nothing,
}

/// What the first line of the configuration names. A line that `install` would not have written names nothing: a blank
/// or a carriage return at its end would be taken for a part of the name.
fn named_by(text: &str) -> Named<'_> {
    let line = match text.split_once('\n') {
        Some((line, _)) => line,
        None => text,
    };
    if line.ends_with(' ') || has_control(line) {
        return Named::Nothing;
    }
    if let Some(address) = line.strip_prefix("daemon ") {
        return Named::Daemon(address);
    }
    match line.strip_prefix("database ") {
        Some(path) if path.starts_with('/') => Named::Database(path),
        _ => Named::Nothing,
    }
}

/// Whether the line has a control character of ASCII.
fn has_control(line: &str) -> bool {
    for byte in line.bytes() {
        if byte.is_ascii_control() {
            return true;
        }
    }
    false
}

/// Makes one CNI call, of the daemon or over the database that the plugin's configuration names, and answers the
/// exit status. The environment's `IPAM_DB` has precedence over the database.
pub(crate) fn run_plugin(
    rt: &HostRuntime,
    entries: Vec<Seq<u8>>,
    folder: &str,
) -> Result<u8, AllocError> {
    let text = configuration(rt, folder)?;
    match named_by(text.as_str()) {
        Named::Daemon(address) => call_at(rt, &entries, address),
        Named::Database(file) => {
            let entries = with_database(rt, entries, file)?;
            let database = database_named(rt.alloc(), &entries)?;
            call_over(rt, &entries, &database)
        }
        Named::Nothing => {
            let _ = eprintln!(rt;
                "ipam: {folder}{NAME}.conf names no database and no daemon: run ipam install again"
            );
            call_of_none(rt, &entries)
        }
    }
}

/// The text of the configuration in the folder, or none, with a line on standard error where it can't be read. A folder
/// that is not known has none.
fn configuration(rt: &HostRuntime, folder: &str) -> Result<String, AllocError> {
    let path = format!(in rt.alloc(); "{folder}{NAME}.conf")?;
    let path = path.as_str();
    if folder.is_empty() {
        return Ok(String::new(rt.alloc()));
    }
    match fs::read_to_string(rt, path) {
        Ok(text) => Ok(text),
        Err(error) => {
            let _ = eprintln!(rt; "ipam: {path}: {error}");
            Ok(String::new(rt.alloc()))
        }
    }
}

/// The environment, with the database that counts where it names none.
fn with_database(
    rt: &HostRuntime,
    entries: Vec<Seq<u8>>,
    file: &str,
) -> Result<Vec<Seq<u8>>, AllocError> {
    let mut all = Vec::new(rt.alloc());
    let first = format!(in rt.alloc(); "IPAM_DB={file}")?;
    all.push(Seq::of(first.into_bytes()))?;
    for entry in entries {
        if entry.as_slice() != "IPAM_DB=".as_bytes() {
            all.push(entry)?;
        }
    }
    Ok(all)
}

/// A path at which no file can be, so that a call replies with its error for a database that fails.
fn no_database(rt: &HostRuntime) -> Result<Database, AllocError> {
    Ok(Database::File(Text::copied(rt.alloc(), "/dev/null/none")?))
}

/// Replies to a call of which no database is known with the error for a database that fails.
fn call_of_none(rt: &HostRuntime, entries: &[Seq<u8>]) -> Result<u8, AllocError> {
    let variables = call_variables(rt.alloc(), entries)?;
    let keeper = keeper_of(rt, &no_database(rt)?, Use::Keep);
    let mut keeper = Freeing::new(rt.alloc(), keeper);
    Ok(call_kept(rt, &variables, &mut keeper))
}

/// Makes the call over the database.
fn call_over(rt: &HostRuntime, entries: &[Seq<u8>], database: &Database) -> Result<u8, AllocError> {
    let variables = call_variables(rt.alloc(), entries)?;
    let keeper = keeper_of(rt, database, Use::Keep).waiting(Waiting::Silent);
    let mut keeper = Freeing::new(rt.alloc(), keeper);
    let status = call_kept(rt, &variables, &mut keeper);
    keeper.tell(rt, &variables, status);
    tell_end(rt, database, Use::Keep, keeper.keeper());
    Ok(status)
}

/// What tells whether it failed since others had its file for too long.
trait Busy {
    fn is_busy(&self) -> bool;
}

impl Busy for Freeing<FileKeeper> {
    fn is_busy(&self) -> bool {
        matches!(self.keeper().why(), Some(StorageFault::Busy))
    }
}

/// Makes the call over the keeper, and writes its reply. Where the database is busy, that is CNI's code for a call that
/// may be made again.
fn call_kept<D: Keeper + Busy>(rt: &HostRuntime, variables: &[(Text, Text)], keeper: &mut D) -> u8 {
    let mut source = StdSource::new(rt.stdin());
    let end = make_call(rt.alloc(), variables, &mut source, keeper);
    let mut sink = StdSink::new(io::writer(rt));
    match &end {
        CniEnd::Failed(version, CniFault::Keeper) if keeper.is_busy() => {
            match sink.write(fixed_text(*version, FixedError::Busy).as_bytes()) {
                Ok(()) => FAILED,
                Err(_) => WRITE_FAULT,
            }
        }
        _ => ipam_command::tell_end(&mut sink, &end),
    }
}
