//! An audit over a daemon, a backup, and a reservation that is taken back.
ghost use Rattle.ipam_words.specs.Upkeep.{IsFit, of_upkeep};

use crate::asking::{connector_of, unreached_at};
use crate::causes::Explains;
use crate::new_file::{NewFile, NotMade, unmake};
use crate::telling::tell_why;
use crate::viewed::Viewed;
use ipam_call::Connects;
use ipam_io::{Link, StdSink};
use ipam_keeper::Keeper;
use ipam_operator::{End, Target, audit, back_up_asked, back_up_kept, tell};
use ipam_sqlite::{FileKeeper, SqliteKeeper};
use ipam_text::Seq;
use ipam_words::Upkeep;
use sqlite::Alter;
use std::io;
use std::thread::Threads;

/// Asks the daemon at the address, and answers the exit status. `threads` is the runtime too: what makes threads.
pub(crate) fn ask_upkeep<R: Threads + Sync>(
    rt: &HostRuntime,
    threads: &R,
    entries: &[Seq<u8>],
    address: &str,
    upkeep: &Upkeep<'_>,
) -> u8
    requires { IsFit (of_upkeep upkeep.now) }
{
    let mut connector = connector_of(rt, entries);
    match connector.connect(address) {
        Some(link) => ask_over(rt, threads, upkeep, &mut Viewed::new(rt, link)),
        None => unreached_at(rt, address, connector.why()),
    }
}

/// Asks over the link.
fn ask_over<R: Threads + Sync, L: Link + Rows>(
    rt: &HostRuntime,
    threads: &R,
    upkeep: &Upkeep<'_>,
    link: &mut L,
) -> u8
    requires { IsFit (of_upkeep upkeep.now) }
{
    match upkeep {
        Upkeep::Audit(workers) => {
            let mut sink = StdSink::new(io::writer(rt));
            audit(threads, rt.alloc(), &mut sink, link, *workers).code()
        }
        Upkeep::Unreserve(name) => {
            let mut sink = StdSink::new(io::writer(rt));
            ipam_operator::unreserve(rt.alloc(), &mut sink, link, name).code()
        }
        Upkeep::Backup(path) => back_up(rt, path, link),
    }
}

/// What a backup takes its rows from.
pub(crate) trait Rows {
    /// Puts all rows into the new database, and writes how many there are.
    fn back_up<D: Target>(&mut self, rt: &HostRuntime, target: &mut D) -> End;
}

impl<L: Link> Rows for Viewed<L> {
    fn back_up<D: Target>(&mut self, rt: &HostRuntime, target: &mut D) -> End {
        back_up_asked(rt.alloc(), &mut StdSink::new(io::writer(rt)), self, target)
    }
}

impl Rows for FileKeeper {
    fn back_up<D: Target>(&mut self, rt: &HostRuntime, target: &mut D) -> End {
        back_up_kept(rt.alloc(), &mut StdSink::new(io::writer(rt)), self, target)
    }
}

/// Puts the rows into a new database at the path, and answers the exit status.
pub(crate) fn back_up<F: Rows>(rt: &HostRuntime, path: &str, from: &mut F) -> u8 {
    match NewFile::make(rt, path) {
        Ok(file) => filled(rt, path, from, file),
        Err(why) => tell_not_made(rt, path, &why),
    }
}

fn filled<F: Rows, S: Alter + Drop>(
    rt: &HostRuntime,
    path: &str,
    from: &mut F,
    mut file: NewFile<SqliteKeeper<S>>,
) -> u8 {
    let end = from.back_up(rt, &mut file);
    finished(rt, path, file, end)
}

/// Tells why no file is made, and answers the exit status.
fn tell_not_made(rt: &HostRuntime, path: &str, why: &NotMade) -> u8 {
    match why {
        NotMade::There => {
            let _ = eprintln!(rt;
                "ipam: {path}: a backup makes a new file, and this one or its log is there"
            );
            say(rt, "file exists\n", End::Refused)
        }
        NotMade::Failed(error) => {
            let _ = eprintln!(rt; "ipam: {path}: the file of the backup is not made: {error}");
            say(rt, "keeper fault\n", End::KeeperFault)
        }
        NotMade::Memory => End::NoMemory.code(),
    }
}

/// Writes the text to standard output, and answers the exit status of this end.
pub(crate) fn say(rt: &HostRuntime, text: &str, end: End) -> u8 {
    tell(&mut StdSink::new(io::writer(rt)), text, end).code()
}

/// Leaves the file where the backup is whole and told, and removes it else.
fn finished<K: Keeper + Explains + Drop>(
    rt: &HostRuntime,
    path: &str,
    file: NewFile<K>,
    end: End,
) -> u8 {
    if let Some(why) = file.why() {
        tell_why(rt, path, why);
    }
    drop(file);
    if end != End::Done {
        unmake(rt, path);
    }
    end.code()
}
