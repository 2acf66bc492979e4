//! The daemon over the database.
use crate::causes::Noting;
use crate::telling::{line_of_fault, tell_no_path, tell_reading};
use ipam_call::{Database, database_named};
use ipam_daemon::{
    Address, Alarm, Host, Limits, Opening, Served, SocketListener, new_opening, serve,
    tell_in_time, tell_served,
};
use ipam_io::StdSink;
use ipam_sqlite::{SqliteKeeper, StorageFault, Waiting, fold_log, open_served};
use ipam_text::{Seq, Text};
use sqlite::{Alter, File, FileStore};
use std::alloc::{AllocError, Global};
use std::fs::Files;
use std::io::{self, ErrorKind};
use std::net::{Net, TcpListener, TcpStream};

/// Serves what the database has, and writes why it serves no more. The file is opened before anything
/// listens. `threads` is the runtime too: what makes threads.
pub(crate) fn serve_database<R: Host + Files + Net<Listener = TcpListener, Stream = TcpStream>>(
    rt: &HostRuntime,
    threads: R,
    entries: &[Seq<u8>],
    waiting: Waiting,
    address: &str,
    workers: u8,
) -> Result<u8, AllocError> {
    let served = match database_named(rt.alloc(), entries)? {
        Database::File(path) => {
            let opening = new_opening(rt, rt.alloc())?;
            serve_file(
                rt,
                threads,
                path.as_str(),
                waiting,
                opening,
                address,
                workers,
            )
        }
        Database::NoPath => {
            tell_no_path(rt);
            Served::KeeperFault
        }
    };
    let mut sink = StdSink::new(io::writer(rt));
    Ok(tell_served(rt.alloc(), &mut sink, &served))
}

fn serve_file<R: Host + Files + Net<Listener = TcpListener, Stream = TcpStream>>(
    rt: &HostRuntime,
    threads: R,
    path: &str,
    waiting: Waiting,
    opening: Opening,
    address: &str,
    workers: u8,
) -> Served {
    tell_reading(rt, path);
    let (keeper, _place) = open_served(rt, path, address, waiting);
    let ended = serve_opened(threads, rt.alloc(), keeper, opening, address, workers);
    // After a write that failed the disk may lack what the log seems to have.
    if ended.database.is_none() && !matches!(ended.served, Served::KeeperFault) {
        let _ = fold_log(rt, path);
    }
    // Where there is no memory for the line, nothing says its cause.
    if let Ok(line) = line_of(rt, path, address, &ended) {
        let _ = tell_in_time(threads, rt.alloc(), Text::of(line));
    }
    let Ended { served, .. } = ended;
    served
}

/// Serves what the keeper over a file has. The call stands alone: that a thread may be handed such a keeper is shown by
/// hand, and this is where.
fn serve_opened<R: Host + Files + Net<Listener = TcpListener, Stream = TcpStream>>(
    threads: R,
    alloc: Global,
    keeper: SqliteKeeper<FileStore<File>>,
    opening: Opening,
    address: &str,
    workers: u8,
) -> Ended {
    serve_stored(threads, alloc, keeper, opening, address, workers)
}

/// How the daemon ended.
#[derive(Drop)]
struct Ended {
    served: Served,
    /// Why the database failed the last time, if it did.
    database: Option<StorageFault>,
    /// Why listening failed, if it did.
    listener: Option<io::Error>,
}

impl Ended {
    /// There was no memory to begin with.
    fn for_want_of_memory() -> Ended {
        Ended {
            served: Served::NoMemory,
            database: None,
            listener: None,
        }
    }
}

/// Serves what a keeper over this store has. Which store it is stays open here, since what a connection
/// holds is looked through for each kind of store that a thread is handed.
fn serve_stored<
    R: Host + Files + Net<Listener = TcpListener, Stream = TcpStream>,
    S: Alter + Drop + Send + 'static,
>(
    threads: R,
    alloc: Global,
    keeper: SqliteKeeper<S>,
    opening: Opening,
    address: &str,
    workers: u8,
) -> Ended {
    let Ok((keeper, cause)) = Noting::of(alloc, keeper) else {
        return Ended::for_want_of_memory();
    };
    let Ok((alarm, mut watch)) = Alarm::new(alloc) else {
        return Ended::for_want_of_memory();
    };
    let limits = Limits::of_session();
    let mut listener = SocketListener::new(&threads, alloc, Address::of(address), limits);
    let (served, _keeper) = serve(
        threads,
        alloc,
        keeper,
        opening,
        &mut listener,
        workers,
        limits,
        alarm,
        &mut watch,
    );
    Ended {
        served,
        database: cause.last(),
        listener: listener.why(),
    }
}

/// The line on standard error of this end.
fn line_of(
    rt: &HostRuntime,
    path: &str,
    address: &str,
    ended: &Ended,
) -> Result<String, AllocError> {
    let alloc = rt.alloc();
    match (&ended.served, ended.database, ended.listener) {
        (Served::KeeperFault, Some(why), _) => line_of_fault(rt, path, why),
        (Served::KeeperFault, None, _) => format!(in alloc; "ipam: {path}: the database failed"),
        (Served::BrokenRows(number, key), _, _) => {
            let key = key.as_str();
            format!(in alloc; "ipam: {path}: its rows break the rule OR{number} at {key:?}")
        }
        (Served::ListenFault, _, Some(why)) if why.kind() == ErrorKind::InvalidInput => {
            format!(in alloc;
                "ipam: {address:?}: {why}: an address is HOST:PORT, or the path of a socket file from /"
            )
        }
        (Served::ListenFault, _, Some(why)) => format!(in alloc; "ipam: {address:?}: {why}"),
        (Served::ListenFault, _, None) => {
            format!(in alloc; "ipam: {address:?}: no connection can be accepted any more")
        }
        (Served::NoMemory, _, _) => format!(in alloc; "ipam: memory ran out"),
    }
}
