//! How serving ends.
ghost use Rattle.std.specs.Prelude.{◌≡◌, ◌⊎◌, ℕ, List, IfOk, string_bytes};
ghost use Rattle.ipam_daemon.specs.Served.{IsUntold, WritesServed, WritesLine};

use ipam_io::Sink;
use ipam_shared::broken_line;
use ipam_text::Text;
use std::alloc::{AllocError, Global};

/// Why the daemon serves no more.
#[derive(Debug, Drop)]
pub enum Served {
    /// The keeper failed to load its rows, or to make sure of what a session did.
    KeeperFault,
    /// There was no memory to begin with.
    NoMemory,
    /// The rows break this one of the rules for rows that are opened. The text is the first key
    /// that breaks it.
    BrokenRows(u8, Text),
    /// Nothing listens at the address, or accepting failed.
    ListenFault,
}

const WRITE_FAULT: u8 = 4;

const KEEPER_FAULT: u8 = 5;

const NO_MEMORY: u8 = 6;

const BROKEN_ROWS: u8 = 7;

const LISTEN_FAULT: u8 = 9;

/// Writes the line for this end, and gives the exit status: 5 where the keeper failed, 6 where
/// there was no memory, for the daemon or for the line, 7 where the rows are broken, 9 where
/// listening failed, and 4 where the sink did. Only the line of broken rows takes memory.
pub fn tell_served<K: Sink>(alloc: Global, sink: &mut K, served: &Served) -> u8
    ensures told { WritesServed served.now (K.written sink.old) (K.written sink.new)
        (K.write_faults sink.old) (K.write_faults sink.new) result }
    ensures rest { K.write_rest sink.new ≡ K.write_rest sink.old }
{
    match served {
        Served::KeeperFault => tell(sink, "keeper fault\n", KEEPER_FAULT),
        Served::ListenFault => tell(sink, "listen fault\n", LISTEN_FAULT),
        Served::BrokenRows(number, about) => {
            let line = broken_line(alloc, *number, about.as_str());
            tell_made(sink, line, BROKEN_ROWS)
        }
        Served::NoMemory => NO_MEMORY,
    }
}

/// Writes the line, and gives its status.
fn tell<K: Sink>(sink: &mut K, line: &str, own: u8) -> u8
    ensures written { WritesLine (K.written sink.old) (K.written sink.new)
        (K.write_faults sink.old) (K.write_faults sink.new) line.now own result }
    ensures rest { K.write_rest sink.new ≡ K.write_rest sink.old }
{
    match sink.write(line.as_bytes()) {
        Ok(()) => own,
        Err(_) => WRITE_FAULT,
    }
}

/// Writes the line, where there was memory for it, and gives its status, or that of want of
/// memory.
fn tell_made<K: Sink>(sink: &mut K, line: Result<String, AllocError>, own: u8) -> u8
    ensures written { (said : List ℕ) → IfOk line (λ made. string_bytes made ≡ said)
        → WritesLine (K.written sink.old) (K.written sink.new)
        (K.write_faults sink.old) (K.write_faults sink.new) said own result
        ⊎ IsUntold (K.written sink.old) (K.written sink.new)
        (K.write_faults sink.old) (K.write_faults sink.new) result }
    ensures rest { K.write_rest sink.new ≡ K.write_rest sink.old }
{
    match line {
        Ok(made) => tell(sink, made.as_str(), own),
        Err(AllocError) => NO_MEMORY,
    }
}
