//! What a command has to say, and how it ends.
ghost use Rattle.std.specs.Prelude.{◌≡◌, ◌≢◌, ◌⊎◌, ℕ, List, IfOk, OnErr, string_bytes};
ghost use Rattle.ipam_shared.specs.Broken.{broken_line};
ghost use Rattle.ipam_commands.specs.Telling.{FaultWrites, IsMade, IsSaid, Writes};

use crate::status::Status;
use ipam_io::Sink;
use ipam_shared::{KeptFault, broken_line};
use std::alloc::{AllocError, Global};

/// Ends with this text and its status. That takes no memory.
pub fn tell<K: Sink>(sink: &mut K, text: &str, own: Status) -> Status
    requires { IsSaid own }
    ensures written { Writes (K.written sink.old) (K.written sink.new)
        (K.write_faults sink.old) (K.write_faults sink.new) text.now own result }
    ensures told { result ≢ Status.NoMemory }
    ensures rest { K.write_rest sink.new ≡ K.write_rest sink.old }
{
    match sink.write(text.as_bytes()) {
        Ok(()) => own,
        Err(_) => Status::WriteFault,
    }
}

/// Ends with this text and its status, where there was memory for the text.
pub fn tell_made<K: Sink>(sink: &mut K, text: Result<String, AllocError>, own: Status) -> Status
    requires said { IsSaid own }
    requires made { IsMade own }
    ensures written { (said : List ℕ) → IfOk text (λ made. string_bytes made ≡ said)
        → Writes (K.written sink.old) (K.written sink.new)
        (K.write_faults sink.old) (K.write_faults sink.new) said own result }
    ensures told { IfOk text (λ _. result ≢ Status.NoMemory) }
    ensures rest { K.write_rest sink.new ≡ K.write_rest sink.old }
{
    match text {
        Ok(made) => tell(sink, made.as_str(), own),
        Err(AllocError) => Status::NoMemory,
    }
}

/// What takes the memory for the line on rows that break a rule. What is generic over it knows nothing of it,
/// and so can't state by itself that it found none.
pub trait MakesBroken {
    /// It found no memory.
    ghost wants: { Self → Type 0 };

    /// The line for rows that break this one of the rules for rows that are opened, and first at this key.
    fn broken_line(&self, number: u8, about: &str) -> Result<String, AllocError>
        ensures line { IfOk result (λ line. string_bytes line ≡ broken_line number about.now) }
        ensures wants { OnErr result (wants self.now) };
}

impl MakesBroken for Global {
    ghost wants = { λ _. Unit {0} };

    fn broken_line(&self, number: u8, about: &str) -> Result<String, AllocError> {
        broken_line(*self, number, about)
    }
}

/// Ends where the rows were not opened. It is with want of memory only where that was why they were not, or
/// where there was none for the line.
pub fn tell_fault<T: MakesBroken + Drop, K: Sink>(
    alloc: T,
    sink: &mut K,
    fault: KeptFault,
) -> Status
    ensures written { FaultWrites (λ text own. Writes (K.written sink.old) (K.written sink.new)
        (K.write_faults sink.old) (K.write_faults sink.new) text own result) fault }
    ensures want_of_memory_has_its_cause { result ≡ Status.NoMemory → (fault ≡ KeptFault.Memory) ⊎ T.wants alloc }
    ensures rest { K.write_rest sink.new ≡ K.write_rest sink.old }
{
    match fault {
        KeptFault::Keeper => tell(sink, "keeper fault\n", Status::KeeperFault),
        KeptFault::Refused(number, about) => {
            let line = alloc.broken_line(number, about.as_str());
            tell_made(sink, line, Status::BrokenRows)
        }
        KeptFault::Memory => Status::NoMemory,
    }
}
