//! What a word writes.
ghost use Rattle.std.specs.Prelude.{◌≡◌, ℕ, List, IfOk, string_bytes};
ghost use Rattle.ipam_operator.specs.Telling.{Says, WritesText, fault_end, fault_line};

use crate::asking::AskFault;
use crate::end::End;
use ipam_io::Sink;
use std::alloc::AllocError;

/// Ends with this text. That takes no memory.
pub fn tell<K: Sink>(sink: &mut K, text: &str, own: End) -> End
    ensures written { WritesText (K.written sink.old) (K.written sink.new)
        (K.write_faults sink.old) (K.write_faults sink.new) text.now own result }
    ensures rest { K.write_rest sink.new ≡ K.write_rest sink.old }
{
    match sink.write(text.as_bytes()) {
        Ok(()) => own,
        Err(_) => End::WriteFault,
    }
}

/// Ends with this text, where there was memory for it.
pub fn tell_made<K: Sink>(sink: &mut K, text: Result<String, AllocError>, own: End) -> End
    ensures written { (said : List ℕ) → IfOk text (λ made. string_bytes made ≡ said)
        → Says (Unit {0}) (K.written sink.old) (K.written sink.new)
        (K.write_faults sink.old) (K.write_faults sink.new) said own result }
    ensures rest { K.write_rest sink.new ≡ K.write_rest sink.old }
{
    match text {
        Ok(made) => tell(sink, made.as_str(), own),
        Err(AllocError) => End::NoMemory,
    }
}

/// Ends where there is no reply.
pub fn tell_fault<K: Sink>(sink: &mut K, fault: AskFault) -> End
    ensures told { Says (fault ≡ AskFault.Memory) (K.written sink.old) (K.written sink.new)
        (K.write_faults sink.old) (K.write_faults sink.new) (fault_line fault) (fault_end fault) result }
    ensures rest { K.write_rest sink.new ≡ K.write_rest sink.old }
{
    match fault {
        AskFault::Link => tell(sink, "link fault\n", End::LinkFault),
        AskFault::Reply => tell(sink, "reply fault\n", End::ReplyFault),
        AskFault::Memory => End::NoMemory,
    }
}

/// Ends where nobody answers at the daemon's address: `link fault`.
pub fn unreached<K: Sink>(sink: &mut K) -> End
    ensures told { WritesText (K.written sink.old) (K.written sink.new)
        (K.write_faults sink.old) (K.write_faults sink.new) (fault_line AskFault.Link) End.LinkFault result }
    ensures rest { K.write_rest sink.new ≡ K.write_rest sink.old }
{
    tell(sink, "link fault\n", End::LinkFault)
}
