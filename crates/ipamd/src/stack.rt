//! The stack of the main thread, which grows where it is touched.
use ipam_call::tell_no_memory;
use ipam_io::StdSink;
use std::alloc::AllocError;
use std::io;
use std::rt::Env;

/// How many bytes of stack are made sure of: more than any command was seen to take, 169,536.
const STACK_BYTES: usize = 196_608;

/// Makes sure of the stack that a command may need. Where a limit of memory leaves no room for it, a CNI call is answered
/// so, with this status, and other commands fail.
pub(crate) fn refused_stack(rt: &HostRuntime, is_call: bool) -> Result<Option<u8>, AllocError> {
    match map_stack(rt) {
        Ok(()) => Ok(None),
        Err(AllocError) if is_call => {
            let mut sink = StdSink::new(io::writer(rt));
            Ok(Some(tell_no_memory(&mut sink)))
        }
        Err(AllocError) => Err(AllocError),
    }
}

/// Has the system map so much of the stack, or fails. Where the stack can't grow, a signal ends the process. So as much
/// room is asked for as a block, which may be refused, and is given back; the stack takes it before anything else does,
/// and keeps it.
fn map_stack(rt: &HostRuntime) -> Result<(), AllocError> {
    let room: Vec<u8> = Vec::with_capacity(rt.alloc(), STACK_BYTES)?;
    drop(room);
    touch_stack(rt);
    Ok(())
}

/// Has a frame of that size. The system is asked to write an entry of the environment into it, which does not matter:
/// a compiler leaves out a frame that nothing uses.
#[inline(never)]
fn touch_stack(rt: &HostRuntime) {
    let mut frame = [0u8; STACK_BYTES];
    let _ = rt.var_at(0, &mut frame);
}
