//! The cluster is opened, and shared.
ghost use Rattle.std.specs.Prelude.{◌≡◌, IfOk, IfErr};
ghost use Rattle.ipam_shared.specs.Opening.{IsOpened};
ghost use Rattle.ipam_shared.specs.Passes.{IsNewlyKept};
ghost use Rattle.ipam_daemon.specs.Opening.{IsUnopened, end_of};

use crate::served::Served;
use ipam_serve::Opening;
use ipam_shared::{Keeper, Kept, KeptFault, OpensKept};
use ipam_text::Text;
use std::alloc::{AllocError, Global};
use std::random::RandomSource;
use std::time::{Clock, Duration};

/// Opens the keeper's rows, with their history yet to be written. On `Err` the keeper comes back, and the end is
/// want of memory only where opening the rows found none.
pub fn open_kept<T: OpensKept + Drop, D: Keeper>(
    alloc: T,
    keeper: D,
) -> Result<Kept<D>, (D, Served)>
    ensures opened { IfOk result (IsOpened D.rows D.faults D.name keeper 0) }
    ensures new { IfOk result (IsNewlyKept D.rows D.settled) }
    ensures not_opened { IfErr result (λ back. IsUnopened D.rows D.faults D.name keeper back.0 back.1) }
    ensures want_of_memory_has_its_cause { IfErr result (λ back. back.1 ≡ Served.NoMemory → T.wants alloc) }
{
    match Kept::open(alloc, keeper, 0) {
        Ok(kept) => Ok(kept),
        Err((keeper, fault)) => Err((keeper, end_of(fault))),
    }
}

fn end_of(fault: KeptFault) -> Served
    ensures { result ≡ end_of fault }
{
    match fault {
        KeptFault::Keeper => Served::KeeperFault,
        KeptFault::Refused(number, about) => Served::BrokenRows(number, about),
        KeptFault::Memory => Served::NoMemory,
    }
}

/// An opening with a text of its own: the seconds since the start of 1970, a hyphen and 16 random hex
/// digits. Where the system gives no random bytes, the digits are of the clock's nanoseconds.
pub fn new_opening<R: Clock + RandomSource>(rt: &R, alloc: Global) -> Result<Opening, AllocError> {
    let time = rt.since_1970().unwrap_or(Duration::ZERO);
    let mut bytes = [0u8; 8];
    let word = match rt.fill_bytes(&mut bytes) {
        Ok(()) => u64::from_le_bytes(bytes),
        Err(_) => u64::from(time.subsec_nanos()),
    };
    let text = format!(in alloc; "{}-{word:016x}", time.as_secs())?;
    Ok(Opening::of(alloc, Text::of(text)))
}
