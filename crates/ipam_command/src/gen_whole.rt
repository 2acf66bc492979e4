//! The generator runs, and its summary is written.
ghost use Rattle.std.specs.Prelude.{◌≡◌, [], IfOk, string_bytes};
ghost use Rattle.ipam_command.specs.Counted.{IsCounted};
ghost use Rattle.ipam_command.specs.Numbers.{IsCourse, summary_in};
ghost use Rattle.ipam_command.specs.Summary.{CountsFaults, HasWrittenSummary, IsSummaryText};

use crate::gen_base::open;
use crate::gen_collecting::collect;
use crate::gen_counted::Counted;
use crate::gen_drawing::draw_all;
use crate::gen_end::GenEnd;
use crate::gen_running::run_all_out;
use crate::gen_summary::{Numbers, owners};
use ipam_io::Sink;
use std::alloc::{AllocError, Global};

/// Runs so many drawn requests and then a collection, in a cluster of its own, and writes a summary of
/// six lines. No journal is kept.
///
/// With the end `NoMemory` nothing is written.
pub fn generate<K: Sink>(alloc: Global, requests: u32, sink: &mut K) -> GenEnd
    ensures written { HasWrittenSummary result requests (K.written sink.old) (K.written sink.new) }
    ensures faults { CountsFaults result (K.write_faults sink.old) (K.write_faults sink.new) }
    ensures rest { K.write_rest sink.new ≡ K.write_rest sink.old }
{
    match summary(alloc, requests) {
        Ok(text) => match sink.write(text.as_bytes()) {
            Ok(()) => GenEnd::Done,
            Err(_) => GenEnd::WriteFault,
        },
        Err(_) => GenEnd::NoMemory,
    }
}

/// The text of the summary.
fn summary(alloc: Global, requests: u32) -> Result<String, AllocError>
    ensures { IfOk result (λ text. IsSummaryText requests (string_bytes text)) }
{
    let mut counted = Counted {
        cluster: open(alloc)?,
        again: 0,
        exhausted: 0,
    };
    let numbers = run(alloc, &mut counted, requests)?;
    numbers.text(alloc)
}

/// Runs all of it, and counts.
fn run(alloc: Global, counted: &mut Counted, requests: u32) -> Result<Numbers, AllocError>
    requires { IsCounted counted.old [] }
    ensures { IfOk result (λ numbers. IsCourse requests (summary_in numbers)) }
{
    draw_all(alloc, counted, requests)?;
    run_all_out(alloc, counted)?;
    let again = counted.again;
    let exhausted = counted.exhausted;
    let freed = collect(alloc, counted, requests)?;
    Ok(Numbers {
        requests,
        entries: counted.cluster.entries(),
        owners: owners(counted.cluster.store()),
        again,
        exhausted,
        freed,
    })
}
