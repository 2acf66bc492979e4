//! Resources are applied over a keeper's rows.
ghost use Rattle.std.specs.Prelude.{◌≡◌, ◌⊎◌, None};
ghost use Rattle.std.specs.List.{All};
ghost use Rattle.ipam_commands.specs.Applied.{ResourcesEnd};
ghost use Rattle.ipam_commands.specs.Applying.{RunEnds};
ghost use Rattle.ipam_keeper.specs.Outside.{outside_of};
ghost use Rattle.ipam_commands.specs.Ready.{IsFit, IsReady};

use crate::lines::MakesLines;
use crate::status::Status;
use crate::step::{Step, apply_one};
use crate::telling::{MakesBroken, tell_fault};
use ipam_io::Sink;
use ipam_keeper::Keeper;
use ipam_resources::Resource;
use ipam_shared::{Kept, MakesSteps, OpensKept};
use ipam_text::Seq;

/// Opens the keeper's rows, and applies the resources.
pub(crate) fn apply_resources<
    T: OpensKept + MakesBroken + MakesSteps + MakesLines + Copy + Drop,
    K: Sink,
    D: Keeper,
>(alloc: T, sink: &mut K, keeper: &mut D, resources: Seq<Resource>) -> Status
    requires { All IsFit resources }
    ensures ended { ResourcesEnd resources
        (outside_of None 0 (K.written sink.old) (K.write_faults sink.old) (D.rows keeper.old) (D.faults keeper.old))
        (outside_of None 0 (K.written sink.new) (K.write_faults sink.new) (D.rows keeper.new) (D.faults keeper.new)) result }
    ensures want_of_memory_has_its_cause { result ≡ Status.NoMemory
        → T.OpensKept.wants alloc ⊎ T.MakesBroken.wants alloc ⊎ T.MakesSteps.wants alloc ⊎ T.MakesLines.wants alloc }
    ensures rest { K.write_rest sink.new ≡ K.write_rest sink.old }
{
    let (end, _keeper) = open_and_run(alloc, sink, &mut *keeper, resources);
    end
}

/// Opens the keeper's rows, and applies the resources. The keeper comes back. It ends for want of memory only
/// where opening the rows found none, or a request did, or a line that is written.
fn open_and_run<
    T: OpensKept + MakesBroken + MakesSteps + MakesLines + Copy + Drop,
    K: Sink,
    D: Keeper,
>(alloc: T, sink: &mut K, keeper: D, resources: Seq<Resource>) -> (Status, D)
    requires { All IsFit resources }
    ensures ended { ResourcesEnd resources
        (outside_of None 0 (K.written sink.old) (K.write_faults sink.old) (D.rows keeper) (D.faults keeper))
        (outside_of None 0 (K.written sink.new) (K.write_faults sink.new) (D.rows result.1) (D.faults result.1)) result.0 }
    ensures want_of_memory_has_its_cause { result.0 ≡ Status.NoMemory
        → T.OpensKept.wants alloc ⊎ T.MakesBroken.wants alloc ⊎ T.MakesSteps.wants alloc ⊎ T.MakesLines.wants alloc }
    ensures same { D.name result.1 ≡ D.name keeper }
    ensures rest { K.write_rest sink.new ≡ K.write_rest sink.old }
{
    match Kept::open(alloc, keeper, 0) {
        Ok(mut kept) => {
            let end = run(alloc, sink, &mut kept, resources.into_vec());
            (end, kept.into_keeper())
        }
        Err((keeper, fault)) => (tell_fault(alloc, sink, fault), keeper),
    }
}

/// Applies the resources, up to one at which the run ends. The cluster has no entries yet, so none of the
/// requests finds it full.
fn run<T: MakesSteps + MakesLines + Copy + Drop, K: Sink, D: Keeper>(
    alloc: T,
    sink: &mut K,
    kept: &mut Kept<D>,
    resources: Vec<Resource>,
) -> Status
    requires sound { All IsFit resources.items }
    requires ready { IsReady D.rows kept.old }
    requires first { kept.old.cluster.entries ≡ 0 }
    ensures ended { RunEnds kept.old.cluster.store.store resources.items
        (outside_of None 0 (K.written sink.old) (K.write_faults sink.old) (D.rows kept.old.keeper) (D.faults kept.old.keeper))
        (outside_of None 0 (K.written sink.new) (K.write_faults sink.new) (D.rows kept.new.keeper) (D.faults kept.new.keeper)) result }
    ensures want_of_memory_has_its_cause { result ≡ Status.NoMemory → T.MakesSteps.wants alloc ⊎ T.MakesLines.wants alloc }
    ensures same { D.name kept.new.keeper ≡ D.name kept.old.keeper }
    ensures rest { K.write_rest sink.new ≡ K.write_rest sink.old }
{
    for resource in resources {
        match apply_one(alloc, sink, kept, resource) {
            Step::Applied => {}
            Step::Ended(end) => return end,
        }
    }
    Status::Done
}
