//! One resource is applied.
ghost use Rattle.std.specs.Prelude.{◌≡◌, ◌⊎◌, None};
ghost use Rattle.ipam_keeper.specs.Outside.{outside_of};
ghost use Rattle.ipam_commands.specs.Applying.{StepEnds, alone_on};
ghost use Rattle.ipam_commands.specs.Ready.{IsFit, IsReady, OnApplied};

use crate::lines::MakesLines;
use crate::status::Status;
use crate::told_apply::tell_answer;
use ipam_io::Sink;
use ipam_keeper::Keeper;
use ipam_model::{Answer, Request};
use ipam_resources::Resource;
use ipam_shared::{Kept, MakesSteps, run_alone};
use std::alloc::AllocError;

/// What comes of one resource.
#[derive(Clone, Copy)]
pub(crate) enum Step {
    /// It is applied, and its line is written.
    Applied,
    /// The run ends at it.
    Ended(Status),
}

/// Applies the resource as a request that runs by itself, and writes what came of it. The run ends for want of
/// memory only where the request found none, or its line did.
pub(crate) fn apply_one<T: MakesSteps + MakesLines + Copy + Drop, K: Sink, D: Keeper>(
    alloc: T,
    sink: &mut K,
    kept: &mut Kept<D>,
    resource: Resource,
) -> Step
    requires fit { IsFit resource }
    requires ready { IsReady D.rows kept.old }
    ensures ended { StepEnds kept.old.cluster.store.store resource
        (outside_of None 0 (K.written sink.old) (K.write_faults sink.old) (D.rows kept.old.keeper) (D.faults kept.old.keeper))
        (outside_of None 0 (K.written sink.new) (K.write_faults sink.new) (D.rows kept.new.keeper) (D.faults kept.new.keeper)) result }
    ensures want_of_memory_has_its_cause { result ≡ Step.Ended Status.NoMemory → T.MakesSteps.wants alloc ⊎ T.MakesLines.wants alloc }
    ensures store { OnApplied result (kept.new.cluster.store.store ≡ (alone_on kept.old.cluster.store.store resource).1) }
    ensures ready { OnApplied result (IsReady D.rows kept.new) }
    ensures same { D.name kept.new.keeper ≡ D.name kept.old.keeper }
    ensures rest { K.write_rest sink.new ≡ K.write_rest sink.old }
{
    let Resource { kind, name, change } = resource;
    let request = Request::Admin(change);
    match run_alone(alloc, kept, &request) {
        Ok(answer) => {
            let change = request.into_change();
            let resource = Resource { kind, name, change };
            tell_answer(alloc, sink, &resource, &answer)
        }
        Err(AllocError) => Step::Ended(Status::NoMemory),
    }
}
