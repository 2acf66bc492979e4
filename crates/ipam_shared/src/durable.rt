//! A request runs to its answer, which is given once all rows are sure.
ghost use Rattle.std.specs.Prelude.{◌≡◌, ◌≢◌, ◌⊎◌, IfOk, OnErr};
ghost use Rattle.ipam_model.specs.CanAnswer.{CanAnswer};
ghost use Rattle.ipam_model.specs.SoundRequest.{IsSoundRequest};
ghost use Rattle.ipam_shared.specs.Durable.{HasFailed, IsDurable, IsUnsettled, IsUnsure, TellsOnceSure};
ghost use Rattle.ipam_shared.specs.Kept.{IsKept};
ghost use Rattle.ipam_shared.specs.Solo.{HasNoGrace, IsStopped, NothingRuns};

use crate::kept::Kept;
use crate::solo::run_alone;
use crate::steps::MakesSteps;
use ipam_keeper::{KeepFault, Keeper};
use ipam_model::{Answer, Request};
use std::alloc::AllocError;

/// Runs the request by itself in slot 0, to its answer, and has the keeper make sure of all rows before it
/// returns. So a crash after that takes back none of the request's writes.
///
/// The answer is `Fault` exactly where the keeper failed, at a call or at the settling. Where it failed at the
/// settling, a crash may take back some of the request's writes or all. On `Err` beginning the request, one of its
/// steps or the settling found no memory.
pub fn run_durable<T: MakesSteps + Copy + Drop, D: Keeper>(
    alloc: T,
    kept: &mut Kept<D>,
    request: &Request,
) -> Result<Answer, AllocError>
    requires sound { IsSoundRequest request.now }
    requires no_grace { HasNoGrace request.now }
    requires idle { NothingRuns kept.old }
    requires kept { IsKept D.rows kept.old }
    ensures answered { IfOk result (λ told. IsDurable D.rows D.settled D.faults request.now kept.old kept.new told
        ⊎ HasFailed D.rows D.faults request.now kept.old kept.new told) }
    ensures can_answer { IfOk result (CanAnswer request.now) }
    ensures stopped { OnErr result (IsStopped D.rows D.faults request.now kept.old kept.new
        ⊎ IsUnsure D.rows D.faults request.now kept.old kept.new) }
    ensures want_of_memory_has_its_cause { OnErr result (T.wants alloc) }
    ensures idle { NothingRuns kept.new }
    ensures kept { IsKept D.rows kept.new }
    ensures same { D.name kept.new.keeper ≡ D.name kept.old.keeper }
{
    match run_alone(alloc, kept, request) {
        Ok(answer) => once_sure(alloc, kept, answer),
        Err(AllocError) => Err(AllocError),
    }
}

/// Has the keeper make sure of all rows, then returns the answer. Where the answer is that the keeper failed, it is
/// asked nothing.
fn once_sure<T: MakesSteps + Drop, D: Keeper>(
    alloc: T,
    kept: &mut Kept<D>,
    answer: Answer,
) -> Result<Answer, AllocError>
    ensures told { IfOk result (TellsOnceSure D.rows D.settled D.faults kept.old kept.new answer) }
    ensures untold { OnErr result (IsUnsettled D.rows D.faults kept.old kept.new answer) }
    ensures wants { OnErr result (T.wants alloc) }
    ensures same { D.name kept.new.keeper ≡ D.name kept.old.keeper }
{
    match &answer {
        Answer::Fault => Ok(answer),
        _ => sure_or_fault(alloc, kept, answer),
    }
}

/// Has the keeper make sure of all rows, then returns the answer, or `Fault` where the keeper failed.
fn sure_or_fault<T: MakesSteps + Drop, D: Keeper>(
    alloc: T,
    kept: &mut Kept<D>,
    answer: Answer,
) -> Result<Answer, AllocError>
    requires { answer ≢ Answer.Fault }
    ensures told { IfOk result (TellsOnceSure D.rows D.settled D.faults kept.old kept.new answer) }
    ensures untold { OnErr result (IsUnsettled D.rows D.faults kept.old kept.new answer) }
    ensures wants { OnErr result (T.wants alloc) }
    ensures same { D.name kept.new.keeper ≡ D.name kept.old.keeper }
{
    match alloc.settle(kept) {
        Ok(()) => Ok(answer),
        Err(KeepFault::Failed) => Ok(Answer::Fault),
        Err(KeepFault::Memory) => Err(AllocError),
    }
}
