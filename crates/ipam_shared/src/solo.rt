//! A request runs to its answer.
ghost use Rattle.std.specs.Prelude.{◌≡◌, ◌⊎◌, IfOk, OnErr};
ghost use Rattle.ipam_model.specs.CanAnswer.{CanAnswer};
ghost use Rattle.ipam_model.specs.SoundRequest.{IsSoundRequest};
ghost use Rattle.ipam_shared.specs.Kept.{IsKept};
ghost use Rattle.ipam_shared.specs.Solo.{HasNoGrace, IsAnswered, IsFaulted, IsStopped, NothingRuns};

use crate::going::run;
use crate::kept::Kept;
use crate::steps::{Alone, MakesSteps};
use ipam_keeper::Keeper;
use ipam_model::{Answer, Request};
use std::alloc::AllocError;

/// Runs the request by itself in slot 0, to its answer. A collection is fed its own first list, at that
/// list's time.
///
/// The answer is `Fault` exactly where the keeper failed. On `Err` beginning the request or one of its steps
/// found no memory, and what had begun was stopped. So it is where the cluster has 2^62 entries, which no
/// process lives to see.
pub fn run_alone<T: MakesSteps + Drop, D: Keeper>(
    alloc: T,
    kept: &mut Kept<D>,
    request: &Request,
) -> Result<Answer, AllocError>
    requires sound { IsSoundRequest request.now }
    requires no_grace { HasNoGrace request.now }
    requires idle { NothingRuns kept.old }
    requires kept { IsKept D.rows kept.old }
    ensures answered { IfOk result (λ told. IsAnswered D.rows D.faults request.now kept.old kept.new told
        ⊎ IsFaulted D.rows D.faults request.now kept.old kept.new told) }
    ensures can_answer { IfOk result (CanAnswer request.now) }
    ensures stopped { OnErr result (IsStopped D.rows D.faults request.now kept.old kept.new) }
    ensures want_of_memory_has_its_cause { OnErr result (T.wants alloc) }
    ensures idle { NothingRuns kept.new }
    ensures kept { IsKept D.rows kept.new }
    ensures same { D.name kept.new.keeper ≡ D.name kept.old.keeper }
{
    run(&Alone { alloc, request }, kept)
}
