//! A request that changes one thing, by itself over a keeper's rows.
ghost use Rattle.std.specs.Prelude.{◌≡◌, ◌≢◌, ◌⊎◌, ℕ, List, [], IsSome, Some, None, Err, IfOk, OnErr, Result};
ghost use Rattle.ipam_model.specs.declared.request.Request.{Request as OneRequest};
ghost use Rattle.ipam_model.specs.SoundRequest.{IsSoundRequest};
ghost use Rattle.ipam_shared.specs.declared.kept.KeptFault.{KeptFault as Fault};
ghost use Rattle.ipam_shared.specs.Kept.{KeptFor, opened};
ghost use Rattle.ipam_shared.specs.Solo.{HasNoGrace, NothingRuns};
ghost use Rattle.ipam_commands.specs.declared.outcome.ChangeOutcome.{ChangeOutcome as Outcome};
ghost use Rattle.ipam_commands.specs.Changing.{ChangeEnds, ChangeRuns, ChangeWrites, IsChange, outcome_of};
ghost use Rattle.ipam_commands.specs.Telling.{Writes};

use crate::outcome::ChangeOutcome;
use crate::status::Status;
use crate::telling::{MakesBroken, tell, tell_fault};
use ipam_io::Sink;
use ipam_keeper::Keeper;
use ipam_model::{Answer, Request};
use ipam_shared::{Kept, KeptFault, MakesSteps, OpensKept, run_alone};
use std::alloc::AllocError;

/// A request that changes one thing, with what takes the memory for it. What is generic over it knows nothing of
/// it, and so can't state by itself that it found none.
pub(crate) trait MakesChange {
    /// It found no memory.
    ghost wants: { Self → Type 0 };

    /// The request may be made.
    ghost may: { Self → Type 0 };

    /// The request.
    ghost asks: { Self → OneRequest };

    /// What is written of its outcome.
    ghost says: { Self → Outcome → List ℕ };

    /// Makes the request.
    fn request(&self) -> Result<Request, AllocError>
        requires { may self.now }
        ensures asks { IfOk result (λ request. request ≡ asks self.now) }
        ensures sound { IfOk result IsSoundRequest }
        ensures no_grace { IfOk result HasNoGrace }
        ensures change { IfOk result IsChange }
        ensures wants { OnErr result (wants self.now) };

    /// The line of its outcome, which takes no memory.
    fn line(&self, found: ChangeOutcome) -> &'static str
        ensures { result.now ≡ says self.now found };
}

/// Runs the request by itself over the keeper's rows, and writes what came of it. It ends for want of memory only
/// where making the request found none, or opening the rows, or the run, or the line on broken rows.
pub(crate) fn tell_change<
    A: OpensKept + MakesSteps + MakesBroken + Copy + Drop,
    T: MakesChange,
    K: Sink,
    D: Keeper,
>(alloc: A, change: &T, sink: &mut K, keeper: &mut D) -> Status
    requires { T.may change.now }
    ensures changed { (came : Result Outcome Fault)
        × ChangeEnds (T.asks change.now) came (D.rows keeper.old) (D.rows keeper.new) (D.faults keeper.old) (D.faults keeper.new)
        × ChangeWrites (T.says change.now) (λ text own. Writes (K.written sink.old) (K.written sink.new)
        (K.write_faults sink.old) (K.write_faults sink.new) text own result) (result ≢ Status.NoMemory) came }
    ensures want_of_memory_has_its_cause { result ≡ Status.NoMemory
        → T.wants change.now ⊎ A.OpensKept.wants alloc ⊎ A.MakesSteps.wants alloc ⊎ A.MakesBroken.wants alloc }
    ensures rest { K.write_rest sink.new ≡ K.write_rest sink.old }
{
    match come_to(alloc, change, keeper) {
        Ok(found) => tell(sink, change.line(found), found.status()),
        Err(fault) => tell_fault(alloc, sink, fault),
    }
}

/// What the request comes to. `Memory` is returned only where making it found none, or opening the rows, or the
/// run.
fn come_to<A: OpensKept + MakesSteps + Copy + Drop, T: MakesChange, D: Keeper>(
    alloc: A,
    change: &T,
    keeper: &mut D,
) -> Result<ChangeOutcome, KeptFault>
    requires { T.may change.now }
    ensures ended { ChangeEnds (T.asks change.now) result (D.rows keeper.old) (D.rows keeper.new)
        (D.faults keeper.old) (D.faults keeper.new) }
    ensures want_of_memory_has_its_cause { result ≡ Err KeptFault.Memory
        → T.wants change.now ⊎ A.OpensKept.wants alloc ⊎ A.MakesSteps.wants alloc }
{
    match change.request() {
        Ok(request) => {
            let (came, _keeper) = open_and_run(alloc, &mut *keeper, &request);
            came
        }
        Err(AllocError) => Err(KeptFault::Memory),
    }
}

/// Opens the keeper's rows, and runs the request. The keeper comes back.
///
/// `Memory` is returned only where opening the rows found none, or the run did.
fn open_and_run<T: OpensKept + MakesSteps + Copy + Drop, D: Keeper>(
    alloc: T,
    keeper: D,
    request: &Request,
) -> (Result<ChangeOutcome, KeptFault>, D)
    requires sound { IsSoundRequest request.now }
    requires no_grace { HasNoGrace request.now }
    requires change { IsChange request.now }
    ensures ended { ChangeEnds request.now result.0 (D.rows keeper) (D.rows result.1)
        (D.faults keeper) (D.faults result.1) }
    ensures want_of_memory_has_its_cause { result.0 ≡ Err KeptFault.Memory
        → T.OpensKept.wants alloc ⊎ T.MakesSteps.wants alloc }
    ensures same { D.name result.1 ≡ D.name keeper }
{
    match Kept::open(alloc, keeper, 0) {
        Ok(mut kept) => {
            let came = run(alloc, &mut kept, request);
            (came, kept.into_keeper())
        }
        Err((keeper, fault)) => (Err(fault), keeper),
    }
}

/// Runs the request over the rows that were opened. `Memory` is returned only where the run found none.
fn run<T: MakesSteps + Drop, D: Keeper>(
    alloc: T,
    kept: &mut Kept<D>,
    request: &Request,
) -> Result<ChangeOutcome, KeptFault>
    requires sound { IsSoundRequest request.now }
    requires no_grace { HasNoGrace request.now }
    requires change { IsChange request.now }
    requires idle { NothingRuns kept.old }
    requires sure { kept.old.doubt ≡ None }
    requires first { kept.old.cluster.entries ≡ 0 }
    requires kept { KeptFor D.rows kept.old (opened kept.old.cluster.store.store) [] }
    ensures ran { ChangeRuns kept.old.cluster.store.store request.now result (D.rows kept.new.keeper)
        (D.faults kept.old.keeper) (D.faults kept.new.keeper) }
    ensures want_of_memory_has_its_cause { result ≡ Err KeptFault.Memory → T.wants alloc }
    ensures same { D.name kept.new.keeper ≡ D.name kept.old.keeper }
{
    match run_alone(alloc, kept, request) {
        Ok(answer) => outcome_of(&answer),
        Err(AllocError) => Err(KeptFault::Memory),
    }
}

/// What an answer comes to. By itself the request is never answered `Again`.
fn outcome_of(answer: &Answer) -> Result<ChangeOutcome, KeptFault>
    requires { IsSome (outcome_of answer.now) }
    ensures comes { outcome_of answer.now ≡ Some result }
    ensures no_want { result ≢ Err KeptFault.Memory }
{
    match answer {
        Answer::Released | Answer::Done(_) => Ok(ChangeOutcome::Made),
        Answer::NoAffinity(_) | Answer::Refused(_, _) => Ok(ChangeOutcome::Absent),
        Answer::Full => Ok(ChangeOutcome::Full),
        Answer::Spent => Ok(ChangeOutcome::Spent),
        Answer::Fault => Err(KeptFault::Keeper),
        _ => unreachable!(),
    }
}
