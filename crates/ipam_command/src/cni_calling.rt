//! A call is looked at, and its request runs.
ghost use Rattle.std.specs.Prelude.{◌≡◌, ◌⊎◌, None, []};
ghost use Rattle.ipam_model.specs.CanAnswer.{CanAnswer};
ghost use Rattle.ipam_model.specs.SoundRequest.{IsSoundRequest};
ghost use Rattle.ipam_shared.specs.Kept.{KeptFor, opened};
ghost use Rattle.ipam_shared.specs.Solo.{HasNoGrace, NothingRuns};
ghost use Rattle.ipam_call.specs.Versions.{version_for};
ghost use Rattle.ipam_keeper.specs.Outside.{outside_of};
ghost use Rattle.ipam_command.specs.Calls.{AnswerEnds, CallEnds, InputEnds, IsInVersion, RefusalEnds, RequestEnds, AloneEnds, OnWant, CniCallWent, IsNotOpenedEnd, TellsError, end_of};
ghost use Rattle.ipam_command.specs.Replies.{IsOfCall, bad_rows};

use crate::cni_end::{CniEnd, CniFault};
use crate::cni_reading::ReadsCalls;
use crate::cni_texts::MakesTexts;
use cni_asks::Ask;
use cni_types::{CniError, Code, LookFault, Version};
use ipam_call::InputFault;
use ipam_io::Source;
use ipam_keeper::Keeper;
use ipam_model::{Answer, Request};
use ipam_shared::{Kept, KeptFault, MakesSteps, OpensKept, run_alone};
use ipam_text::Text;
use std::alloc::{AllocError, Global};

/// Makes the call, but for what is written.
pub fn make_call<S: Source, D: Keeper>(
    alloc: Global,
    env: &[(Text, Text)],
    source: &mut S,
    keeper: &mut D,
) -> CniEnd
    ensures went { CniCallWent (keeper.new ≡ keeper.old) env.now result
        (outside_of (S.left source.old) (S.read_faults source.old) None 0 (D.rows keeper.old) (D.faults keeper.old))
        (outside_of (S.left source.new) (S.read_faults source.new) None 0 (D.rows keeper.new) (D.faults keeper.new)) }
    ensures rest { S.read_rest source.new ≡ S.read_rest source.old }
{
    make_call_by(alloc, env, source, keeper)
}

/// Makes the call, but for what is written. It ends with want of memory only where reading the call found none, or
/// opening the rows, or the run, or the text that is written.
#[tactic(auto, using(crate::proofs::Makings::unread_went))]
fn make_call_by<
    T: ReadsCalls + OpensKept + MakesSteps + MakesTexts + Copy + Drop,
    S: Source,
    D: Keeper,
>(alloc: T, env: &[(Text, Text)], source: &mut S, keeper: &mut D) -> CniEnd
    ensures went { CniCallWent (keeper.new ≡ keeper.old) env.now result
        (outside_of (S.left source.old) (S.read_faults source.old) None 0 (D.rows keeper.old) (D.faults keeper.old))
        (outside_of (S.left source.new) (S.read_faults source.new) None 0 (D.rows keeper.new) (D.faults keeper.new)) }
    ensures want_of_memory_has_its_cause { OnWant result (T.ReadsCalls.wants alloc ⊎ T.OpensKept.wants alloc
        ⊎ T.MakesSteps.wants alloc ⊎ T.MakesTexts.wants alloc) }
    ensures rest { S.read_rest source.new ≡ S.read_rest source.old }
{
    match alloc.read_input(source) {
        Ok(input) => call_with(alloc, env, input.as_slice(), keeper),
        Err(InputFault::Read) => CniEnd::Failed(Version::V1_0_0, CniFault::Read),
        Err(InputFault::Memory) => CniEnd::Failed(Version::V1_0_0, CniFault::Memory),
    }
}

/// Reads the version of the configuration, and makes the call with this standard input.
fn call_with<T: ReadsCalls + OpensKept + MakesSteps + MakesTexts + Copy + Drop, D: Keeper>(
    alloc: T,
    env: &[(Text, Text)],
    input: &[u8],
    keeper: &mut D,
) -> CniEnd
    ensures ends { InputEnds (keeper.new ≡ keeper.old) env.now input.now result (D.rows keeper.old) (D.rows keeper.new)
        (D.faults keeper.old) (D.faults keeper.new) }
    ensures want_of_memory_has_its_cause { OnWant result (T.ReadsCalls.wants alloc ⊎ T.OpensKept.wants alloc
        ⊎ T.MakesSteps.wants alloc ⊎ T.MakesTexts.wants alloc) }
{
    match alloc.version_for(input) {
        Ok(version) => call_in(alloc, env, input, version, keeper),
        Err(AllocError) => CniEnd::Failed(Version::V1_0_0, CniFault::Memory),
    }
}

/// Looks at the call, whose configuration has this version, and begins what it asks.
fn call_in<T: ReadsCalls + OpensKept + MakesSteps + MakesTexts + Copy + Drop, D: Keeper>(
    alloc: T,
    env: &[(Text, Text)],
    input: &[u8],
    version: Version,
    keeper: &mut D,
) -> CniEnd
    requires { version ≡ version_for input.now }
    ensures version { IsInVersion result input.now }
    ensures ends { CallEnds env.now input.now result (D.rows keeper.old) (D.rows keeper.new)
        (D.faults keeper.old) (D.faults keeper.new) }
    ensures want_of_memory_has_its_cause { OnWant result (T.ReadsCalls.wants alloc ⊎ T.OpensKept.wants alloc
        ⊎ T.MakesSteps.wants alloc ⊎ T.MakesTexts.wants alloc) }
{
    let look = match alloc.look(env, input) {
        Ok(look) => look,
        Err(LookFault::Refused(error)) => return refusal_end(alloc, &error),
        Err(LookFault::Memory) => return CniEnd::Failed(version, CniFault::Memory),
    };
    match alloc.begun_by(look) {
        Ok(Ask::Tell(text)) => CniEnd::Told(0, text),
        Ok(Ask::Begin(request, version)) => request_end(alloc, &request, version, keeper),
        Err(_) => CniEnd::Failed(version, CniFault::Memory),
    }
}

/// How the call ends that is refused with this error.
fn refusal_end<T: MakesTexts + Copy + Drop>(alloc: T, error: &CniError) -> CniEnd
    ensures ends { RefusalEnds error.now result }
    ensures want_of_memory_has_its_cause { OnWant result (T.wants alloc) }
{
    match error.code {
        Code::Undecodable => CniEnd::Failed(error.version, CniFault::Undecodable),
        _ => refused(alloc, error),
    }
}

/// How the call ends that begins this request.
fn request_end<T: OpensKept + MakesSteps + MakesTexts + Copy + Drop, D: Keeper>(
    alloc: T,
    request: &Request,
    version: Version,
    keeper: &mut D,
) -> CniEnd
    requires sound { IsSoundRequest request.now }
    requires no_grace { HasNoGrace request.now }
    requires of_call { IsOfCall request.now }
    ensures ends { RequestEnds request.now version result (D.rows keeper.old) (D.rows keeper.new)
        (D.faults keeper.old) (D.faults keeper.new) }
    ensures want_of_memory_has_its_cause { OnWant result (T.OpensKept.wants alloc ⊎ T.MakesSteps.wants alloc ⊎ T.MakesTexts.wants alloc) }
{
    let (end, _keeper) = open_and_run(alloc, request, version, &mut *keeper);
    end
}

/// Opens the keeper's rows, and runs the request. The keeper comes back. It ends with want of memory only
/// where opening the rows found none, or the run did, or the text that is written.
fn open_and_run<T: OpensKept + MakesSteps + MakesTexts + Copy + Drop, D: Keeper>(
    alloc: T,
    request: &Request,
    version: Version,
    keeper: D,
) -> (CniEnd, D)
    requires sound { IsSoundRequest request.now }
    requires no_grace { HasNoGrace request.now }
    requires of_call { IsOfCall request.now }
    ensures ends { RequestEnds request.now version result.0 (D.rows keeper) (D.rows result.1)
        (D.faults keeper) (D.faults result.1) }
    ensures want_of_memory_has_its_cause { OnWant result.0 (T.OpensKept.wants alloc ⊎ T.MakesSteps.wants alloc ⊎ T.MakesTexts.wants alloc) }
    ensures same { D.name result.1 ≡ D.name keeper }
{
    match Kept::open(alloc, keeper, 0) {
        Ok(mut kept) => {
            let end = run(alloc, &mut kept, request, version);
            (end, kept.into_keeper())
        }
        Err((keeper, fault)) => (not_opened(alloc, version, fault), keeper),
    }
}

/// Runs the request over the rows that were opened.
fn run<T: MakesSteps + MakesTexts + Copy + Drop, D: Keeper>(
    alloc: T,
    kept: &mut Kept<D>,
    request: &Request,
    version: Version,
) -> CniEnd
    requires sound { IsSoundRequest request.now }
    requires no_grace { HasNoGrace request.now }
    requires of_call { IsOfCall request.now }
    requires idle { NothingRuns kept.old }
    requires sure { kept.old.doubt ≡ None }
    requires first { kept.old.cluster.entries ≡ 0 }
    requires kept { KeptFor D.rows kept.old (opened kept.old.cluster.store.store) [] }
    ensures ended { AloneEnds kept.old.cluster.store.store request.now version result (D.rows kept.new.keeper)
        (D.faults kept.old.keeper) (D.faults kept.new.keeper) }
    ensures want_of_memory_has_its_cause { OnWant result (T.MakesSteps.wants alloc ⊎ T.MakesTexts.wants alloc) }
    ensures same { D.name kept.new.keeper ≡ D.name kept.old.keeper }
{
    match run_alone(alloc, kept, request) {
        Ok(answer) => answer_end(alloc, request, &answer, version),
        Err(AllocError) => CniEnd::Failed(version, CniFault::Memory),
    }
}

/// How the call ends whose request came to this answer.
fn answer_end<T: MakesTexts + Copy + Drop>(
    alloc: T,
    request: &Request,
    answer: &Answer,
    version: Version,
) -> CniEnd
    requires of_call { IsOfCall request.now }
    requires can_answer { CanAnswer request.now answer.now }
    ensures ends { AnswerEnds request.now answer.now version result }
    ensures want_of_memory_has_its_cause { OnWant result (T.wants alloc) }
{
    match answer {
        Answer::Fault => CniEnd::Failed(version, CniFault::Keeper),
        _ => end_of(version, alloc.reply(request, answer, version)),
    }
}

/// Why the rows were not opened.
fn not_opened<T: MakesTexts + Copy + Drop>(alloc: T, version: Version, fault: KeptFault) -> CniEnd
    ensures ends { IsNotOpenedEnd version fault result }
    ensures want_of_memory_has_its_cause { OnWant result ((fault ≡ KeptFault.Memory) ⊎ T.wants alloc) }
{
    match fault {
        KeptFault::Keeper => CniEnd::Failed(version, CniFault::Keeper),
        KeptFault::Memory => CniEnd::Failed(version, CniFault::Memory),
        KeptFault::Refused(number, about) => bad_rows(alloc, version, number, about.as_str()),
    }
}

fn bad_rows<T: MakesTexts + Copy + Drop>(
    alloc: T,
    version: Version,
    number: u8,
    about: &str,
) -> CniEnd
    ensures ends { TellsError (bad_rows version number about.now) result }
    ensures want_of_memory_has_its_cause { OnWant result (T.wants alloc) }
{
    match alloc.details(number, about) {
        Ok(details) => refused(
            alloc,
            &CniError {
                version,
                code: Code::BadDatastore,
                details,
            },
        ),
        Err(_) => CniEnd::Failed(version, CniFault::Memory),
    }
}

/// The end with this error.
fn refused<T: MakesTexts + Copy + Drop>(alloc: T, error: &CniError) -> CniEnd
    ensures ends { TellsError error.now result }
    ensures want_of_memory_has_its_cause { OnWant result (T.wants alloc) }
{
    end_of(error.version, alloc.error_reply(error))
}

/// The end with this reply, or without memory for it.
fn end_of(version: Version, reply: Result<(u8, Text), AllocError>) -> CniEnd
    ensures { result ≡ end_of version reply }
{
    match reply {
        Ok((status, text)) => CniEnd::Told(status, text),
        Err(AllocError) => CniEnd::Failed(version, CniFault::Memory),
    }
}
