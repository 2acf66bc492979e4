//! Calls that fail.
ghost use Rattle.ipam_model.specs.Alone.{AloneFaultLaw};
ghost use Rattle.ipam_model.specs.AnswerLaw.{FaultLaw};
ghost use Rattle.ipam_model.specs.FateLaw.{FateLaw, MayHaveDoneLaw};

/// A request is answered Fault exactly where a call of it failed.
pub fn a_request_is_answered_fault_exactly_where_its_call_failed()
    ensures { FaultLaw }
{}

/// A call of any fate may have had any other.
pub fn a_call_may_have_any_fate()
    ensures { FateLaw }
{}

/// Where a call failed before it was done, the same call failing after is lawful too, and leaves the
/// slots as they are: so a write that failed may have been done.
pub fn a_failed_call_may_have_been_done()
    ensures { MayHaveDoneLaw }
{}

/// A request that runs alone, with every call done, is never answered Fault.
pub fn a_request_alone_is_never_answered_fault()
    ensures { AloneFaultLaw }
{}
