//! The replies to CNI calls that run by themselves. Each function does nothing: its contract is the
//! law.
ghost use Rattle.ipam_command.specs.Alone.{CallNeverAgainLaw, NoTryAgainLaw, StatusLaw};
ghost use Rattle.ipam_command.specs.ByRecords.{ByRecordsLaw};
ghost use Rattle.ipam_command.specs.Spare.{GcLeavesLaw, StatusAddsLaw};

/// No reply has code 11, which asks to try again later: nobody else runs.
pub fn no_call_is_told_to_try_again()
    ensures { NoTryAgainLaw }
{}

/// No reply has code 11, whatever request the environment and standard input of a call begin.
pub fn no_call_that_is_read_is_told_to_try_again()
    ensures { CallNeverAgainLaw }
{}

/// STATUS of one family tells of the ADD that asks for the same on the same rows.
pub fn status_tells_of_the_add()
    ensures { StatusLaw }
{}

/// GC leaves exactly the owners of other networks and nodes, and those whose handles are of valid
/// attachments, where the rows that were opened have spare.
pub fn gc_leaves_what_is_outside_the_scope_or_listed()
    ensures { GcLeavesLaw }
{}

/// STATUS has the status 0 exactly where the ADD that asks for the same would be given its addresses,
/// where the rows that were opened have spare.
pub fn status_succeeds_where_the_add_gives_addresses()
    ensures { StatusAddsLaw }
{}

/// A call is replied what the function of the records says, and leaves the records that it says, where
/// the rows that were opened have spare.
pub fn a_call_is_told_what_the_records_say()
    ensures { ByRecordsLaw }
{}
