//! Counts over a whole history: a handle never counts fewer addresses than the blocks give it, and more
//! only for a cause.
ghost use Rattle.ipam_laws.specs.Excess.{CausesLaw, ExactLaw};
ghost use Rattle.ipam_model.specs.CountLaw.{CountLaw, CreditLaw};
ghost use Rattle.ipam_model.specs.Credits.{CreditsLaw};

/// At each moment, what a handle counts for a block is at least the number of addresses that the
/// block gives it.
pub fn counts_cover_addresses()
    ensures { CountLaw }
{}

/// The count also covers what the labels of running requests say that they are ahead by: an address counted that its block
/// does not show yet, or addresses given back in their block and not yet taken off the count.
pub fn counts_cover_what_running_requests_owe()
    ensures { CreditLaw }
{}

/// The count also covers what running requests are ahead by, by the calls that they have made: one from
/// the write that raised the count to that of the block or of the handle, and what was freed from the
/// write of the block to that of the handle.
pub fn counts_cover_what_calls_made_them_ahead_by()
    ensures { CreditsLaw }
{}

/// At each moment, a handle counts of a block at most what it owns there, what the base counted beyond
/// its owners, what running requests are ahead by, by the calls that they have made, and what requests
/// left over that were stopped, whose call failed, or that gave up.
pub fn no_count_is_too_high_without_a_cause()
    ensures { CausesLaw }
{}

/// Where the base's counts are what its handles own, and no request was stopped, failed or gave up, each count is
/// what its handle owns whenever nothing runs.
pub fn counts_are_exact_where_no_request_was_ended_short()
    ensures { ExactLaw }
{}
