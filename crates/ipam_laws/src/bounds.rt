//! How many calls a request makes.
ghost use Rattle.ipam_model.specs.BoundLaw.{BoundLaw, CollectBoundLaw, CollectCallsLaw, DelCallsLaw, RequestCallsLaw, SpanBoundLaw};
ghost use Rattle.ipam_model.specs.CallsLeft.{CallsLeftLaw};

/// Whatever it is answered, a request makes at most so many calls.
pub fn each_request_makes_at_most_so_many_calls()
    ensures { BoundLaw }
{}

/// A collection makes at most four calls for each thing that it frees, and two hundred more.
pub fn each_collection_makes_at_most_so_many_calls()
    ensures { CollectBoundLaw }
{}

/// From any moment on, a request makes no more calls in its slot than what is left of it can make.
pub fn what_is_left_of_a_request_bounds_its_calls()
    ensures { SpanBoundLaw }
{}

/// Since a request began, there are no more calls in its slot than the request can make.
pub fn a_request_makes_no_more_calls_in_its_slot()
    ensures { RequestCallsLaw }
{}

/// A DEL makes at most four calls for each block that its handle has at its read, and two hundred
/// more.
pub fn a_del_makes_at_most_so_many_calls_in_its_slot()
    ensures { DelCallsLaw }
{}

/// A collection makes at most four calls for each leak that it keeps at its second list, and two
/// hundred more.
pub fn a_collection_makes_at_most_so_many_calls_in_its_slot()
    ensures { CollectCallsLaw }
{}

/// A number bounds the calls that are left of a request. Each call without an answer lowers it, but
/// for the first read of a DEL, which sets it by the blocks of the handle; and a second list of live
/// handles sets it anew.
pub fn the_calls_that_are_left_fall()
    ensures { CallsLeftLaw }
{}
