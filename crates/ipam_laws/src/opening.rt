//! Rows that are opened.
ghost use Rattle.ipam_model.specs.Opened.{OneOpenedLaw, SameRecordsLaw, OpenedLaw, OpenedAgainLaw, OpensLaw, InDoubtLaw, FirstFaultLaw, AllReadLaw};

/// Either nothing breaks the rows, or one fault is the first: by the least number of a rule, and then
/// by the bytes of the key that it names.
pub fn rows_have_a_first_fault_or_none()
    ensures { FirstFaultLaw }
{}

/// Each of the rows that nothing breaks can be read.
pub fn rows_that_nothing_breaks_are_all_read()
    ensures { AllReadLaw }
{}

/// Rows by ascending keys that nothing breaks open as a datastore.
pub fn rows_that_nothing_breaks_open()
    ensures { OpensLaw }
{}

/// Rows and a counter open as one datastore at most.
pub fn rows_open_as_one_datastore_at_most()
    ensures { OneOpenedLaw }
{}

/// What is opened of a datastore's own rows, handed over by ascending key and with any counter that
/// may be theirs, has the same records at the same revisions.
pub fn the_rows_of_a_datastore_open_as_the_same()
    ensures { SameRecordsLaw }
{}

/// What was opened is consistent.
pub fn what_was_opened_is_consistent()
    ensures { OpenedLaw }
{}

/// At each moment, the rows that are there may be opened again, by ascending key and with any counter
/// from the greatest revision on, and they open as the same records at the same revisions.
pub fn what_is_there_may_be_opened_again()
    ensures { OpenedAgainLaw }
{}

/// With a write in doubt, whose call failed, what is there may be opened whether the write was done
/// or not.
pub fn a_write_in_doubt_may_be_opened_either_way()
    ensures { InDoubtLaw }
{}
