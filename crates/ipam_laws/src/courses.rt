//! Events and histories are two sides of the same.
ghost use Rattle.ipam_model.specs.Alone.{AloneHistoryLaw};
ghost use Rattle.ipam_model.specs.CourseLaw.{CourseLaw, HistoryLaw};

/// The entries that any events make, each in a slot that exists and with what is sound, are a lawful
/// history, also where an event is refused.
pub fn the_course_of_events_is_lawful()
    ensures { CourseLaw }
{}

/// A lawful history is the course of its own events, and no event is refused.
pub fn a_lawful_history_is_the_course_of_its_events()
    ensures { HistoryLaw }
{}

/// A request that runs in slot 0 by itself, with every call done, has the answer and leaves the
/// datastore that its word alone comes to.
pub fn a_request_alone_comes_to_what_its_word_does()
    ensures { AloneHistoryLaw }
{}
