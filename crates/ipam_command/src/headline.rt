//! What the program writes is right in the whole sense of the model. Each function does nothing: its
//! contract is the law.
ghost use Rattle.ipam_command.specs.Headline.{PlayedRightLaw, SoFarRightLaw, WrittenRightLaw};
ghost use Rattle.ipam_command.specs.Generating.{CountedRightLaw, GeneratedRightLaw};

/// Whatever bytes a script has, and however it ends: the entries that are played are, over what its
/// base opens as, a history that is right in all that the model states of records, owners, counts,
/// claims, labels, answers and bounds, at each of its moments. A restart is one of the events, and what
/// runs then is stopped.
pub fn what_is_played_is_right()
    ensures { PlayedRightLaw }
{}

/// What `play` has written is the journal of these entries, with the last line of its ending, and these
/// entries are a right history. Where the source failed or memory was wanted, they are the entries so
/// far; where the sink failed, a front part of the journal was written.
pub fn what_play_writes_tells_of_a_right_history()
    ensures { WrittenRightLaw }
{}

/// What `play` has written where a read of the source failed: the lines of all entries so far, which are
/// those of the lines that were read whole, and after them the fault. These entries are a right history.
pub fn what_play_writes_before_a_read_fault_tells_of_a_right_history()
    ensures { SoFarRightLaw }
{}

/// The course of the generator's events is a right history, whatever number of requests is asked for.
pub fn what_is_generated_is_right()
    ensures { GeneratedRightLaw }
{}

/// The summary that the generator has written is counted on this course of its events, which is a right
/// history.
pub fn what_gen_writes_is_counted_on_a_right_history()
    ensures { CountedRightLaw }
{}
