//! All that holds of a lawful history, at once.
ghost use Rattle.ipam_laws.specs.Right.{RightLaw};

/// Of every lawful history over a consistent base: at each of its moments the records are consistent,
/// the owners are listed in order, counts cover addresses and what running requests are ahead by, no
/// count is too high without a cause, claims and releases stand right by the calls that they have made,
/// and each label says what those calls were. Each entry changes owners in one of the five ways, writes
/// and claims only what its request may, has the datastore's own reply, and a right answer, whatever the
/// request and whatever the answer: Fault exactly where its call failed. Each span keeps its bound. One
/// key and one revision have one record; blocks stay and rise, and no stamp comes back; and what stays
/// free is given before what was held.
pub fn every_lawful_history_is_right()
    ensures { RightLaw }
{}
