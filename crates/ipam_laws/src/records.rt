//! Records over a whole history: whatever happens, they stay sound, within the limits, at slots, and
//! consistent with each other.
ghost use Rattle.ipam_model.specs.Consistent.{SoundLaw, LimitsLaw, SlotsLaw, ConsistentLaw};

/// At each moment, every record is sound, the keys ascend, each revision was given, and a block was
/// written less often than the datastore.
pub fn records_stay_sound()
    ensures { SoundLaw }
{}

/// At each moment, there are no more rows and no more blocks than may be.
pub fn rows_stay_within_the_limits()
    ensures { LimitsLaw }
{}

/// At each moment, each block and each affinity lies at a slot of a pool.
pub fn blocks_and_affinities_stay_at_slots()
    ensures { SlotsLaw }
{}

/// At each moment, all of this holds of the records, counts cover addresses, and blocks and affinities
/// agree.
pub fn records_stay_consistent()
    ensures { ConsistentLaw }
{}
