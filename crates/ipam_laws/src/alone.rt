//! What requests come to that run alone.
ghost use Rattle.ipam_laws.specs.AlonePlain.{CheckAloneLaw, ProbeAloneLaw, ProbeTellsLaw};
ghost use Rattle.ipam_model.specs.Alone.{AloneAgainLaw};

/// A CHECK that runs alone says what the records say, and leaves them as they are.
pub fn a_check_alone_says_what_the_records_say()
    ensures { CheckAloneLaw }
{}

/// A probe that runs alone says what the records say, and leaves them as they are: that an address can
/// be given of each wanted family, or of which family none can, or which name no pool has.
pub fn a_probe_alone_says_what_the_records_say()
    ensures { ProbeAloneLaw }
{}

/// A request that runs alone over a consistent base is never answered that it was tried too often,
/// whether there is room, revisions and counts enough or not: it loses no race, and an ADD claims one
/// block of each family at most.
pub fn a_request_alone_is_never_tried_too_often()
    ensures { AloneAgainLaw }
{}

/// Of one family, over a consistent base: an ADD that runs alone gives an address exactly where the
/// probe that runs alone is ready, or it wants room, a count or a revision.
pub fn a_probe_alone_tells_of_an_add_alone()
    ensures { ProbeTellsLaw }
{}
