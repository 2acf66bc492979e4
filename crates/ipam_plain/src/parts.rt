//! What the freeing of one address and a claim answer.
ghost use Rattle.ipam_plain.specs.Parts.{Freed, GoneByStamp, GoneWithTheBlock, NoRevisionToFree, EveryTryLost, LastTryDone, Confirms, LostAtTheAffinity, LostAtTheBlock, LostAtTheEnd, LostTakingBack, NoRoomForTheBlock, NoRevisionToConfirm};

/// The freeing of one address: it is freed or gone, or the request ends.
pub fn freeings_of_one_address()
    ensures freed { Freed }
    ensures gone_by_stamp { GoneByStamp }
    ensures gone_with_the_block { GoneWithTheBlock }
    ensures no_revision_to_free { NoRevisionToFree }
    ensures every_try_lost { EveryTryLost }
    ensures last_try_done { LastTryDone }
{}

/// A claim is confirmed, or ends at its first lost race.
pub fn claims()
    ensures confirms { Confirms }
    ensures lost_at_the_affinity { LostAtTheAffinity }
    ensures lost_at_the_block { LostAtTheBlock }
    ensures lost_at_the_end { LostAtTheEnd }
    ensures lost_taking_back { LostTakingBack }
    ensures no_room_for_the_block { NoRoomForTheBlock }
    ensures no_revision_to_confirm { NoRevisionToConfirm }
{}
