//! Blocks over a whole history: none goes, no stamp is given twice, and an address is given again late.
ghost use Rattle.ipam_laws.specs.Queues.{GivenAgainLateLaw, NoneComesAheadLaw};
ghost use Rattle.ipam_model.specs.BlockLaw.{BlocksStayLaw, NoReturnLaw, StampsLaw};

/// A block that is there stays there. Its sequence number never falls, and rises with each write.
pub fn blocks_stay_and_their_sequence_rises()
    ensures { BlocksStayLaw }
{}

/// What a block holds with a stamp that is not above its sequence number at an earlier moment, it held
/// at that moment.
pub fn no_block_gives_a_stamp_again()
    ensures { StampsLaw }
{}

/// An owner that is gone never comes back with the same stamp.
pub fn an_owner_that_is_gone_never_returns()
    ensures { NoReturnLaw }
{}

/// While an ordinal stays free, none comes to be queued before it that was not queued before it: what is
/// freed goes behind it.
pub fn nothing_is_queued_before_what_stays_free()
    ensures { NoneComesAheadLaw }
{}

/// An address is given again as late as can be: while an ordinal that was free when the address was held
/// is still free and not reserved, the choice of an ADD in that block does not come to the address.
pub fn an_address_is_given_again_as_late_as_can_be()
    ensures { GivenAgainLateLaw }
{}
