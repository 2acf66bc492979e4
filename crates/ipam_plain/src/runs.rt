//! Whole runs.
ghost use Rattle.ipam_plain.specs.FirstRun.{FirstRun, NinthCall, FifthExhausted};
ghost use Rattle.ipam_plain.specs.Races.{LostBlockWrite, TwoNodesRace, TwoNodesRows, RaceForOneHandle, RaceForOneAddress, DelLosesItsWrite, DelLosesItsLowering};
ghost use Rattle.ipam_plain.specs.Releases.{ReleasedBeforeTheClaim, AffinityTakenBack, ReleasedTwice, ReleasedBesideAnother, MarkTakenBack, DeletionLost, MarkGone};
ghost use Rattle.ipam_plain.specs.Stops.{LostAnswer, LostAnswerRows, FailedWrite, FailedWriteRows, StoppedAdd, StoppedAddRows, RestartOfIdle, RestartOfBusy};
ghost use Rattle.ipam_plain.specs.Collections.{LeakFreed, LiveInFirstList, LiveInSecondList, NotYetWaiting, WaitingHasNoCall, GivenAgainBetweenTheLists, GivenAgainAfterTheLists, FedWithinTheGrace, FedAfterTheGrace, OutsideTheScope, InsideTheScope, TwoLeaksFreed};
ghost use Rattle.ipam_plain.specs.Borrowing.{StrictAdd, BorrowingAdd, StrictAddOfOne, BorrowingFromNobody};
ghost use Rattle.ipam_plain.specs.Families.{SecondFamilyExhausted, NoOwnerIsLeft, GivenAgainBeforeTheSecond, SecondFamilyUnknown, SecondCountFull, Ipv6Given, BothGiven};
ghost use Rattle.ipam_plain.specs.LostRaces.{ChangeAgain, DelAgain, UndoingAgain, ReleaseAgain, MarkAgain};
ghost use Rattle.ipam_plain.specs.LargeBlock.{FirstAndLast, TheirOwners};
ghost use Rattle.ipam_plain.specs.NoRoom.{FullInARaise, FullInAClaim, FullOfBlocks, FullInTheSecondFamily, FullInARelease};
ghost use Rattle.ipam_plain.specs.Limits.{RevisionsSpent, SixtyFourLostRaces, SixtyFourClaims, ClaimAndLostRaces, CountAtItsLimit, WornAtFirst, WornAfterOne, WornAndStopped};
ghost use Rattle.ipam_plain.specs.OneAddress.{TakenAddress, AddressInNoPool, ReservedAddress, ClaimedForOneAddress, ClaimedFromNobody, NobodysIsNotAffine};
ghost use Rattle.ipam_plain.specs.Deletions.{DelOfTwoBlocks, DelOfMissing};
ghost use Rattle.ipam_plain.specs.Checks.{Recorded, RecordedToAnother, SecondNotRecorded, InNoPool, SecondInNoPool, InDisabledPool};
ghost use Rattle.ipam_plain.specs.Administration.{ReservationMade, PoolOverlaps, PoolDisabled, ChangesRace};
ghost use Rattle.ipam_plain.specs.Refusals.{CallOfIdle, StopOfIdle, BeginOfBusy};
ghost use Rattle.ipam_plain.specs.ManualPools.{ProbeOfNone, ProbeOfTheName, OneAddressGiven, MadeManual, AutomaticSaid};
ghost use Rattle.ipam_plain.specs.Probes.{ReadyFromAny, ReadyFromNamed, ReadyForAnotherNode, ProbeOfUnknownName, ExhaustedInOneFamily};

/// An ADD takes the next address of the node's own block, until there is none.
pub fn adds_in_one_ready_block()
    ensures first_run { FirstRun }
    ensures ninth_call { NinthCall }
    ensures fifth_exhausted { FifthExhausted }
{}

/// ADDs and a DEL lose races to an ADD, on one node and on two.
pub fn races()
    ensures lost_block_write { LostBlockWrite }
    ensures two_nodes_race { TwoNodesRace }
    ensures two_nodes_rows { TwoNodesRows }
    ensures race_for_one_handle { RaceForOneHandle }
    ensures race_for_one_address { RaceForOneAddress }
    ensures del_loses_its_write { DelLosesItsWrite }
    ensures del_loses_its_lowering { DelLosesItsLowering }
{}

/// An affinity is released, alone and in races with an ADD.
pub fn releases()
    ensures released_before_the_claim { ReleasedBeforeTheClaim }
    ensures affinity_taken_back { AffinityTakenBack }
    ensures released_twice { ReleasedTwice }
    ensures released_beside_another { ReleasedBesideAnother }
    ensures mark_taken_back { MarkTakenBack }
    ensures deletion_lost { DeletionLost }
    ensures mark_gone { MarkGone }
{}

/// Calls fail before and after a write, and requests are stopped.
pub fn calls_that_fail_and_stops()
    ensures lost_answer { LostAnswer }
    ensures lost_answer_rows { LostAnswerRows }
    ensures failed_write { FailedWrite }
    ensures failed_write_rows { FailedWriteRows }
    ensures stopped_add { StoppedAdd }
    ensures stopped_add_rows { StoppedAddRows }
    ensures restart_of_idle { RestartOfIdle }
    ensures restart_of_busy { RestartOfBusy }
{}

/// A collection frees a leak, and nothing that is live, given again or out of its scope.
pub fn collections()
    ensures leak_freed { LeakFreed }
    ensures live_in_first_list { LiveInFirstList }
    ensures live_in_second_list { LiveInSecondList }
    ensures not_yet_waiting { NotYetWaiting }
    ensures waiting_has_no_call { WaitingHasNoCall }
    ensures given_again_between_the_lists { GivenAgainBetweenTheLists }
    ensures given_again_after_the_lists { GivenAgainAfterTheLists }
    ensures fed_within_the_grace { FedWithinTheGrace }
    ensures fed_after_the_grace { FedAfterTheGrace }
    ensures outside_the_scope { OutsideTheScope }
    ensures inside_the_scope { InsideTheScope }
    ensures two_leaks_freed { TwoLeaksFreed }
{}

/// An address is borrowed where the node may have no other block, unless affinity is strict.
pub fn adds_that_borrow()
    ensures strict_add { StrictAdd }
    ensures borrowing_add { BorrowingAdd }
    ensures strict_add_of_one { StrictAddOfOne }
    ensures borrowing_from_nobody { BorrowingFromNobody }
{}

/// An ADD of both families frees the first address where the second family has none.
pub fn add_of_both_families()
    ensures second_family_exhausted { SecondFamilyExhausted }
    ensures no_owner_is_left { NoOwnerIsLeft }
    ensures given_again_before_the_second { GivenAgainBeforeTheSecond }
    ensures second_family_unknown { SecondFamilyUnknown }
    ensures second_count_full { SecondCountFull }
    ensures ipv6_given { Ipv6Given }
    ensures both_given { BothGiven }
{}

/// The 64th lost race of a change, of a DEL, of the freeing of a first address and of a release ends
/// the request.
pub fn requests_that_lose_every_race()
    ensures change_again { ChangeAgain }
    ensures del_again { DelAgain }
    ensures undoing_again { UndoingAgain }
    ensures release_again { ReleaseAgain }
    ensures mark_again { MarkAgain }
{}

/// The first and the last address of a block of 4,096 are given.
pub fn adds_in_a_large_block()
    ensures first_and_last { FirstAndLast }
    ensures their_owners { TheirOwners }
{}

/// There is no room for a handle, an affinity or a block.
pub fn requests_without_room()
    ensures full_in_a_raise { FullInARaise }
    ensures full_in_a_claim { FullInAClaim }
    ensures full_of_blocks { FullOfBlocks }
    ensures full_in_the_second_family { FullInTheSecondFamily }
    ensures full_in_a_release { FullInARelease }
{}

/// A request ends at the last revision, the 64th lost race or claim, and the highest count.
pub fn requests_at_a_limit()
    ensures revisions_spent { RevisionsSpent }
    ensures sixty_four_lost_races { SixtyFourLostRaces }
    ensures sixty_four_claims { SixtyFourClaims }
    ensures claim_and_lost_races { ClaimAndLostRaces }
    ensures count_at_its_limit { CountAtItsLimit }
    ensures worn_at_first { WornAtFirst }
    ensures worn_after_one { WornAfterOne }
    ensures worn_and_stopped { WornAndStopped }
{}

/// One address is asked for: it is taken, in no pool, reserved, or in a block that is missing.
pub fn adds_of_one_address()
    ensures taken_address { TakenAddress }
    ensures address_in_no_pool { AddressInNoPool }
    ensures reserved_address { ReservedAddress }
    ensures claimed_for_one_address { ClaimedForOneAddress }
    ensures claimed_from_nobody { ClaimedFromNobody }
    ensures nobodys_is_not_affine { NobodysIsNotAffine }
{}

/// A DEL frees what its handle holds in each block, and nothing else.
pub fn deletions()
    ensures del_of_two_blocks { DelOfTwoBlocks }
    ensures del_of_missing { DelOfMissing }
{}

/// A CHECK tells the first address that its handle does not hold.
pub fn checks()
    ensures recorded { Recorded }
    ensures recorded_to_another { RecordedToAnother }
    ensures second_not_recorded { SecondNotRecorded }
    ensures in_no_pool { InNoPool }
    ensures second_in_no_pool { SecondInNoPool }
    ensures in_disabled_pool { InDisabledPool }
{}

/// An operator reserves addresses, and makes and disables pools.
pub fn changes_by_an_operator()
    ensures reservation_made { ReservationMade }
    ensures pool_overlaps { PoolOverlaps }
    ensures pool_disabled { PoolDisabled }
    ensures changes_race { ChangesRace }
{}

/// A slot refuses what does not meet it idle or busy.
pub fn events_that_are_refused()
    ensures call_of_idle { CallOfIdle }
    ensures stop_of_idle { StopOfIdle }
    ensures begin_of_busy { BeginOfBusy }
{}

/// A probe is ready where an ADD would be given an address.
pub fn probes()
    ensures ready_from_any { ReadyFromAny }
    ensures ready_from_named { ReadyFromNamed }
    ensures ready_for_another_node { ReadyForAnotherNode }
    ensures probe_of_unknown_name { ProbeOfUnknownName }
    ensures exhausted_in_one_family { ExhaustedInOneFamily }
{}

/// A manual pool gives addresses to those that name it or ask for one of its own.
pub fn requests_over_a_manual_pool()
    ensures probe_of_none { ProbeOfNone }
    ensures probe_of_the_name { ProbeOfTheName }
    ensures one_address_given { OneAddressGiven }
    ensures made_manual { MadeManual }
    ensures automatic_said { AutomaticSaid }
{}
