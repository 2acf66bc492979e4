//! What an ADD chooses in small cases.
ghost use Rattle.ipam_plain.specs.Choices.{OwnBlock, FirstInQueue, AffinityMissing, AffinityPending, AffinityMarked, OtherAffinities, UnconfirmedAtTheBound, ConfirmedFirst, SlotWithoutBlock, SecondSlot, OwnBlockFull, EmptyBareBlock, HeldBareBlock};
ghost use Rattle.ipam_plain.specs.Choices.{OtherNodesBlock, OtherNodesBlockStrict, BareBlockNotEmpty, EmptyBareAtTheBound, EmptyBareNotAllocating, EmptyBareStrict, SlotNotAllocating, SlotAtTheBound, BoundOfAnotherNode, BoundInAnotherPool, BoundInTheOtherFamily};
ghost use Rattle.ipam_plain.specs.Choices.{ReservedOrdinals, ReservedBlock, ReservedInPart, ReservedSlot, ReservedPool};
ghost use Rattle.ipam_plain.specs.Choices.{FirstPool, LastSlotOfTheFirstPool, RankBeforePool, DisabledPool, OtherFamily, ManualNotNamed, ManualNamed, ManualForOneAddress, ManualForAny, AddressOfNoPool, Admitted, NotAdmitted, WithoutLabels, NamedAndNotAdmitted, OneAddressNotAdmitted};
ghost use Rattle.ipam_plain.specs.Choices.{NamedPool, NamedInTableOrder, NamedByCidr, NamedByOtherSpelling, UnknownName, NameOfDisabled, NameOfOtherFamily};
ghost use Rattle.ipam_plain.specs.Selectors.{SelectsAll, SelectsByKey, SelectsByValue, SelectsByEmptyValue, SelectsOthers, SelectsOneOf, SelectsNoneOf, SelectsByPart, SelectsByLastPart, SelectsByEmptyPart, SelectsByStart, SelectsByEnd, SelectsByLongStart, SelectsBoth, SelectsEither};

/// The choice is the first candidate by rank.
pub fn choices_by_rank()
    ensures own_block { OwnBlock }
    ensures first_in_queue { FirstInQueue }
    ensures affinity_missing { AffinityMissing }
    ensures affinity_pending { AffinityPending }
    ensures affinity_marked { AffinityMarked }
    ensures other_affinities { OtherAffinities }
    ensures unconfirmed_at_the_bound { UnconfirmedAtTheBound }
    ensures confirmed_first { ConfirmedFirst }
    ensures slot_without_block { SlotWithoutBlock }
    ensures second_slot { SecondSlot }
    ensures own_block_full { OwnBlockFull }
    ensures empty_bare_block { EmptyBareBlock }
    ensures held_bare_block { HeldBareBlock }
{}

/// An address is borrowed where no block may be claimed, unless affinity is strict.
pub fn choices_where_no_block_may_be_claimed()
    ensures other_nodes_block { OtherNodesBlock }
    ensures other_nodes_block_strict { OtherNodesBlockStrict }
    ensures bare_block_not_empty { BareBlockNotEmpty }
    ensures empty_bare_at_the_bound { EmptyBareAtTheBound }
    ensures empty_bare_not_allocating { EmptyBareNotAllocating }
    ensures empty_bare_strict { EmptyBareStrict }
    ensures slot_not_allocating { SlotNotAllocating }
    ensures slot_at_the_bound { SlotAtTheBound }
    ensures bound_of_another_node { BoundOfAnotherNode }
    ensures bound_in_another_pool { BoundInAnotherPool }
    ensures bound_in_the_other_family { BoundInTheOtherFamily }
{}

/// Reserved addresses are passed over.
pub fn choices_beside_reservations()
    ensures reserved_ordinals { ReservedOrdinals }
    ensures reserved_block { ReservedBlock }
    ensures reserved_in_part { ReservedInPart }
    ensures reserved_slot { ReservedSlot }
    ensures reserved_pool { ReservedPool }
{}

/// A choice lies in a usable pool, the first ones first.
pub fn choices_among_pools()
    ensures first_pool { FirstPool }
    ensures last_slot_of_the_first_pool { LastSlotOfTheFirstPool }
    ensures rank_before_pool { RankBeforePool }
    ensures disabled_pool { DisabledPool }
    ensures other_family { OtherFamily }
    ensures manual_not_named { ManualNotNamed }
    ensures manual_named { ManualNamed }
    ensures manual_for_one_address { ManualForOneAddress }
    ensures manual_for_any { ManualForAny }
    ensures address_of_no_pool { AddressOfNoPool }
    ensures admitted { Admitted }
    ensures not_admitted { NotAdmitted }
    ensures without_labels { WithoutLabels }
    ensures named_and_not_admitted { NamedAndNotAdmitted }
    ensures one_address_not_admitted { OneAddressNotAdmitted }
{}

/// Pools are named by their names, or by their CIDRs in any spelling.
pub fn choices_by_name()
    ensures named_pool { NamedPool }
    ensures named_in_table_order { NamedInTableOrder }
    ensures named_by_cidr { NamedByCidr }
    ensures named_by_other_spelling { NamedByOtherSpelling }
    ensures unknown_name { UnknownName }
    ensures name_of_disabled { NameOfDisabled }
    ensures name_of_other_family { NameOfOtherFamily }
{}

/// A selector admits nodes by their labels.
pub fn selectors()
    ensures selects_all { SelectsAll }
    ensures selects_by_key { SelectsByKey }
    ensures selects_by_value { SelectsByValue }
    ensures selects_by_empty_value { SelectsByEmptyValue }
    ensures selects_others { SelectsOthers }
    ensures selects_one_of { SelectsOneOf }
    ensures selects_none_of { SelectsNoneOf }
    ensures selects_by_part { SelectsByPart }
    ensures selects_by_last_part { SelectsByLastPart }
    ensures selects_by_empty_part { SelectsByEmptyPart }
    ensures selects_by_start { SelectsByStart }
    ensures selects_by_end { SelectsByEnd }
    ensures selects_by_long_start { SelectsByLongStart }
    ensures selects_both { SelectsBoth }
    ensures selects_either { SelectsEither }
{}
