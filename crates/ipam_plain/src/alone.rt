//! Over a consistent base with spare.
ghost use Rattle.ipam_model.specs.Plain.{AloneLaw};
ghost use Rattle.ipam_plain.specs.AloneLaws.{AddAloneLaw, AddThisAloneLaw, CollectAloneLaw, DelAloneLaw};
ghost use Rattle.ipam_plain.specs.CountsFollow.{CountsFollowLaw};
ghost use Rattle.ipam_plain.specs.Gains.{AddOwnersLaw, AddThisOwnersLaw};
ghost use Rattle.ipam_plain.specs.Leaves.{CollectLeavesLaw, DelLeavesLaw};
ghost use Rattle.ipam_plain.specs.Ready.{ReadyAddsLaw};

/// An ADD that runs alone takes what the choice on the records is, IPv4 first: the address is the
/// handle's and its count of the block one higher. A block that is chosen to be claimed first has the
/// node and a confirmed affinity. Where a family has no address, the answer says so, what was given of
/// the other is freed, and what was claimed stays claimed.
pub fn an_add_alone_comes_to_what_the_records_say()
    ensures { AddAloneLaw }
{}

/// An ADD of one address that runs alone: no pool holds it, another handle does, or its block is
/// another node's and affinity strict, and nothing changes; or it is the handle's, its block claimed
/// first where that was missing, or empty and nobody's.
pub fn an_add_of_one_address_alone_comes_to_what_the_records_say()
    ensures { AddThisAloneLaw }
{}

/// A DEL that runs alone deletes: all of the handle's addresses are free, each count is lower by what
/// was freed in its block, a handle without counts is gone, and all else stays.
pub fn a_del_alone_comes_to_what_the_records_say()
    ensures { DelAloneLaw }
{}

/// A collection without a grace that runs alone frees the leaks, and nothing else.
pub fn a_collection_alone_comes_to_what_the_records_say()
    ensures { CollectAloneLaw }
{}

/// A request that runs alone comes to what its function of the records says. A release and a change by
/// an operator have no such function: only their calls say what they do.
pub fn a_request_alone_comes_to_what_the_records_say()
    ensures { AloneLaw }
{}

/// A DEL that runs alone takes all of the handle's addresses, and no other.
pub fn a_del_alone_leaves_the_owners_of_other_handles()
    ensures { DelLeavesLaw }
{}

/// A collection without a grace that runs alone leaves exactly the owners that are outside of the scope
/// or whose handle is listed.
pub fn a_collection_alone_leaves_what_is_outside_the_scope_or_listed()
    ensures { CollectLeavesLaw }
{}

/// Of whatever families: a probe that runs alone is ready exactly where the ADD that asks for the same,
/// alone over the same base and with spare, is answered Added.
pub fn a_probe_alone_is_ready_where_an_add_alone_gives_addresses()
    ensures { ReadyAddsLaw }
{}

/// An ADD that runs alone gains its handle the addresses that it gives, and changes no other owner. One
/// that gives none, of either family, leaves the owners that there were.
pub fn an_add_alone_gains_the_addresses_that_it_gives()
    ensures { AddOwnersLaw }
{}

/// A request that runs alone changes each count by exactly as much as it changes how many addresses the
/// handle owns in the block.
pub fn counts_follow_the_owners_of_a_request_alone()
    ensures { CountsFollowLaw }
{}

/// An ADD of one address that runs alone gains its handle that address, and changes no other owner. One
/// that does not give it changes no record.
pub fn an_add_of_one_address_alone_gains_that_address()
    ensures { AddThisOwnersLaw }
{}
