//! Blocks and affinities over a whole history: a block and its affinity agree, so no block is
//! confirmed to two nodes.
ghost use Rattle.ipam_model.specs.AffinityLaw.{AffinityLaw, LabelPointsLaw, OneNodeLaw, PointsLaw};

/// At each moment, a block that has a node has that node's affinity, and the block of a confirmed
/// affinity is there with its node.
pub fn blocks_and_affinities_agree()
    ensures { AffinityLaw }
{}

/// At each moment, the nodes of a block's confirmed affinities are one node.
pub fn no_block_is_confirmed_to_two_nodes()
    ensures { OneNodeLaw }
{}

/// While a claimer or a releaser stands between its writes, by its label, and what it keeps is
/// current: the block of a claim has its affinity and then its node, and nobody is about to take
/// them away; the affinity of a release is not confirmed, and then its block lacks the node. What
/// it keeps was read as its point says, current or not.
pub fn points_of_claims_and_releases_agree()
    ensures { LabelPointsLaw }
{}

/// While a claimer or a releaser stands between its writes, by the calls that it has made, its point
/// agrees with the datastore as `points_of_claims_and_releases_agree` says of its label.
pub fn points_of_claims_and_releases_agree_by_their_calls()
    ensures { PointsLaw }
{}
