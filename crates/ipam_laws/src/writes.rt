//! What each request may write and claim, over a whole history.
ghost use Rattle.ipam_laws.specs.Claims.{ClaimsLaw};
ghost use Rattle.ipam_laws.specs.Writes.{WritesLaw};

/// With each entry each row stays, or is one that the request which runs may write: an ADD writes
/// blocks, its handle and its node's affinities; a DEL blocks and its handle; a collection blocks and
/// handles; a release its affinity and that block; an operator's request the one record that it is
/// about; a CHECK and a probe none. Only a handle and a released affinity are deleted. An affinity
/// becomes one to be deleted by its release alone, and any other by an ADD of its node; and a block gets
/// a node by an ADD of that node alone, and loses it by its release.
pub fn each_request_writes_what_it_may()
    ensures { WritesLaw }
{}

/// A block gets a node, and the node's affinity to it is written so that it stays, only by an ADD of
/// that node, and by what it had read last. Without an address, claiming this block was the choice: the
/// first candidate, in a usable pool, while no confirmed block of the node had room; and the block was
/// the node's own, or it was missing, or empty and nobody's, and the node might have one more. With an
/// address, it was the block of the address's slot in a usable pool, and missing, or empty and nobody's.
pub fn an_add_claims_what_it_may()
    ensures { ClaimsLaw }
{}
