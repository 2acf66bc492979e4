ghost use Rattle.std.specs.Prelude.{◌≡◌, ◌⊎◌, ◌&&◌, Some, None, IfSome, option_map, if◌then◌else◌};
ghost use Rattle.std.specs.List.Sorted.{IsStrictlySortedBy};
ghost use Rattle.ipam_block.specs.Order.{cidr_cmp};
ghost use Rattle.ipam_addr.specs.Width.{IsCidr};
ghost use Rattle.ipam_block.specs.Operations.{node_bytes};
ghost use Rattle.ipam_model.specs.Choice.{is_unowned_and_empty, if_rank, Own, Unconfirmed, Unclaimed, Foreign};
ghost use Rattle.ipam_choice.specs.Picked.{found_of, rank_as, ranked_in};
ghost use Rattle.ipam_choice.specs.First.{first_of, found_there};
ghost use Rattle.ipam_choice.specs.Level.{level_number};
ghost use Rattle.ipam_choice.specs.Sight.{IsSlotted, rank_of_found, rank_listed, rank_bare, if_slot, first_ranked, first_in};
ghost use Rattle.ipam_choice.specs.Scanned.{sight_of, is_lower, IsListFor};
ghost use Rattle.ipam_records.specs.BlockLists.{is_node, cidrs_of_node, cidrs_roomy};
ghost use Rattle.ipam_records.specs.Listing.{rows_of};

use crate::confirmed::Confirmed;
use crate::level::Level;
use crate::part::part_in;
use crate::picked::{Candidate, Listed, Rank};
use crate::slots::{is_slot, listed_at, next_bare};
use ipam_addr::{Cidr, slot};
use ipam_block::Block;
use ipam_pool::{Pool, Reserved};
use ipam_records::Listing;

/// What the rank of a slot is read from.
#[derive(Clone, Copy)]
pub(crate) struct Scan<'a, 's> {
    pub(crate) node: &'s str,
    pub(crate) strict: bool,
    /// Whether the node may claim one more block.
    pub(crate) may_claim: bool,
    /// The blocks whose affinity to the node is confirmed.
    pub(crate) confirmed: &'s Confirmed,
    pub(crate) reserved: &'s Reserved,
    pub(crate) blocks: Listing<'a>,
}

impl<'a> Scan<'a, '_> {
    /// The first slot of the pool that has a rank of this level. Takes no memory.
    pub(crate) fn first_in(&self, level: Level, pool: &Pool) -> Option<Candidate<'a>>
        requires { IsSlotted pool.now }
        ensures { ranked_in result ≡ first_in (sight_of self.now) (level_number level) pool.now }
    {
        let listed = self.first_with_block(level, pool);
        match level {
            Level::Unclaimed => {
                let bare = self.first_bare(pool);
                if is_lower(&listed, &bare) {
                    return listed;
                }
                bare
            }
            _ => listed,
        }
    }

    // Of the slots with a block.
    fn first_with_block(&self, level: Level, pool: &Pool) -> Option<Candidate<'a>>
        requires { IsSlotted pool.now }
        ensures { ranked_in result
            ≡ found_there (first_ranked (rank_listed (sight_of self.now)) (level_number level) pool.now) }
    {
        let blocks = part_in(pool, self.blocks_for(level));
        self.first_listed(level, pool, blocks)
    }

    // The blocks of which some may have a rank of the level.
    fn blocks_for(&self, level: Level) -> &'a [Cidr]
        ensures all { IsListFor (sight_of self.now) level result.now }
        ensures ascending { IsStrictlySortedBy cidr_cmp result.now }
    {
        match level {
            Level::Own | Level::Unconfirmed => self.own_blocks(),
            Level::Unclaimed if self.may_claim => self.blocks.unowned(),
            Level::Foreign if !self.strict => self.blocks.roomy(),
            _ => &[],
        }
    }

    // The node's blocks, or those with a free address where these are fewer: so the full blocks of a
    // node cost an ADD nothing.
    fn own_blocks(&self) -> &'a [Cidr]
        ensures all { (result.now ≡ cidrs_of_node self.now.node.now (rows_of self.now.blocks))
            ⊎ (result.now ≡ cidrs_roomy (rows_of self.now.blocks)) }
        ensures ascending { IsStrictlySortedBy cidr_cmp result.now }
    {
        let own = self.blocks.of_node(self.node);
        let roomy = self.blocks.roomy();
        if roomy.len() < own.len() { roomy } else { own }
    }

    // The first of the blocks that is a slot of the pool with a rank of the level.
    fn first_listed(&self, level: Level, pool: &Pool, blocks: &[Cidr]) -> Option<Candidate<'a>>
        ensures value { ranked_in result
            ≡ first_of (if_slot (rank_listed (sight_of self.now)) (level_number level) pool.now) blocks.now }
        ensures sound { IfSome result (λ candidate. IsCidr candidate.slot) }
    {
        for cidr in blocks {
            if let Some(candidate) = self.in_pool(level, pool, *cidr) {
                return Some(candidate);
            }
        }
        None
    }

    fn in_pool(&self, level: Level, pool: &Pool, cidr: Cidr) -> Option<Candidate<'a>>
        ensures value { ranked_in result
            ≡ if_slot (rank_listed (sight_of self.now)) (level_number level) pool.now cidr }
        ensures sound { IfSome result (λ candidate. IsCidr candidate.slot) }
    {
        if is_slot(pool, cidr) {
            self.of_level(level, cidr)
        } else {
            None
        }
    }

    fn of_level(&self, level: Level, cidr: Cidr) -> Option<Candidate<'a>>
        ensures value { ranked_in result
            ≡ if_rank (level_number level) cidr (rank_listed (sight_of self.now) cidr) }
        ensures sound { IfSome result (λ candidate. IsCidr candidate.slot) }
    {
        let rank = self.rank_of(listed_at(&self.blocks, cidr)?)?;
        let _prefix = cidr.prefix();
        if level.has(&rank) {
            Some(Candidate { slot: cidr, rank })
        } else {
            None
        }
    }

    fn rank_of(&self, listed: Listed<'a>) -> Option<Rank<'a>>
        ensures { option_map rank_as result
            ≡ rank_of_found (sight_of self.now) (Some (found_of listed.entry)) }
    {
        let ordinal = listed.block.first_room(self.reserved)?;
        if self.is_own(listed.block) {
            return Some(self.own_rank(listed, ordinal));
        }
        self.other_rank(listed, ordinal)
    }

    fn own_rank(&self, listed: Listed<'a>, ordinal: u16) -> Rank<'a>
        ensures { rank_as result ≡ (if (sight_of self.now).confirmed listed.entry.block.now.cidr
            then Own (found_of listed.entry) ordinal else Unconfirmed (found_of listed.entry)) }
    {
        if self.confirmed.has(listed.block.cidr()) {
            Rank::Own(listed, ordinal)
        } else {
            Rank::Unconfirmed(listed)
        }
    }

    fn other_rank(&self, listed: Listed<'a>, ordinal: u16) -> Option<Rank<'a>>
        ensures { option_map rank_as result
            ≡ (if is_unowned_and_empty listed.entry.block.now && self.now.may_claim
            then Some (Unclaimed (Some (found_of listed.entry)))
            else (if self.now.strict then None else Some (Foreign (found_of listed.entry) ordinal))) }
    {
        if self.may_claim && is_unowned_and_empty(listed.block) {
            return Some(Rank::Unclaimed(Some(listed)));
        }
        if self.strict {
            None
        } else {
            Some(Rank::Foreign(listed, ordinal))
        }
    }

    fn is_own(&self, block: &Block) -> bool
        ensures { result ≡ is_node self.now.node.now block.now.node }
    {
        match block.node() {
            Some(node) => node == self.node,
            None => false,
        }
    }

    // Of the slots without a block.
    fn first_bare(&self, pool: &Pool) -> Option<Candidate<'a>>
        requires { IsSlotted pool.now }
        ensures { ranked_in result
            ≡ found_there (first_ranked (rank_bare (sight_of self.now)) 2 pool.now) }
    {
        if !self.may_claim {
            return None;
        }
        let number = next_bare(pool, &self.blocks, self.reserved)?;
        Some(Candidate {
            slot: slot(pool.cidr, pool.size, number),
            rank: Rank::Unclaimed(None),
        })
    }
}

fn is_unowned_and_empty(block: &Block) -> bool
    ensures { result ≡ is_unowned_and_empty block.now }
{
    block.node().is_none() && block.is_empty()
}

// Whether the first is there, and the other not or at a higher base.
fn is_lower(first: &Option<Candidate>, other: &Option<Candidate>) -> bool
    ensures { result ≡ is_lower (ranked_in first.now) (ranked_in other.now) }
{
    match (first, other) {
        (Some(first), Some(other)) => first.slot.base().number <= other.slot.base().number,
        (Some(_), None) => true,
        (None, _) => false,
    }
}
