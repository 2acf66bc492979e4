ghost use Rattle.std.specs.Prelude.{◌≡◌};
ghost use Rattle.ipam_model.specs.Choice.{chosen, choice_in};
ghost use Rattle.ipam_choice.specs.Picked.{ranked_as, pick_as};

use ipam_addr::Cidr;
use ipam_block::Block;
use ipam_model::Choice;

/// A block as it was listed, with its revision.
#[derive(Clone, Copy)]
pub struct Listed<'a> {
    /// The revision of the block's row.
    pub revision: u64,
    /// The block, borrowed from the row.
    pub block: &'a Block,
}

/// What makes a slot a candidate, with the block that was listed there.
#[derive(Clone, Copy)]
pub enum Rank<'a> {
    /// A block of the node whose affinity is confirmed, with room at this ordinal.
    Own(Listed<'a>, u16),
    /// A block of the node whose affinity is missing or not confirmed, with room.
    Unconfirmed(Listed<'a>),
    /// A slot without a block, or an empty block that is nobody's, with room.
    Unclaimed(Option<Listed<'a>>),
    /// Any other block, with room at this ordinal.
    Foreign(Listed<'a>, u16),
}

/// A slot that a node may take an address from.
#[derive(Clone, Copy)]
pub struct Candidate<'a> {
    /// The CIDR of the slot.
    pub slot: Cidr,
    /// Why the slot is a candidate.
    pub rank: Rank<'a>,
}

/// What a request takes, with the block that was listed there.
#[derive(Clone, Copy)]
pub enum Picked<'a> {
    /// The name at this place matches no enabled pool of the family.
    NoPool(usize),
    /// There is no candidate.
    Nothing,
    /// The first candidate.
    Slot(Candidate<'a>),
}

impl Candidate<'_> {
    /// What is done at the slot.
    pub fn choice(&self) -> Choice
        ensures { result ≡ chosen (ranked_as self.now) }
    {
        match self.rank {
            Rank::Own(_, ordinal) => Choice::Use(self.slot, ordinal),
            Rank::Unconfirmed(_) | Rank::Unclaimed(_) => Choice::Claim(self.slot),
            Rank::Foreign(_, ordinal) => Choice::Borrow(self.slot, ordinal),
        }
    }
}

impl Picked<'_> {
    /// The choice, without the block.
    pub fn choice(&self) -> Choice
        ensures { result ≡ choice_in (pick_as self.now) }
    {
        match self {
            Picked::NoPool(place) => Choice::NoPool(*place),
            Picked::Nothing => Choice::Nothing,
            Picked::Slot(candidate) => candidate.choice(),
        }
    }
}
