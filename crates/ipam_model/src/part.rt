//! What the parts of a request have in common.

/// How many races a request may still lose and go on, and how many claims it may still confirm.
#[derive(Clone, Copy)]
pub struct Left {
    /// From 0 to 63. At 0 the next lost race stops the request.
    pub races: u32,
    /// From 0 to 63. At 0 the next confirmed claim stops the request.
    pub claims: u32,
}

/// Why a part of a request ends the request.
#[derive(Clone, Copy, Debug, PartialEq, Eq)]
pub enum Stop {
    /// The 64th race was lost.
    OutOfTries,
    /// The 64th claim was confirmed.
    OutOfClaims,
    /// A record was missing, and there was no room to create it.
    NoRoom,
    /// The handle's count of the block is at its limit, as was read at this moment.
    CountAtLimit(u64),
    /// A write was refused, since there are no more revisions.
    NoRevisions,
}

/// A part comes to something or stops the request, with what is left.
#[derive(Clone, Copy, Drop)]
pub enum Outcome<A> {
    /// The part came to this, and the request goes on.
    Went(Left, A),
    /// The part stops the request for this reason.
    Stops(Left, Stop),
}

/// The moment at which an address was assigned, and the stamp of its allocation.
#[derive(Clone, Copy)]
pub struct Assigned {
    /// The moment of the write of the block.
    pub moment: u64,
    /// The sequence number of the block after that write.
    pub stamp: u64,
}
