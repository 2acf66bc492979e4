//! What each procedure answers.
use crate::answer::{Collected, Given, GivenThis, Scan};
use ipam_addr::{Addr, Cidr};
use ipam_text::{Seq, Text};

/// A claim of a block by a node.
#[derive(Clone, Copy)]
pub enum ClaimAnswer {
    /// The block was written with the node, and then the affinity was confirmed.
    Confirmed,
    /// A race was lost.
    Lost,
    /// The affinity or the block was missing, and there was no room to create it.
    Full,
    /// There are no more revisions.
    Spent,
}

/// A release of an affinity.
#[derive(Clone, Copy)]
pub enum ReleaseAnswer {
    /// The block was written without the node, and then the affinity was deleted.
    Released,
    /// The node had no affinity to the block when that was read at this moment.
    NoAffinity(u64),
    /// The 64th race was lost. The number counts the lost races.
    Again(u32),
    /// The block was missing, and there was no room to create it.
    Full,
    /// There are no more revisions.
    Spent,
}

/// An ADD without an address. `Again` has the lost races and the claims.
#[derive(Drop)]
pub enum AddAnswer {
    /// One address for each wanted family, IPv4 first.
    Added(Seq<Given>),
    /// No candidate was left for this family. What another family was given is freed.
    Exhausted(Scan),
    /// This name or CIDR matches no enabled pool of its family. What another family was given is
    /// freed. The moment is that of the read of the pools.
    NoPool(Text, u64),
    /// One of the two numbers has reached 64. What another family was given may stay assigned.
    Again(u32, u32),
    /// A record was missing, and there was no room to create it. What another family was given is
    /// freed.
    Full,
    /// The handle's count of the block was 4,294,967,295 when the handle was read at this moment.
    /// What another family was given is freed.
    CountFull(u64),
    /// There are no more revisions. What another family was given may stay assigned.
    Spent,
}

/// An ADD of one address.
#[derive(Drop)]
pub enum AddThisAnswer {
    /// The address that was asked for.
    AddedThis(GivenThis),
    /// No pool that the request may use has the address. The moment is that of the read of the
    /// pools.
    NotInPool(u64),
    /// The id of the handle that held the address when its block was read at this moment. It may be
    /// the request's own.
    Taken(Text, u64),
    /// The address was free when this block was read at this moment, and affinity is strict. The
    /// block has another node, or it has none and is not empty.
    NotAffine(Cidr, u64),
    /// The lost races and the confirmed claims, of which one has reached 64.
    Again(u32, u32),
    /// A record was missing, and there was no room to create it.
    Full,
    /// The handle's count of the block was 4,294,967,295 when the handle was read at this moment.
    CountFull(u64),
    /// There are no more revisions.
    Spent,
}

/// A DEL of a handle.
#[derive(Clone, Copy)]
pub enum DelAnswer {
    /// The handle was read at this moment. It holds nothing any more of what it held then.
    Deleted(u64),
    /// The 64th race was lost. The number counts the lost races. Some of the addresses may have
    /// been freed.
    Again(u32),
    /// There are no more revisions. Some of the addresses may have been freed.
    Spent,
}

/// The freeing of one assignment.
#[derive(Clone, Copy)]
pub enum FreeAnswer {
    /// The block was written without the assignment, and the handle's count was lowered.
    Freed,
    /// The assignment was not there any more.
    Gone,
    /// The 64th race was lost. The number counts the lost races.
    Again(u32),
    /// There are no more revisions.
    Spent,
}

/// A CHECK of a handle.
#[derive(Clone, Copy)]
pub enum CheckAnswer {
    /// The handle held each address when the address's block was read.
    Checked,
    /// The first address that the handle did not hold. The moment is that of the read of its block,
    /// or of the pools where no pool has the address.
    NotRecorded(Addr, u64),
}

/// A collection.
#[derive(Drop)]
pub enum CollectAnswer {
    /// The leaks that were found. None of them is held any more.
    Collected(Collected),
    /// The 64th race was lost. The number counts the lost races. Some of the leaks may have been
    /// freed.
    Again(u32),
    /// There are no more revisions. Some of the leaks may have been freed.
    Spent,
}

/// A change by an operator.
#[derive(Drop)]
pub enum AdminAnswer {
    /// The change was written, even where it made no difference. The write took this revision.
    Done(u64),
    /// The change was refused, and nothing was written. The number gives the cause. 1: a pool has
    /// the name, with another CIDR or size. 2: the pool shares addresses with another one. 3: the
    /// family has no slots of the size. 4: the pool is smaller than one slot. 5: there are 64 pools
    /// already. 6: no pool has the name. 7: there are 256 reservations already. 8: no reservation
    /// has the name. The text is the name that the change gives; for 2 it is the name of the other
    /// pool.
    Refused(u8, Text),
    /// The 64th race was lost. The number counts the lost races.
    Again(u32),
    /// The record was missing, and there was no room to create it.
    Full,
    /// There are no more revisions.
    Spent,
}

/// A probe.
#[derive(Drop)]
pub enum ProbeAnswer {
    /// One scan for each wanted family, IPv4 first. By each of them an address could be taken or a
    /// block claimed.
    Ready(Seq<Scan>),
    /// No candidate was left for this family.
    Exhausted(Scan),
    /// This name or CIDR matches no enabled pool of its family. The moment is that of the read of
    /// the pools.
    NoPool(Text, u64),
}

/// An address that was given, with its block and its stamp.
#[derive(Clone, Copy)]
pub struct Gift {
    /// The address, with the moments of the reads and of the write.
    pub given: Given,
    /// The CIDR of the block that has the address.
    pub block: Cidr,
    /// The stamp of the allocation: the sequence number of the block when the allocation was made.
    pub stamp: u64,
}

/// What the rounds of a family come to.
pub enum Served {
    /// An address was assigned.
    Gave(Gift),
    /// There is no address, and this is the answer.
    Refused(AddAnswer),
}

// Written out, so that a drop of it is one call.
impl Drop for Served {
    fn drop(self) {
        match self {
            Served::Gave(_) | Served::Refused(_) => {}
        }
    }
}
