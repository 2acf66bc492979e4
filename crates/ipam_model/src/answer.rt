ghost use Rattle.std.specs.Prelude.{◌≡◌};

use crate::outcome::{
    AddAnswer, AddThisAnswer, AdminAnswer, CheckAnswer, CollectAnswer, DelAnswer, ProbeAnswer,
    ReleaseAnswer,
};
use ipam_addr::{Addr, Cidr, Family};
use ipam_text::{Seq, Text};

/// An address that was given, with the moments of the calls that it rests on: the reads of the
/// configuration (c), the pools (p) and the reservations (r), the lists of affinities (f) and
/// blocks (b), and the write of the block (w).
#[derive(Clone, Copy)]
pub struct Given {
    /// The address, which the write at `w` assigned to the request's handle.
    pub address: Addr,
    /// The moment of the read of the configuration.
    pub c: u64,
    /// The moment of the read of the pools.
    pub p: u64,
    /// The moment of the read of the reservations.
    pub r: u64,
    /// The moment of the list of affinities.
    pub f: u64,
    /// The moment of the list of blocks.
    pub b: u64,
    /// The moment of the write of the block, which comes after `b`.
    pub w: u64,
}

/// An address that was asked for and given, with the moments of the reads of the configuration
/// (c), the pools (p) and the block (b), and of the write of the block (w).
#[derive(Clone, Copy)]
pub struct GivenThis {
    /// The address, which the write at `w` assigned to the request's handle.
    pub address: Addr,
    /// The moment of the read of the configuration.
    pub c: u64,
    /// The moment of the read of the pools.
    pub p: u64,
    /// The moment of the read of the block that has the address.
    pub b: u64,
    /// The moment of the write of the block, which comes after `b`.
    pub w: u64,
}

/// What was looked at for a family, with the moments of the five reads.
#[derive(Clone, Copy)]
pub struct Scan {
    /// The family for which an address was looked for.
    pub family: Family,
    /// The moment of the read of the configuration.
    pub c: u64,
    /// The moment of the read of the pools.
    pub p: u64,
    /// The moment of the read of the reservations.
    pub r: u64,
    /// The moment of the list of affinities.
    pub f: u64,
    /// The moment of the list of blocks.
    pub b: u64,
}

/// An address that was held by a handle that is not live.
pub struct Item {
    /// The address that was held.
    pub address: Addr,
    /// The id of the handle that held it.
    pub handle: Text,
    /// The stamp of the allocation: the sequence number of the block when the allocation was made.
    pub stamp: u64,
    /// Whether the collection freed it itself.
    pub freed: bool,
}

impl Drop for Item {
    fn drop(self) {
        let Item {
            address: _,
            handle: _,
            stamp: _,
            freed: _,
        } = self;
    }
}

/// What a collection found, with the moments of its two lists of blocks.
pub struct Collected {
    /// The moment of the list of blocks before the second list of live handles.
    pub b1: u64,
    /// The moment of the list of blocks after the second list of live handles.
    pub b2: u64,
    /// The leaks, ascending by family and address. When the collection answers, none of them is
    /// held any more.
    pub items: Seq<Item>,
}

impl Drop for Collected {
    fn drop(self) {
        let Collected {
            b1: _,
            b2: _,
            items: _,
        } = self;
    }
}

/// What a request comes to. A bare number is the moment of the read that decided it, unless its
/// variant says otherwise.
pub enum Answer {
    /// One address for each wanted family, IPv4 first.
    Added(Seq<Given>),
    /// The address that was asked for.
    AddedThis(GivenThis),
    /// No candidate was left for this family.
    Exhausted(Scan),
    /// This name matches no enabled pool of its family.
    NoPool(Text, u64),
    /// No pool that the request may use has the address. The moment is that of the read of the
    /// pools.
    NotInPool(u64),
    /// The handle that holds the address.
    Taken(Text, u64),
    /// The block of another node, or of none.
    NotAffine(Cidr, u64),
    /// The handle was read at this moment. It holds nothing any more of what it held then. A handle
    /// that was missing is answered likewise.
    Deleted(u64),
    /// The handle held each address when the address's block was read.
    Checked,
    /// The first address that the handle did not hold. The moment is that of the read of its block,
    /// or of the pools where no pool has the address.
    NotRecorded(Addr, u64),
    /// The affinity was deleted, and the block does not have the node.
    Released,
    /// The node had no affinity to the block.
    NoAffinity(u64),
    /// The collection is over. No leak that it found is held any more.
    Collected(Collected),
    /// The revision of the write.
    Done(u64),
    /// The number of the refusal, and the name that it is about.
    Refused(u8, Text),
    /// The lost races and the confirmed claims, of which one has reached 64.
    Again(u32, u32),
    /// There is no room for one more record.
    Full,
    /// The handle's count of the block is at its limit.
    CountFull(u64),
    /// There are no more revisions.
    Spent,
    /// A call failed.
    Fault,
    /// An address could be given in each wanted family.
    Ready(Seq<Scan>),
}

impl Drop for Answer {
    fn drop(self) {
        match self {
            Answer::Added(_)
            | Answer::AddedThis(_)
            | Answer::Exhausted(_)
            | Answer::NoPool(_, _)
            | Answer::NotInPool(_)
            | Answer::Taken(_, _)
            | Answer::NotAffine(_, _)
            | Answer::Deleted(_)
            | Answer::Checked
            | Answer::NotRecorded(_, _)
            | Answer::Released
            | Answer::NoAffinity(_)
            | Answer::Collected(_)
            | Answer::Done(_)
            | Answer::Refused(_, _)
            | Answer::Again(_, _)
            | Answer::Full
            | Answer::CountFull(_)
            | Answer::Spent
            | Answer::Fault
            | Answer::Ready(_) => {}
        }
    }
}

impl From<AddAnswer> for Answer {
    ghost use Rattle.ipam_model.specs.Told.{of_add};

    ghost from_gives = { λ one answer. answer ≡ of_add one };

    fn from(one: AddAnswer) -> Answer {
        match one {
            AddAnswer::Added(given) => Answer::Added(given),
            AddAnswer::Exhausted(scan) => Answer::Exhausted(scan),
            AddAnswer::NoPool(name, moment) => Answer::NoPool(name, moment),
            AddAnswer::Again(lost, claims) => Answer::Again(lost, claims),
            AddAnswer::Full => Answer::Full,
            AddAnswer::CountFull(moment) => Answer::CountFull(moment),
            AddAnswer::Spent => Answer::Spent,
        }
    }
}

impl From<AddThisAnswer> for Answer {
    ghost use Rattle.ipam_model.specs.Told.{of_add_this};

    ghost from_gives = { λ one answer. answer ≡ of_add_this one };

    fn from(one: AddThisAnswer) -> Answer {
        match one {
            AddThisAnswer::AddedThis(given) => Answer::AddedThis(given),
            AddThisAnswer::NotInPool(moment) => Answer::NotInPool(moment),
            AddThisAnswer::Taken(holder, moment) => Answer::Taken(holder, moment),
            AddThisAnswer::NotAffine(cidr, moment) => Answer::NotAffine(cidr, moment),
            AddThisAnswer::Again(lost, claims) => Answer::Again(lost, claims),
            AddThisAnswer::Full => Answer::Full,
            AddThisAnswer::CountFull(moment) => Answer::CountFull(moment),
            AddThisAnswer::Spent => Answer::Spent,
        }
    }
}

impl From<DelAnswer> for Answer {
    ghost use Rattle.ipam_model.specs.Told.{of_del};

    ghost from_gives = { λ one answer. answer ≡ of_del one };

    fn from(one: DelAnswer) -> Answer {
        match one {
            DelAnswer::Deleted(moment) => Answer::Deleted(moment),
            DelAnswer::Again(lost) => Answer::Again(lost, 0),
            DelAnswer::Spent => Answer::Spent,
        }
    }
}

impl From<CheckAnswer> for Answer {
    ghost use Rattle.ipam_model.specs.Told.{of_check};

    ghost from_gives = { λ one answer. answer ≡ of_check one };

    fn from(one: CheckAnswer) -> Answer {
        match one {
            CheckAnswer::Checked => Answer::Checked,
            CheckAnswer::NotRecorded(address, moment) => Answer::NotRecorded(address, moment),
        }
    }
}

impl From<ReleaseAnswer> for Answer {
    ghost use Rattle.ipam_model.specs.Told.{of_release};

    ghost from_gives = { λ one answer. answer ≡ of_release one };

    fn from(one: ReleaseAnswer) -> Answer {
        match one {
            ReleaseAnswer::Released => Answer::Released,
            ReleaseAnswer::NoAffinity(moment) => Answer::NoAffinity(moment),
            ReleaseAnswer::Again(lost) => Answer::Again(lost, 0),
            ReleaseAnswer::Full => Answer::Full,
            ReleaseAnswer::Spent => Answer::Spent,
        }
    }
}

impl From<CollectAnswer> for Answer {
    ghost use Rattle.ipam_model.specs.Told.{of_collect};

    ghost from_gives = { λ one answer. answer ≡ of_collect one };

    fn from(one: CollectAnswer) -> Answer {
        match one {
            CollectAnswer::Collected(collected) => Answer::Collected(collected),
            CollectAnswer::Again(lost) => Answer::Again(lost, 0),
            CollectAnswer::Spent => Answer::Spent,
        }
    }
}

impl From<AdminAnswer> for Answer {
    ghost use Rattle.ipam_model.specs.Told.{of_admin};

    ghost from_gives = { λ one answer. answer ≡ of_admin one };

    fn from(one: AdminAnswer) -> Answer {
        match one {
            AdminAnswer::Done(revision) => Answer::Done(revision),
            AdminAnswer::Refused(number, name) => Answer::Refused(number, name),
            AdminAnswer::Again(lost) => Answer::Again(lost, 0),
            AdminAnswer::Full => Answer::Full,
            AdminAnswer::Spent => Answer::Spent,
        }
    }
}

impl From<ProbeAnswer> for Answer {
    ghost use Rattle.ipam_model.specs.Told.{of_probe};

    ghost from_gives = { λ one answer. answer ≡ of_probe one };

    fn from(one: ProbeAnswer) -> Answer {
        match one {
            ProbeAnswer::Ready(scans) => Answer::Ready(scans),
            ProbeAnswer::Exhausted(scan) => Answer::Exhausted(scan),
            ProbeAnswer::NoPool(name, moment) => Answer::NoPool(name, moment),
        }
    }
}
