ghost use Rattle.std.specs.Prelude.{◌≡◌, ◌+◌, ◌<◌, ◌≤◌, ◌↔◌, [], length, IsTrue, IsSome, IsErr, IfSome, IfOk, OnOk, OnErr, IfErr, All, Contains};
ghost use Rattle.std.specs.List.Sorted.{IsStrictlySortedBy};
ghost use Rattle.std.specs.Map.{keys_of};
ghost use Rattle.ipam_block.specs.Order.{cidr_cmp};
ghost use Rattle.ipam_block.specs.Places.{IsPlace, IsGap};
ghost use Rattle.ipam_block.specs.HandleSound.{AreCounts, IsCount};
ghost use Rattle.ipam_block.specs.HandleOperations.{count_in, counts_with};

use ipam_addr::Cidr;
use ipam_text::{Seq, Text};
use std::alloc::{AllocError, Global};
use std::marker::Model;

/// Why a count could not be raised.
#[derive(Clone, Copy, Debug, PartialEq, Eq)]
pub enum RaiseFault {
    /// The count would pass the greatest that a handle has, 4,294,967,295.
    CountFull,
    /// There was no memory for one more count.
    Memory,
}

impl From<AllocError> for RaiseFault {
    ghost use Rattle.ipam_block.specs.declared.handles.RaiseFault.{RaiseFault};

    ghost from_gives = { λ _ fault. fault ≡ RaiseFault.Memory };

    fn from(_: AllocError) -> RaiseFault {
        RaiseFault::Memory
    }
}

/// How many addresses are held under one id, by block. A block with none has no count.
pub struct Handle {
    id: Text,
    counts: Vec<(Cidr, u32)>,
}

impl Drop for Handle {
    fn drop(self) {
        let Handle { id: _, counts: _ } = self;
    }
}

impl Model for Handle {
    ghost use Rattle.ipam_block.specs.HandleShape.{HandleValue};

    ghost Value = { HandleValue };

    ghost use Rattle.ipam_block.specs.HandleSound.{AreCounts};

    ghost view = { λ h. record { id = h.id; counts = h.counts.items } };

    ghost invariant = { λ h. AreCounts h.counts.items };
}

impl Handle {
    ghost use Rattle.ipam_block.specs.HandleOperations.{content, count_of, HasBlock, KeepsOthers, with_raised_count, with_lowered_count};

    /// A handle with no counts, with no memory taken.
    pub fn new(alloc: Global, id: Text) -> Handle
        ensures { result ≡ content id [] }
    {
        Handle {
            id,
            counts: Vec::new(alloc),
        }
    }

    /// The handle with these counts, which have to ascend by their blocks and to be at least 1.
    /// Takes no memory.
    pub fn of_counts(id: Text, counts: Seq<(Cidr, u32)>) -> Option<Handle>
        ensures accepted { IsSome result ↔ AreCounts counts }
        ensures value { IfSome result (λ h. h ≡ content id counts) }
    {
        let counts = counts.into_vec();
        if are_counts(&counts) {
            Some(Handle { id, counts })
        } else {
            None
        }
    }

    /// The id of the handle.
    pub fn id(&self) -> &str
        ensures { result.now ≡ self.now.id }
    {
        self.id.as_str()
    }

    /// The blocks with a count and their counts: IPv4 before IPv6, then by base, then by prefix.
    pub fn blocks(&self) -> &[(Cidr, u32)]
        ensures all { result.now ≡ self.now.counts }
        ensures sound { AreCounts self.now.counts }
    {
        self.counts.as_slice()
    }

    /// Whether no block has a count. Such a handle is not kept as a record.
    pub fn is_empty(&self) -> bool
        ensures { IsTrue result ↔ (self.now.counts ≡ []) }
    {
        self.counts.is_empty()
    }

    /// The count of the block, or 0 where it has none.
    pub fn count(&self, cidr: Cidr) -> u32
        ensures value { result ≡ count_of self.now cidr }
        ensures listed { (0 < result) ↔ HasBlock self.now cidr }
    {
        match place(&self.counts, cidr) {
            Ok(place) => self.counts[place].1,
            Err(_) => 0,
        }
    }

    /// Adds to the count of the block. A block that has one takes no memory.
    pub fn raise(&mut self, cidr: Cidr, by: u32) -> Result<(), RaiseFault>
        requires { 0 < by }
        ensures ok { OnOk result (self.new ≡ with_raised_count self.old cidr by) }
        ensures err { OnErr result (self.new ≡ self.old) }
        ensures full { (result ≡ Err RaiseFault.CountFull) ↔ (u32.MAX < count_of self.old cidr + by) }
        ensures memory { result ≡ Err RaiseFault.Memory → ¬ (HasBlock self.old cidr) }

        ensures here { OnOk result (count_of self.new cidr ≡ count_of self.old cidr + by) }
        ensures elsewhere { OnOk result (KeepsOthers self.old self.new cidr) }
    {
        let Some(sum) = self.count(cidr).checked_add(by) else {
            return Err(RaiseFault::CountFull);
        };
        put_count(&mut self.counts, cidr, sum)?;
        Ok(())
    }

    /// Takes from the count of the block. A count that comes to 0 goes. Takes no memory.
    pub fn lower(&mut self, cidr: Cidr, by: u32)
        requires some { 0 < by }
        requires within { by ≤ count_of self.old cidr }
        ensures lowered { self.new ≡ with_lowered_count self.old cidr by }
        ensures here { count_of self.new cidr + by ≡ count_of self.old cidr }
        ensures elsewhere { KeepsOthers self.old self.new cidr }
        ensures gone { by ≡ count_of self.old cidr → ¬ (HasBlock self.new cidr) }
    {
        let left = self.count(cidr) - by;
        change_count(&mut self.counts, cidr, left);
    }
}

impl Clone for Handle {
    ghost is_clone = { λ old new. new ≡ old };

    fn clone(&self) -> Result<Handle, AllocError> {
        let id = self.id.clone()?;
        let counts = self.counts.clone()?;
        Ok(Handle { id, counts })
    }
}

/// Where the block's count is, or where it would go.
fn place(counts: &[(Cidr, u32)], cidr: Cidr) -> Result<usize, usize>
    requires { AreCounts counts.now }
    ensures found { IfOk result (IsPlace counts.now cidr) }
    ensures absent { IfErr result (IsGap counts.now cidr) }
{
    counts.binary_search_by_key(&cidr, |entry| entry.0)
}

/// Gives the block this count, whether it had one or not. On `Err` nothing has changed.
fn put_count(counts: &mut Vec<(Cidr, u32)>, cidr: Cidr, count: u32) -> Result<(), AllocError>
    requires sound { AreCounts counts.old.items }
    requires some { 0 < count }
    ensures ok { OnOk result (counts.new.items ≡ counts_with counts.old.items cidr count) }
    ensures err { OnErr result (counts.new.items ≡ counts.old.items) }
    ensures unlisted { IsErr result → ¬ (Contains (keys_of counts.old.items) cidr) }
    ensures sound { AreCounts counts.new.items }
{
    let entry = counted(cidr, count);
    match place(counts, cidr) {
        Ok(place) => counts[place] = entry,
        Err(place) => counts.insert(place, entry)?,
    }
    Ok(())
}

/// Gives a block that has a count this one, or none where it is 0.
fn change_count(counts: &mut Vec<(Cidr, u32)>, cidr: Cidr, count: u32)
    requires sound { AreCounts counts.old.items }
    requires listed { 0 < count_in counts.old.items cidr }
    ensures items { counts.new.items ≡ counts_with counts.old.items cidr count }
    ensures sound { AreCounts counts.new.items }
{
    let Ok(place) = place(counts, cidr) else {
        unreachable!()
    };
    if count == 0 {
        counts.remove(place);
    } else {
        counts[place] = counted(cidr, count);
    }
}

/// The block with its count.
fn counted(cidr: Cidr, count: u32) -> (Cidr, u32)
    requires { 0 < count }
    ensures value { result ≡ (cidr, count) }
    ensures sound { IsCount result }
{
    // A block whose prefix is read is known to be a sound CIDR.
    let _prefix = cidr.prefix();
    (cidr, count)
}

/// Whether these are the counts of a handle.
fn are_counts(counts: &[(Cidr, u32)]) -> bool
    ensures { IsTrue result ↔ AreCounts counts.now }
{
    all_count(counts) && ascend(counts)
}

/// Whether each block may have its count.
fn all_count(counts: &[(Cidr, u32)]) -> bool
    ensures { IsTrue result ↔ All IsCount counts.now }
{
    counts.iter().all(is_count)
}

/// Whether the blocks ascend.
fn ascend(counts: &[(Cidr, u32)]) -> bool
    ensures { IsTrue result ↔ IsStrictlySortedBy cidr_cmp (keys_of counts.now) }
{
    counts.is_sorted_by(|first, second| first.0 < second.0)
}

/// Whether a block may have this count.
fn is_count(entry: &(Cidr, u32)) -> bool
    ensures { IsTrue result ↔ IsCount entry.now }
{
    // A block whose prefix is read is known to be a sound CIDR.
    let _prefix = entry.0.prefix();
    entry.1 > 0
}
