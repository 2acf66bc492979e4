ghost use Rattle.std.specs.Prelude.{◌≡◌, ℕ, ◌+◌, ◌<◌, ◌≤◌, ◌^◌, [], ◌↔◌, length, option_map, IsTrue, true, false, IfOk, IfErr, OnOk, OnErr, is_err, count_by, insert, filter, find, not, ◌==◌, nat_lt, ◌++◌, AllPairs, None, is_ok, slice_get};
ghost use Rattle.std.specs.List.{list_any};
ghost use Rattle.ipam_addr.specs.Width.{cidr_size};
ghost use Rattle.std.specs.Vec.{vec_len, vec_capacity};
ghost use Rattle.std.specs.VecDeque.{deque_len, deque_capacity};
ghost use Rattle.ipam_block.specs.Operations.{ordinal_address, node_bytes};
ghost use Rattle.ipam_block.specs.Sound.{ordinals_below, held_ordinals};
ghost use Rattle.ipam_block.specs.Picked.{picks};

use crate::allocation::{Allocation, Attributes, Held, PartsFault, SharedAttributes};
use crate::limits::ADDRESSES_MAX;
use crate::sound::are_sound;
use ipam_addr::{Addr, Cidr, Spared};
use ipam_text::Text;
use std::alloc::{AllocError, Global};
use std::collections::VecDeque;
use std::marker::Model;

/// The record of one block of addresses. It always owns the memory for all of its ordinals, so that
/// assigning and freeing take none.
pub struct Block {
    cidr: Cidr,
    node: Option<Text>,
    held: Vec<Allocation>,
    queue: VecDeque<u16>,
    sequence: u64,
}

impl Drop for Block {
    fn drop(self) {
        let Block {
            cidr: _,
            node: _,
            held: _,
            queue: _,
            sequence: _,
        } = self;
    }
}

impl Model for Block {
    ghost use Rattle.std.specs.Prelude.{◌≤◌};
    ghost use Rattle.std.specs.Vec.{vec_capacity};
    ghost use Rattle.std.specs.VecDeque.{deque_capacity};
    ghost use Rattle.ipam_addr.specs.Width.{cidr_size};
    ghost use Rattle.ipam_block.specs.Shape.{BlockValue};
    ghost use Rattle.ipam_block.specs.Sound.{IsBlock};

    ghost Value = { BlockValue };

    ghost view = { λ b. record {
      cidr = b.cidr;
      node = b.node;
      allocations = b.held.items;
      queue = b.queue.items;
      sequence = b.sequence;
    } };

    ghost invariant = { λ b.
        (cidr_size b.cidr ≤ vec_capacity b.held)
        × (cidr_size b.cidr ≤ deque_capacity b.queue)
        × IsBlock (record {
          cidr = b.cidr;
          node = b.node;
          allocations = b.held.items;
          queue = b.queue.items;
          sequence = b.sequence;
        }) };
}

/// Which allocations are freed.
#[derive(Clone, Copy)]
pub enum Which<'a> {
    /// All allocations of this handle.
    Owned(&'a str),
    /// The allocation of this ordinal, if this handle holds it with this stamp.
    Stamped(u16, &'a str, u64),
}

impl Which<'_> {
    ghost use Rattle.ipam_block.specs.Picked.{picks};

    fn picks(&self, allocation: &Allocation) -> bool
        ensures { result ≡ picks self.now allocation.now }
    {
        match self {
            Which::Owned(handle) => allocation.attributes.get().handle.as_str() == *handle,
            Which::Stamped(ordinal, handle, stamp) => {
                allocation.ordinal == *ordinal
                    && allocation.stamp == *stamp
                    && allocation.attributes.get().handle.as_str() == *handle
            }
        }
    }
}

impl Block {
    ghost use Rattle.ipam_block.specs.Picked.{picks};
    ghost use Rattle.ipam_block.specs.Operations.{fresh_block, next_block, room, holder, holding, lent_holding, is_held, block_with_ordinal, block_without, is_owned, is_stamped, affine_to, node_bytes};
    ghost use Rattle.ipam_block.specs.Sound.{IsBlock};
    ghost use Rattle.ipam_block.specs.Test.{is_block, content_of};

    /// A block that was never written, with nothing held.
    pub fn fresh(alloc: Global, cidr: Cidr, node: Option<&str>) -> Result<Block, AllocError>
        requires { cidr_size cidr ≤ ADDRESSES_MAX }
        ensures { IfOk result (λ b. b ≡ fresh_block cidr (node_bytes node.entry)) }
    {
        let count = count_of(cidr);
        let held = Vec::with_capacity(alloc, usize::from(count))?;
        let queue = full_queue(alloc, count)?;
        let node = owned(alloc, node)?;
        Ok(Block {
            cidr,
            node,
            held,
            queue,
            sequence: 0,
        })
    }

    /// The block with these parts, where they are those of a block: `allocations` is what is held
    /// by ascending ordinal, and `queue` has the other ordinals.
    pub fn of_parts(
        alloc: Global,
        cidr: Cidr,
        node: Option<Text>,
        allocations: Vec<Allocation>,
        queue: Vec<u16>,
        sequence: u64,
    ) -> Result<Block, PartsFault>
        requires { cidr_size cidr ≤ ADDRESSES_MAX }
        ensures ok { IfOk result
            (λ b. b ≡ content_of cidr node allocations.items queue.items sequence) }
        ensures sound { IfOk result
            (λ _. is_block (content_of cidr node allocations.items queue.items sequence) ≡ true) }
        ensures unsound { result ≡ Err PartsFault.Unsound
            → is_block (content_of cidr node allocations.items queue.items sequence) ≡ false }
    {
        let count = count_of(cidr);
        match are_sound(
            alloc,
            count,
            allocations.as_slice(),
            queue.as_slice(),
            sequence,
        ) {
            Ok(true) => {}
            Ok(false) => return Err(PartsFault::Unsound),
            Err(_) => return Err(PartsFault::Memory),
        }
        match with_room(alloc, count, allocations, queue.as_slice()) {
            Ok((held, queue)) => Ok(Block {
                cidr,
                node,
                held,
                queue,
                sequence,
            }),
            Err(_) => Err(PartsFault::Memory),
        }
    }

    /// The addresses of the block.
    pub fn cidr(&self) -> Cidr
        ensures value { result ≡ self.now.cidr }
        ensures sound { IsBlock self.now }
    {
        self.cidr
    }

    /// How many addresses the block has.
    pub fn count(&self) -> u16
        ensures value { result ≡ cidr_size self.now.cidr }
        ensures small { result ≤ ADDRESSES_MAX }
    {
        count_of(self.cidr)
    }

    /// The address of one of its ordinals.
    pub fn address(&self, ordinal: u16) -> Addr
        requires { ordinal < cidr_size self.now.cidr }
        ensures { result ≡ ordinal_address self.now.cidr ordinal }
    {
        address_at(self.cidr, ordinal)
    }

    /// The node that the block is affine to, if any.
    pub fn node(&self) -> Option<&str>
        ensures { node_bytes result ≡ self.now.node }
    {
        match &self.node {
            Some(node) => Some(node.as_str()),
            None => None,
        }
    }

    /// How often the block was written since it was made.
    pub fn sequence(&self) -> u64
        ensures { result ≡ self.now.sequence }
    {
        self.sequence
    }

    /// The free ordinals, in the order in which they are taken.
    pub fn queue(&self) -> &VecDeque<u16>
        ensures { result.now.items ≡ self.now.queue }
    {
        &self.queue
    }

    /// What is held, by ascending ordinal.
    pub fn allocations(&self) -> &[Allocation]
        ensures { result.now ≡ self.now.allocations }
    {
        self.held.as_slice()
    }

    /// A copy that is counted as one write more, with memory for all of its ordinals.
    pub fn next(&self) -> Result<Block, AllocError>
        requires { self.now.sequence < 2 ^ 62 }
        ensures { IfOk result (λ b. b ≡ next_block self.now) }
    {
        self.copied(self.sequence + 1)
    }

    fn copied(&self, sequence: u64) -> Result<Block, AllocError>
        requires { self.now.sequence ≤ sequence }
        ensures { IfOk result (λ b. b ≡ record self.now { sequence = sequence }) }
    {
        let count = count_of(self.cidr);
        let alloc = *self.held.allocator();
        let node = copied_node(&self.node)?;
        let held = copied_allocations(alloc, self.held.as_slice(), count)?;
        let queue = copied_queue(&self.queue, count)?;
        Ok(Block {
            cidr: self.cidr,
            node,
            held,
            queue,
            sequence,
        })
    }

    /// The first queued ordinal whose address is not reserved.
    pub fn first_room<R: Spared>(&self, reserved: &R) -> Option<u16>
        ensures { result ≡ room (R.reserved reserved.now) self.now }
    {
        for place in 0..self.queue.len() {
            let ordinal = self.queue[place];
            if !reserved.is_reserved(address_at(self.cidr, ordinal)) {
                return Some(ordinal);
            }
        }
        None
    }

    /// What the ordinal's address is recorded to, and the stamp of its assignment, where it is held.
    pub fn holder(&self, ordinal: u16) -> Option<(&Attributes, u64)>
        ensures { lent_holding result ≡ option_map holding (holder self.now ordinal) }
    {
        let held = self.held.as_slice();
        match place(held, ordinal) {
            Ok(place) => {
                let allocation = &held[place];
                Some((allocation.attributes.get(), allocation.stamp))
            }
            Err(_) => None,
        }
    }

    /// Takes the ordinal from the queue and holds it with these attributes. Answers the stamp,
    /// which is the sequence number. Takes no memory.
    pub fn assign(&mut self, ordinal: u16, attributes: Attributes) -> Result<u64, Held>
        requires own { ordinal < cidr_size self.old.cidr }
        requires written { 0 < self.old.sequence }
        ensures held { is_err result ≡ is_held self.old ordinal }
        ensures stamp { IfOk result (λ s. s ≡ self.old.sequence) }
        ensures ok { OnOk result (self.new ≡ block_with_ordinal self.old ordinal attributes) }
        ensures returned { IfErr result (λ h. h.attributes ≡ attributes) }
        ensures err { OnErr result (self.new ≡ self.old) }
    {
        let Err(place) = place(self.held.as_slice(), ordinal) else {
            return Err(Held { attributes });
        };
        let alloc = *self.held.allocator();
        let allocation = Allocation {
            ordinal,
            attributes: SharedAttributes::of(alloc, attributes),
            stamp: self.sequence,
        };
        insert_reserved(&mut self.held, place, allocation);
        take_from(&mut self.queue, ordinal);
        Ok(self.sequence)
    }

    /// Frees all that the handle holds, and answers how many ordinals that were. Takes no memory.
    pub fn free_handle(&mut self, handle: &str) -> u16
        ensures freed { self.new ≡ block_without (is_owned handle.now) self.old }
        ensures count { result ≡ count_by (is_owned handle.now) self.old.allocations }
    {
        self.free(&Which::Owned(handle)) as u16
    }

    /// Frees the ordinal where it is held by this handle with this stamp, and answers whether it
    /// was. Takes no memory.
    pub fn free_stamped(&mut self, ordinal: u16, handle: &str, stamp: u64) -> bool
        ensures freed { self.new ≡ block_without (is_stamped ordinal handle.now stamp) self.old }
        ensures found { result ≡ list_any (is_stamped ordinal handle.now stamp) self.old.allocations }
    {
        self.free(&Which::Stamped(ordinal, handle, stamp)) > 0
    }

    /// Frees what is picked, and answers how many ordinals that were. Takes no memory.
    pub fn free(&mut self, which: &Which) -> usize
        ensures freed { self.new ≡ block_without (picks which.now) self.old }
        ensures count { result ≡ count_by (picks which.now) self.old.allocations }
        ensures few { result ≤ ADDRESSES_MAX }
    {
        let before = self.held.len();
        queue_picked(&mut self.queue, self.held.as_slice(), which);
        drop_picked(&mut self.held, which);
        before - self.held.len()
    }

    /// Ties the block to this node, or to none. On `Err` the block is as it was.
    pub fn set_affinity(&mut self, node: Option<&str>) -> Result<(), AllocError>
        ensures ok { OnOk result (self.new ≡ affine_to (node_bytes node.entry) self.old) }
        ensures err { OnErr result (self.new ≡ self.old) }
    {
        let alloc = *self.held.allocator();
        self.node = owned(alloc, node)?;
        Ok(())
    }

    /// Whether nothing is held.
    pub fn is_empty(&self) -> bool
        ensures { IsTrue result ↔ (self.now.allocations ≡ []) }
    {
        self.held.is_empty()
    }
}

impl Clone for Block {
    ghost is_clone = { λ old new. new ≡ old };

    fn clone(&self) -> Result<Block, AllocError> {
        self.copied(self.sequence)
    }
}

/// The allocations and the queue in memory for this many ordinals.
fn with_room(
    alloc: Global,
    count: u16,
    allocations: Vec<Allocation>,
    queue: &[u16],
) -> Result<(Vec<Allocation>, VecDeque<u16>), AllocError>
    requires held { vec_len allocations ≤ count }
    requires queued { length queue.now ≤ count }
    ensures allocations { IfOk result (λ p. p.0.items ≡ allocations.items) }
    ensures queue { IfOk result (λ p. p.1.items ≡ queue.now) }
    ensures held_room { IfOk result (λ p. count ≤ vec_capacity p.0) }
    ensures queue_room { IfOk result (λ p. count ≤ deque_capacity p.1) }
{
    let mut held = allocations;
    held.reserve(usize::from(count) - held.len())?;
    let mut queued = VecDeque::with_capacity(alloc, usize::from(count))?;
    for ordinal in queue {
        queued.push_back_reserved(*ordinal);
    }
    Ok((held, queued))
}

/// Where the ordinal's allocation is, or where it would go.
fn place(held: &[Allocation], ordinal: u16) -> Result<usize, usize>
    requires { AllPairs (λ x y. x.ordinal < y.ordinal) held.now }
    ensures held { is_ok result ≡ list_any (λ a. a.ordinal == ordinal) held.now }
    ensures found { IfOk result (λ i. find (λ a. a.ordinal == ordinal) held.now ≡ slice_get held.now i) }
    ensures within { IfOk result (λ i. i < length held.now) }
    ensures absent { OnErr result (find (λ a. a.ordinal == ordinal) held.now ≡ None) }
    ensures lower { IfErr result (λ i. i ≡ count_by (λ a. nat_lt a.ordinal ordinal) held.now) }
    ensures room { IfErr result (λ i. i ≤ length held.now) }
{
    held.binary_search_by_key(&ordinal, |allocation| allocation.ordinal)
}

/// Takes the ordinal out of the queue.
fn take_from(queue: &mut VecDeque<u16>, ordinal: u16)
    ensures items { queue.new.items ≡ filter (λ o. not (o == ordinal)) queue.old.items }
    ensures capacity { deque_capacity queue.new ≡ deque_capacity queue.old }
{
    queue.retain(|queued| *queued != ordinal);
}

/// Queues the ordinals of the allocations that are picked.
fn queue_picked(queue: &mut VecDeque<u16>, held: &[Allocation], which: &Which)
    requires { deque_len queue.old + length held.now ≤ deque_capacity queue.old }
    ensures items { queue.new.items
        ≡ queue.old.items ++ held_ordinals (filter (picks which.now) held.now) }
    ensures capacity { deque_capacity queue.new ≡ deque_capacity queue.old }
{
    for allocation in held {
        if which.picks(allocation) {
            queue.push_back_reserved(allocation.ordinal);
        }
    }
}

/// Takes the allocations that are picked out of those held.
fn drop_picked(held: &mut Vec<Allocation>, which: &Which)
    ensures items { held.new.items ≡ filter (λ a. not (picks which.now a)) held.old.items }
    ensures capacity { vec_capacity held.new ≡ vec_capacity held.old }
{
    held.retain(|allocation| !which.picks(allocation));
}

/// Puts the allocation in front of the one at this place, in memory that is there.
fn insert_reserved(held: &mut Vec<Allocation>, place: usize, allocation: Allocation)
    requires within { place ≤ vec_len held.old }
    requires room { vec_len held.old < vec_capacity held.old }
    ensures items { held.new.items ≡ insert held.old.items place allocation }
    ensures capacity { vec_capacity held.new ≡ vec_capacity held.old }
{
    match held.insert(place, allocation) {
        Ok(()) => {}
        Err(_) => unreachable!(),
    }
}

/// The address of the block's ordinal.
fn address_at(cidr: Cidr, ordinal: u16) -> Addr
    requires { ordinal < cidr_size cidr }
    ensures { result ≡ ordinal_address cidr ordinal }
{
    let base = cidr.base();
    Addr {
        family: base.family,
        number: base.number + u128::from(ordinal),
    }
}

/// How many addresses the CIDR has.
fn count_of(cidr: Cidr) -> u16
    requires { cidr_size cidr ≤ ADDRESSES_MAX }
    ensures { result ≡ cidr_size cidr }
{
    (cidr.last().number - cidr.base().number) as u16 + 1
}

/// The ordinals from 0 upwards, with room for no more of them.
fn full_queue(alloc: Global, count: u16) -> Result<VecDeque<u16>, AllocError>
    ensures items { IfOk result (λ q. q.items ≡ ordinals_below count) }
    ensures room { IfOk result (λ q. count ≤ deque_capacity q) }
{
    let mut queue = VecDeque::with_capacity(alloc, usize::from(count))?;
    for ordinal in 0..count {
        queue.push_back_reserved(ordinal);
    }
    Ok(queue)
}

/// The node's name once more.
fn copied_node(node: &Option<Text>) -> Result<Option<Text>, AllocError>
    ensures { IfOk result (λ copy. copy ≡ node.now) }
{
    match node {
        Some(name) => Ok(Some(name.clone()?)),
        None => Ok(None),
    }
}

/// The allocations once more, in a list with room for this many.
fn copied_allocations(
    alloc: Global,
    allocations: &[Allocation],
    count: u16,
) -> Result<Vec<Allocation>, AllocError>
    requires { length allocations.now ≤ count }
    ensures items { IfOk result (λ v. v.items ≡ allocations.now) }
    ensures room { IfOk result (λ v. count ≤ vec_capacity v) }
{
    let mut copies = Vec::with_capacity(alloc, usize::from(count))?;
    for allocation in allocations {
        copies.push_reserved(allocation.clone()?);
    }
    Ok(copies)
}

/// The queue once more, with room for this many ordinals.
fn copied_queue(queue: &VecDeque<u16>, count: u16) -> Result<VecDeque<u16>, AllocError>
    requires { length queue.now.items ≤ count }
    ensures items { IfOk result (λ q. q.items ≡ queue.now.items) }
    ensures room { IfOk result (λ q. count ≤ deque_capacity q) }
{
    let mut copy = queue.clone()?;
    copy.reserve(usize::from(count) - queue.len())?;
    Ok(copy)
}

/// The node's name as a text of its own.
fn owned(alloc: Global, node: Option<&str>) -> Result<Option<Text>, AllocError>
    ensures { IfOk result (λ name. name ≡ node_bytes node.entry) }
{
    match node {
        Some(name) => Ok(Some(Text::copied(alloc, name)?)),
        None => Ok(None),
    }
}
