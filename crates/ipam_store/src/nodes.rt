ghost use Rattle.std.specs.Prelude.{◌≡◌, ℕ, ◌+◌, ◌<◌, ◌≤◌, List, [], length, All, IsSome, OnOk, IfOk, IfErr, true, Some, None};
ghost use Rattle.std.specs.Vec.{vec_len, vec_capacity};
ghost use Rattle.ipam_records.specs.BlockLists.{named_lists, list_under, AreNamedLists};
ghost use Rattle.ipam_store.specs.CidrLists.{with_cidr, without_cidr};
ghost use Rattle.ipam_store.specs.NodeNames.{AreNodeLists, HasRoom, IsNext, IsListAt, IsGapFor};
ghost use Rattle.ipam_store.specs.Named.{ChangesList};

use crate::cidrs;
use ipam_addr::{Cidr, MOST_NAME_BYTES};
use std::alloc::{AllocError, Global};
use std::marker::Model;

/// For how many blocks the list of a new node has room.
const FIRST_ROOM: usize = 4;

/// The blocks of each node that has one, under the bytes of its name and in their order.
pub(crate) struct NodeLists {
    lists: Vec<(Vec<u8>, Vec<Cidr>)>,
    /// The name and the list of the next node, both empty, with the memory for them.
    next: Option<(Vec<u8>, Vec<Cidr>)>,
    /// Whether each list is known to have room for one more block.
    all_roomy: bool,
}

impl Drop for NodeLists {
    fn drop(self) {
        let NodeLists {
            lists: _,
            next: _,
            all_roomy: _,
        } = self;
    }
}

impl Model for NodeLists {
    ghost use Rattle.ipam_store.specs.Named.{Named};

    ghost Value = { Named };

    ghost use Rattle.ipam_store.specs.NodeLists.{named_in, is_kept_in};

    ghost view = { named_in };

    ghost invariant = { is_kept_in };
}

impl NodeLists {
    pub(crate) fn new(alloc: Global) -> NodeLists
        ensures lists { result.lists ≡ [] }
        ensures spare { result.spare ≡ 0 }
    {
        NodeLists {
            lists: Vec::new(alloc),
            next: None,
            all_roomy: true,
        }
    }

    pub(crate) fn lists(&self) -> &[(Vec<u8>, Vec<Cidr>)]
        ensures lists { named_lists result.now ≡ self.now.lists }
        ensures named { AreNamedLists (named_lists result.now) }
    {
        &self.lists
    }

    /// Makes sure that one more block takes no memory. On `Err` the lists are as they were.
    pub(crate) fn reserve(&mut self) -> Result<(), AllocError>
        ensures lists { self.new.lists ≡ self.old.lists }
        ensures spare { OnOk result (1 ≤ self.new.spare) }
        ensures kept { self.old.spare ≤ self.new.spare }
    {
        self.lists.reserve(1)?;
        if self.next.is_none() {
            self.next = Some(next_node(*self.lists.allocator())?);
        }
        if !self.all_roomy {
            make_room(&mut self.lists)?;
            self.all_roomy = true;
        }
        Ok(())
    }

    /// Puts the block into the node's list. Takes no memory.
    pub(crate) fn insert(&mut self, node: &str, cidr: Cidr)
        requires short { length node.now ≤ MOST_NAME_BYTES }
        requires spare { 1 ≤ self.old.spare }
        ensures list { ChangesList node.now (with_cidr cidr (list_under node.now self.old.lists)) self.old.lists self.new.lists }
        ensures spare { self.old.spare ≤ self.new.spare + 1 }
    {
        let roomy = match place(&self.lists, node) {
            Ok(at) => put_in(&mut self.lists, at, cidr),
            Err(at) => open(&mut self.lists, &mut self.next, at, node, cidr),
        };
        self.all_roomy = roomy;
    }

    /// Takes the block out of the node's list, which goes where it is empty then.
    pub(crate) fn remove(&mut self, node: &str, cidr: Cidr)
        ensures list { ChangesList node.now (without_cidr cidr (list_under node.now self.old.lists)) self.old.lists self.new.lists }
        ensures spare { self.old.spare ≤ self.new.spare }
    {
        if let Ok(at) = place(&self.lists, node) {
            take_out(&mut self.lists, at, cidr);
        }
    }
}

/// Where the list of the node is, or where it would go.
fn place(lists: &[(Vec<u8>, Vec<Cidr>)], node: &str) -> Result<usize, usize>
    requires { AreNamedLists (named_lists lists.now) }
    ensures found { IfOk result (IsListAt node.now (named_lists lists.now)) }
    ensures absent { IfErr result (IsGapFor node.now (named_lists lists.now)) }
{
    lists.binary_search_by(|entry| entry.0.as_slice().cmp(&node.as_bytes()))
}

/// Puts the block into the list at this place, and says whether each list has room still. Takes
/// no memory.
fn put_in(lists: &mut Vec<(Vec<u8>, Vec<Cidr>)>, at: usize, cidr: Cidr) -> bool
    requires within { at < vec_len lists.old }
    requires kept { AreNodeLists (named_lists lists.old.items) }
    requires roomy { All HasRoom lists.old.items }
    ensures list { (node : List ℕ) → IsListAt node (named_lists lists.old.items) at → ChangesList node (with_cidr cidr (list_under node (named_lists lists.old.items))) (named_lists lists.old.items) (named_lists lists.new.items) }
    ensures kept { AreNodeLists (named_lists lists.new.items) }
    ensures roomy { result ≡ true → All HasRoom lists.new.items }
{
    let entry = &mut lists[at];
    cidrs::insert(&mut entry.1, cidr);
    entry.1.len() < entry.1.capacity()
}

/// Makes a list for a node that has none, with its first block in it, and says whether each list
/// has room still. Takes no memory.
fn open(
    lists: &mut Vec<(Vec<u8>, Vec<Cidr>)>,
    next: &mut Option<(Vec<u8>, Vec<Cidr>)>,
    at: usize,
    node: &str,
    cidr: Cidr,
) -> bool
    requires gap { IsGapFor node.now (named_lists lists.old.items) at }
    requires kept { AreNodeLists (named_lists lists.old.items) }
    requires roomy { All HasRoom lists.old.items }
    requires next { IsNext next.old }
    requires some { IsSome next.old }
    requires room { vec_len lists.old < vec_capacity lists.old }
    requires short { length node.now ≤ MOST_NAME_BYTES }
    ensures list { ChangesList node.now (with_cidr cidr (list_under node.now (named_lists lists.old.items))) (named_lists lists.old.items) (named_lists lists.new.items) }
    ensures kept { AreNodeLists (named_lists lists.new.items) }
    ensures roomy { result ≡ true → All HasRoom lists.new.items }
    ensures next { next.new ≡ None }
{
    let Some((mut name, mut list)) = next.take() else {
        unreachable!()
    };
    if name.extend_from_slice(node.as_bytes()).is_err() {
        unreachable!()
    }
    list.push_reserved(cidr);
    let roomy = list.len() < list.capacity();
    if lists.insert(at, (name, list)).is_err() {
        unreachable!()
    }
    roomy
}

/// Takes the block out of the list at this place, which goes where it is empty then.
fn take_out(lists: &mut Vec<(Vec<u8>, Vec<Cidr>)>, at: usize, cidr: Cidr)
    requires within { at < vec_len lists.old }
    requires kept { AreNodeLists (named_lists lists.old.items) }
    ensures list { (node : List ℕ) → IsListAt node (named_lists lists.old.items) at → ChangesList node (without_cidr cidr (list_under node (named_lists lists.old.items))) (named_lists lists.old.items) (named_lists lists.new.items) }
    ensures kept { AreNodeLists (named_lists lists.new.items) }
    ensures roomy { All HasRoom lists.old.items → All HasRoom lists.new.items }
    ensures fewer { vec_len lists.new ≤ vec_len lists.old }
    ensures capacity { vec_capacity lists.new ≡ vec_capacity lists.old }
{
    let list = &mut lists[at].1;
    cidrs::remove(list, cidr);
    if list.is_empty() {
        lists.remove(at);
    }
}

/// An empty name and an empty list, with the memory for the next node and its first blocks.
fn next_node(alloc: Global) -> Result<(Vec<u8>, Vec<Cidr>), AllocError>
    ensures { IfOk result (λ entry. IsNext (Some entry)) }
{
    let name = Vec::with_capacity(alloc, MOST_NAME_BYTES)?;
    let list = Vec::with_capacity(alloc, FIRST_ROOM)?;
    Ok((name, list))
}

/// Makes room for one more block in each list. On `Err` the lists are as they were.
fn make_room(lists: &mut Vec<(Vec<u8>, Vec<Cidr>)>) -> Result<(), AllocError>
    ensures lists { named_lists lists.new.items ≡ named_lists lists.old.items }
    ensures roomy { OnOk result (All HasRoom lists.new.items) }
    ensures len { vec_len lists.new ≡ vec_len lists.old }
    ensures capacity { vec_capacity lists.new ≡ vec_capacity lists.old }
{
    for at in 0..lists.len() {
        lists[at].1.reserve(1)?;
    }
    Ok(())
}
