ghost use Rattle.std.specs.Prelude.{◌≡◌};

use ipam_addr::{Addr, Cidr};
use ipam_block::Attributes;
use ipam_pool::{Pool, Reservation};
use ipam_records::Config;
use ipam_text::{Seq, Text};
use std::alloc::AllocError;

/// An address for each family that is wanted, or one address that is asked for.
pub struct AddRequest {
    /// The name of the node that the address is for. In a sound request it has 1 to 253 bytes.
    pub node: Text,
    /// What the address is recorded with, the handle among it.
    pub attributes: Attributes,
    /// Whether an IPv4 address is wanted.
    pub ipv4: bool,
    /// Whether an IPv6 address is wanted.
    pub ipv6: bool,
    /// The labels of the node, the keys ascending by their bytes and distinct.
    pub labels: Seq<(Text, Text)>,
    /// The IPv4 pools that are named, by their names or CIDRs. None means any.
    pub pools4: Seq<Text>,
    /// The IPv6 pools that are named, likewise.
    pub pools6: Seq<Text>,
}

impl Drop for AddRequest {
    fn drop(self) {
        let AddRequest {
            node: _,
            attributes: _,
            ipv4: _,
            ipv6: _,
            labels: _,
            pools4: _,
            pools6: _,
        } = self;
    }
}

impl Clone for AddRequest {
    ghost is_clone = { λ old new. new ≡ old };

    fn clone(&self) -> Result<AddRequest, AllocError> {
        let node = self.node.clone()?;
        let attributes = self.attributes.clone()?;
        let labels = self.labels.clone()?;
        let pools4 = self.pools4.clone()?;
        let pools6 = self.pools6.clone()?;
        Ok(AddRequest {
            node,
            attributes,
            ipv4: self.ipv4,
            ipv6: self.ipv6,
            labels,
            pools4,
            pools6,
        })
    }
}

/// Whether an address of each family could be given.
#[derive(Drop)]
pub struct ProbeRequest {
    /// The name of the node that an address would be for. In a sound request it has 1 to 253 bytes.
    pub node: Text,
    /// The labels of the node, the keys ascending by their bytes and distinct. In a sound request
    /// there are at most 64.
    pub labels: Seq<(Text, Text)>,
    /// Whether an IPv4 address is wanted. A sound request wants at least one family.
    pub ipv4: bool,
    /// Whether an IPv6 address is wanted.
    pub ipv6: bool,
    /// The IPv4 pools that are named, by their names or CIDRs. With no name any pool is meant.
    pub pools4: Seq<Text>,
    /// The IPv6 pools that are named, likewise.
    pub pools6: Seq<Text>,
}

impl Clone for ProbeRequest {
    ghost is_clone = { λ old new. new ≡ old };

    fn clone(&self) -> Result<ProbeRequest, AllocError> {
        let node = self.node.clone()?;
        let labels = self.labels.clone()?;
        let pools4 = self.pools4.clone()?;
        let pools6 = self.pools6.clone()?;
        Ok(ProbeRequest {
            node,
            labels,
            ipv4: self.ipv4,
            ipv6: self.ipv6,
            pools4,
            pools6,
        })
    }
}

/// A collection of the addresses whose handles are live in neither of two lists.
pub struct CollectRequest {
    /// The first list of live handles.
    pub live: Seq<Text>,
    /// When the first list was made, in seconds by the caller's clock.
    pub at: u64,
    /// How many seconds later the second list must be made at the least.
    pub grace: u64,
    /// The network and the node whose addresses alone are collected.
    pub scope: Option<(Text, Text)>,
}

impl Drop for CollectRequest {
    fn drop(self) {
        let CollectRequest {
            live: _,
            at: _,
            grace: _,
            scope: _,
        } = self;
    }
}

/// A change of the pools, the reservations or the configuration.
pub enum Admin {
    /// Appends a pool, or sets the rest of the one of this name, CIDR and size.
    Pool(Pool),
    /// Disables the pool of this name, or enables it.
    Disable(Text, bool),
    /// Appends a reservation, or replaces the one of this name.
    Reserve(Reservation),
    /// Removes the reservation of this name.
    Unreserve(Text),
    /// Writes this configuration in place of the one that is there, if any.
    Config(Config),
}

// Written out, so that a drop of it is one call.
impl Drop for Admin {
    fn drop(self) {
        match self {
            Admin::Pool(_)
            | Admin::Disable(_, _)
            | Admin::Reserve(_)
            | Admin::Unreserve(_)
            | Admin::Config(_) => {}
        }
    }
}

/// What the allocator is asked.
pub enum Request {
    /// An address for each wanted family, of which a sound request has at least one.
    Add(AddRequest),
    /// The address that is wanted and no other. The flags of the families are not read.
    AddThis(AddRequest, Addr),
    /// Frees all that the handle of this id holds.
    Del(Text),
    /// Whether the handle holds each of these addresses.
    Check(Text, Seq<Addr>),
    /// Takes the affinity of the block from the node.
    Release(Text, Cidr),
    /// Frees the addresses in its scope whose handles are live in neither list. Two lists of blocks
    /// have to show the same allocation.
    Collect(CollectRequest),
    /// Changes the pools, the reservations or the configuration.
    Admin(Admin),
    /// Asks whether an address of each wanted family could be given, and writes nothing.
    Probe(ProbeRequest),
}

impl Drop for Request {
    fn drop(self) {
        match self {
            Request::Add(_)
            | Request::AddThis(_, _)
            | Request::Del(_)
            | Request::Check(_, _)
            | Request::Release(_, _)
            | Request::Collect(_)
            | Request::Admin(_)
            | Request::Probe(_) => {}
        }
    }
}

impl Request {
    ghost use Rattle.ipam_model.specs.Requests.{IsChange};
    ghost use Rattle.ipam_model.specs.declared.request.Request.TheVariants.{Admin as Change};

    /// The change that an administrative request asks for.
    pub fn into_change(self) -> Admin
        requires { IsChange self }
        ensures { self ≡ Change result }
    {
        match self {
            Request::Admin(change) => change,
            _ => unreachable!(),
        }
    }
}
