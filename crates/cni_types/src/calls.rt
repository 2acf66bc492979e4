use crate::version::Version;
use ipam_addr::Addr;
use ipam_text::{Seq, Text};

/// What a call asks.
#[derive(Drop)]
pub enum Look {
    /// The versions that are supported, told in this one.
    Version(Version),
    /// ADD: addresses for a container.
    Add(CniAdd),
    /// DEL: all addresses of a container's handle, which are given back.
    Del(CniDel),
    /// CHECK: whether a container still has its addresses.
    Check(CniCheck),
    /// GC: what a network holds on a node for others than its valid attachments, which is given
    /// back.
    Gc(CniGc),
    /// STATUS: whether an ADD could be served.
    Status(CniStatus),
}

/// An address for each family that is wanted, or one address that is asked for.
#[derive(Drop)]
pub struct CniAdd {
    /// The configuration's version. The reply is written in it.
    pub version: Version,
    /// The network's name, a dot and the container's id.
    pub handle: Text,
    /// The node's name, which is `nodename` of the configuration.
    pub node: Text,
    /// What the address is recorded with, the keys ascending.
    pub secondary: Seq<(Text, Text)>,
    /// The labels of the node, the keys ascending.
    pub labels: Seq<(Text, Text)>,
    /// Whether an IPv4 address is wanted: `ipam.assign_ipv4`, and true where that is missing.
    pub ipv4: bool,
    /// Whether an IPv6 address is wanted: `ipam.assign_ipv6`, and false where that is missing.
    /// `look` refuses a call that wants neither family. An ADD of one address reads neither flag.
    pub ipv6: bool,
    /// The IPv4 pools that are named, by their names or CIDRs. None means any.
    pub pools4: Seq<Text>,
    /// The IPv6 pools that are named, likewise.
    pub pools6: Seq<Text>,
    /// The address that is asked for.
    pub address: Option<Addr>,
}

/// All addresses of the handle are given back.
#[derive(Drop)]
pub struct CniDel {
    /// The configuration's version. An error is written in it.
    pub version: Version,
    /// The network's name, a dot and the container's id.
    pub handle: Text,
}

/// Whether the handle has all of these addresses.
#[derive(Drop)]
pub struct CniCheck {
    /// The configuration's version, 0.4.0 or later. An error is written in it.
    pub version: Version,
    /// The network's name, a dot and the container's id.
    pub handle: Text,
    /// The addresses of `prevResult.ips` in their order, without their prefixes. `look` gives at
    /// most 64 of them, and none where that member is missing.
    pub addresses: Seq<Addr>,
}

/// What the network holds on the node for others than these handles is given back.
#[derive(Drop)]
pub struct CniGc {
    /// The configuration's version, 1.1.0 or later. An error is written in it.
    pub version: Version,
    /// The network's name, which is `name` of the configuration.
    pub network: Text,
    /// The node's name, which is `nodename` of the configuration.
    pub node: Text,
    /// The handles of the attachments that are valid.
    pub live: Seq<Text>,
}

/// Whether an address of each family that is wanted could be given.
#[derive(Drop)]
pub struct CniStatus {
    /// The configuration's version, 1.1.0 or later. An error is written in it.
    pub version: Version,
    /// The node's name, which is `nodename` of the configuration.
    pub node: Text,
    /// The labels of the node, the keys ascending.
    pub labels: Seq<(Text, Text)>,
    /// Whether an IPv4 address is wanted, as for an ADD.
    pub ipv4: bool,
    /// Whether an IPv6 address is wanted, as for an ADD.
    pub ipv6: bool,
    /// The IPv4 pools that are named, by their names or CIDRs. Empty where none is named.
    pub pools4: Seq<Text>,
    /// The IPv6 pools that are named, likewise.
    pub pools6: Seq<Text>,
}
