//! Why a call is refused. These take no memory, so that a call is tested before any is taken.
ghost use Rattle.std.specs.Prelude.{◌≡◌, IfOk, string_bytes};
ghost use Rattle.cni_types.specs.Refusal.{member_text, attachment_text};

use std::alloc::{AllocError, Global};

/// Why a call is refused whose standard input is a configuration.
#[derive(Clone, Copy)]
pub(crate) enum Refusal {
    /// The version is not supported, or has not the command.
    Version,
    Configuration(Member),
    Environment(Variable),
}

/// A member of the configuration, by its path.
#[derive(Clone, Copy)]
pub(crate) enum Member {
    Name,
    NodeName,
    NodeLabels,
    Ipam,
    IpamType,
    AssignIpv4,
    AssignIpv6,
    Ipv4Pools,
    Ipv6Pools,
    PrevResult,
    PrevResultIps,
    Attachments,
    /// The attachment of this index.
    Attachment(usize),
    /// The container of the attachment of this index.
    AttachmentContainer(usize),
    /// The interface of the attachment of this index.
    AttachmentInterface(usize),
}

/// A variable of the environment.
#[derive(Clone, Copy)]
pub(crate) enum Variable {
    Command,
    ContainerId,
    Netns,
    Ifname,
    Args,
}

impl Variable {
    ghost use Rattle.cni_types.specs.Refusal.{variable_name};

    pub(crate) fn name(self) -> &'static str
        ensures { result.now ≡ variable_name self }
    {
        match self {
            Variable::Command => "CNI_COMMAND",
            Variable::ContainerId => "CNI_CONTAINERID",
            Variable::Netns => "CNI_NETNS",
            Variable::Ifname => "CNI_IFNAME",
            Variable::Args => "CNI_ARGS",
        }
    }
}

/// The member's path: names and indexes joined by dots.
pub(crate) fn member_string(alloc: Global, member: Member) -> Result<String, AllocError>
    ensures { IfOk result (λ s. string_bytes s ≡ member_text member) }
{
    match member {
        Member::Name => String::from_str(alloc, "name"),
        Member::NodeName => String::from_str(alloc, "nodename"),
        Member::NodeLabels => String::from_str(alloc, "nodeLabels"),
        Member::Ipam => String::from_str(alloc, "ipam"),
        Member::IpamType => String::from_str(alloc, "ipam.type"),
        Member::AssignIpv4 => String::from_str(alloc, "ipam.assign_ipv4"),
        Member::AssignIpv6 => String::from_str(alloc, "ipam.assign_ipv6"),
        Member::Ipv4Pools => String::from_str(alloc, "ipam.ipv4_pools"),
        Member::Ipv6Pools => String::from_str(alloc, "ipam.ipv6_pools"),
        Member::PrevResult => String::from_str(alloc, "prevResult"),
        Member::PrevResultIps => String::from_str(alloc, "prevResult.ips"),
        Member::Attachments => String::from_str(alloc, "cni.dev/valid-attachments"),
        Member::Attachment(index) => attachment_string(alloc, index, ""),
        Member::AttachmentContainer(index) => attachment_string(alloc, index, ".containerID"),
        Member::AttachmentInterface(index) => attachment_string(alloc, index, ".ifname"),
    }
}

fn attachment_string(alloc: Global, index: usize, member: &str) -> Result<String, AllocError>
    ensures { IfOk result (λ s. string_bytes s ≡ attachment_text index member.now) }
{
    format!(in alloc; "cni.dev/valid-attachments.{index}{member}")
}
