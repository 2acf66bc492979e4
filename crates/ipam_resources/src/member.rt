ghost use Rattle.std.specs.Prelude.{◌≡◌, option_map};
ghost use Rattle.ipam_resources.specs.Naming.{part_of, member_name};

/// The members that are read of a document.
#[derive(Clone, Copy, Debug, PartialEq, Eq)]
pub enum Member {
    /// `kind`: the kind of a resource, or that of a list.
    Kind,
    /// The resources of a list.
    Items,
    /// `metadata.name`, which a pool and a reservation must have. A configuration without it has
    /// the name `default`.
    Name,
    /// `spec.cidr`, which a pool must have.
    Cidr,
    /// `spec.blockSize` of a pool: the prefix length of its blocks, a whole number from 0 to 255.
    /// Where it is missing, 26 for IPv4 and 122 for IPv6.
    BlockSize,
    /// `spec.disabled` of a pool: `true` or `false`, and false where it is missing.
    Disabled,
    /// `spec.nodeSelector` of a pool: the text of a selector. Where it is missing, the pool is for
    /// all nodes.
    NodeSelector,
    /// `spec.allowedUses` of a pool: an array that is empty or lists `Workload`. It may be missing.
    AllowedUses,
    /// `spec.assignmentMode` of a pool: `Automatic` or `Manual`, and automatic where it is missing.
    AssignmentMode,
    /// `spec.reservedCIDRs`, which a reservation must have: an array of at most 64 CIDRs and single
    /// addresses.
    ReservedCidrs,
    /// `spec.strictAffinity` of a configuration: `true` or `false`, and false where it is missing.
    StrictAffinity,
    /// `spec.autoAllocateBlocks` of a configuration: `true` or `false`, and true where it is
    /// missing.
    AutoAllocateBlocks,
    /// `spec.maxBlocksPerHost` of a configuration: a whole number from 0 to 2^32 - 1. It is 0 where
    /// it is missing, which sets no limit.
    MaxBlocksPerHost,
}

impl Member {
    /// The name of the member that it stands in: `metadata` or `spec`. None of `kind` and `items`, which stand in the
    /// resource itself.
    pub fn part(self) -> Option<&'static str>
        ensures { option_map (λ t. t.now) result ≡ part_of self }
    {
        match self {
            Member::Kind => None,
            Member::Items => None,
            Member::Name => Some("metadata"),
            _ => Some("spec"),
        }
    }

    /// Its own name, without that of what it stands in: `cidr` of `spec.cidr`.
    pub fn name(self) -> &'static str
        ensures { result.now ≡ member_name self }
    {
        match self {
            Member::Kind => "kind",
            Member::Items => "items",
            Member::Name => "name",
            Member::Cidr => "cidr",
            Member::BlockSize => "blockSize",
            Member::Disabled => "disabled",
            Member::NodeSelector => "nodeSelector",
            Member::AllowedUses => "allowedUses",
            Member::AssignmentMode => "assignmentMode",
            Member::ReservedCidrs => "reservedCIDRs",
            Member::StrictAffinity => "strictAffinity",
            Member::AutoAllocateBlocks => "autoAllocateBlocks",
            Member::MaxBlocksPerHost => "maxBlocksPerHost",
        }
    }
}

/// Where a member stands in a document.
#[derive(Clone, Copy, Debug, PartialEq, Eq)]
pub struct Place {
    /// The index of the item that it is a member of, from 0, where the document is a list.
    pub item: Option<usize>,
    /// The member, as `spec.cidr` in the path `items.0.spec.cidr`.
    pub member: Member,
}
