//! What the kinds of resources have in their `spec`.
use ipam_json::text_at;
use serde_json::Value;

/// A kind of resource.
#[derive(Clone, Copy, PartialEq, Eq)]
pub(crate) enum Kind {
    Pool,
    Reservation,
    Config,
}

/// Whether a member of a resource's `spec` is read.
#[derive(Clone, Copy, PartialEq, Eq)]
pub(crate) enum Reading {
    /// It is read.
    Read,
    /// Calico has it for what is not the matter of an allocator, so that nobody expects it to be read.
    Calico,
    /// Neither reads it.
    Unread,
}

/// The kind that the resource says it is.
pub(crate) fn kind_of(resource: &Value) -> Option<Kind> {
    match text_at(resource, "kind")? {
        "IPPool" => Some(Kind::Pool),
        "IPReservation" => Some(Kind::Reservation),
        "IPAMConfig" | "IPAMConfiguration" => Some(Kind::Config),
        _ => None,
    }
}

/// Whether the member of a resource of this kind is read.
pub(crate) fn reading_of(kind: Kind, name: &str) -> Reading {
    match kind {
        Kind::Pool => reading_of_pool(name),
        Kind::Reservation if name == "reservedCIDRs" => Reading::Read,
        Kind::Reservation => Reading::Unread,
        Kind::Config => reading_of_config(name),
    }
}

fn reading_of_pool(name: &str) -> Reading {
    match name {
        "cidr" | "blockSize" | "disabled" | "nodeSelector" | "allowedUses" | "assignmentMode" => {
            Reading::Read
        }
        "ipipMode"
        | "vxlanMode"
        | "natOutgoing"
        | "disableBGPExport"
        | "namespaceSelector"
        | "ipip"
        | "nat-outgoing"
        | "awsSubnetID" => Reading::Calico,
        _ => Reading::Unread,
    }
}

fn reading_of_config(name: &str) -> Reading {
    match name {
        "strictAffinity" | "autoAllocateBlocks" | "maxBlocksPerHost" => Reading::Read,
        "kubeVirtVMAddressPersistence" => Reading::Calico,
        _ => Reading::Unread,
    }
}

/// The member that is read and has this name but for small and capital letters.
pub(crate) fn meant_by(kind: Kind, name: &str) -> Option<&'static str> {
    members_of(kind)
        .iter()
        .copied()
        .find(|read| read.eq_ignore_ascii_case(name))
}

fn members_of(kind: Kind) -> &'static [&'static str] {
    match kind {
        Kind::Pool => &[
            "cidr",
            "blockSize",
            "disabled",
            "nodeSelector",
            "allowedUses",
            "assignmentMode",
        ],
        Kind::Reservation => &["reservedCIDRs"],
        Kind::Config => &["strictAffinity", "autoAllocateBlocks", "maxBlocksPerHost"],
    }
}
