use cni_types::Version;
use ipam_text::Text;

/// Why a call ends with an error whose text is fixed.
#[derive(Clone, Copy, Debug, PartialEq, Eq)]
pub enum CniFault {
    /// A read of standard input failed.
    Read,
    /// Standard input is no configuration: it is too long, no UTF-8 or no JSON object.
    Undecodable,
    /// The keeper failed.
    Keeper,
    /// There was no memory.
    Memory,
}

/// How a call ends.
#[derive(Drop)]
pub enum CniEnd {
    /// With this status and this text.
    Told(u8, Text),
    /// With the error of the fault in this version. Its text is fixed, so it takes no memory.
    Failed(Version, CniFault),
}
