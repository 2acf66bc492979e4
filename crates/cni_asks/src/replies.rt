use cni_types::Code;
use ipam_addr::Addr;
use ipam_text::{Seq, Text};

/// What a call is answered.
#[derive(Drop)]
pub enum CniReply {
    /// These addresses are the container's, in the order of the families.
    Addresses(Seq<Addr>),
    /// It succeeded, and there is nothing to tell.
    Success,
    /// It failed with this code, and with what the code is about.
    Failure(Code, Text),
}
