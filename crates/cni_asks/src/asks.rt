use cni_types::Version;
use ipam_model::Request;
use ipam_text::Text;

/// What a call begins.
#[derive(Drop)]
pub enum Ask {
    /// Nothing: this text answers it at once, with success.
    Tell(Text),
    /// This request. Its reply is written in this version.
    Begin(Request, Version),
}
