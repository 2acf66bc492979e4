use crate::kind::ResourceKind;
use ipam_model::Admin;
use ipam_text::Text;

/// What a resource of an operator's document changes.
#[derive(Drop)]
pub struct Resource {
    /// The kind that the resource states.
    pub kind: ResourceKind,
    /// The resource's name, which the line of its outcome has.
    pub name: Text,
    /// What an operator's request changes: a pool, a reservation or the configuration.
    pub change: Admin,
}
