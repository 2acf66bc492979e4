use ipam_store::Change;
use ipam_text::Seq;

/// What became of the routes after a revision.
#[derive(Drop)]
pub enum Since {
    /// The datastore's revision, and the changes up to it.
    Changes(u64, Seq<Change>),
    /// The changes are known from this revision on alone.
    Compacted(u64),
    /// The datastore is at this earlier revision.
    Ahead(u64),
}
