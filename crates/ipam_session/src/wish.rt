use ipam_model::Request;
use ipam_records::Key;
use ipam_text::{Seq, Text};
use ipam_words::RowKind;

/// What a line of a session asks.
#[derive(Drop)]
pub enum Wish {
    /// A CNI call with this environment and this standard input.
    Cni(Seq<(Text, Text)>, Text),
    /// This request begins. A collection may not have `at`, the time of its first list.
    Request(Request),
    /// The collection that waits is fed this second list.
    Feed(Seq<Text>),
    /// The collection that waits is stopped.
    Stop,
    /// All routes.
    Routes,
    /// What became of the routes after this revision.
    RoutesSince(u64),
    /// A page of the rows of this kind: those after this key, or from the first on.
    Rows(RowKind, Option<Key>),
    /// What each pool is used for.
    Usage,
    /// Which opening of the datastore this is.
    Opened,
}
