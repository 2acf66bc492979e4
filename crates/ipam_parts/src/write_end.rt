ghost use Rattle.std.specs.Prelude.{◌≡◌};
ghost use Rattle.ipam_records.specs.Said.{said};

use ipam_records::Reply;

/// How a write ended.
#[derive(Clone, Copy)]
pub enum WriteEnd {
    /// It took this revision.
    Took(u64),
    /// A race was lost: the record is there already, has another revision or is missing.
    Lost,
    /// There is no room for one more record.
    Full,
    /// There are no more revisions.
    Spent,
}

impl WriteEnd {
    ghost use Rattle.ipam_parts.specs.Writes.{write_end};

    /// How the write ended that was answered so.
    pub fn of(reply: &Reply) -> WriteEnd
        ensures { result ≡ write_end (said reply.now) }
    {
        match reply {
            Reply::Can(revision) => WriteEnd::Took(*revision),
            Reply::Full => WriteEnd::Full,
            Reply::Spent => WriteEnd::Spent,
            Reply::Missing
            | Reply::Exists(_)
            | Reply::Conflict(_)
            | Reply::Found(_, _)
            | Reply::Listed(_) => WriteEnd::Lost,
        }
    }
}
