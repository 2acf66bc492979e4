ghost use Rattle.std.specs.Prelude.{◌≡◌};

use ipam_records::Row;
use ipam_text::Text;

/// What a keeper is given of a write.
pub enum RowWrite {
    /// The row is put in, in place of the one of its key if there is one.
    Put(Row),
    /// The row of this key is taken out.
    Remove(Text),
}

// Written out, so that a drop of it is one call.
impl Drop for RowWrite {
    fn drop(self) {
        match self {
            RowWrite::Put(_) | RowWrite::Remove(_) => {}
        }
    }
}

impl RowWrite {
    ghost use Rattle.ipam_shared.specs.Rows.{key_written};

    /// The key whose row is written.
    pub fn key(&self) -> &str
        ensures { result.now ≡ key_written self.now }
    {
        match self {
            RowWrite::Put(row) => row.key.as_str(),
            RowWrite::Remove(key) => key.as_str(),
        }
    }
}
