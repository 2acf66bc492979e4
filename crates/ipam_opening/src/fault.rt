use ipam_text::Text;

/// Why rows were not opened.
#[derive(Debug, Drop)]
pub enum OpenFault {
    /// They break this one of the ten rules, and none of a lower number. Of the keys that break it,
    /// the text is the first by its bytes: a row's, or where a handle has none, the one that it
    /// would have, or `counter`.
    Refused(u8, Text),
    /// There was no memory.
    Memory,
}
