/// Why two texts are not those of a sound record's key and body. Of several reasons it is the
/// first, in the order of the variants.
#[derive(Clone, Copy, Debug, PartialEq, Eq)]
pub enum TextFault {
    /// The first is no key's text, or the body has not the form of the kind that the key names.
    Form,
    /// The body says another key.
    Key,
    /// The body has pools of which one is refused by those before it.
    Table,
    /// The body has the form of a block, and does not say a sound one in the one way.
    Unsound,
    /// There was no memory.
    Memory,
}
