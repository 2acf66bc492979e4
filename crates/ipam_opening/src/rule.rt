ghost use Rattle.std.specs.Prelude.{◌≡◌};
ghost use Rattle.ipam_opening.specs.Rules.{number_of};

/// The ten rules of the rows that are opened, by ascending number.
#[derive(Clone, Copy)]
pub(crate) enum Rule {
    /// Key and body are texts of the format.
    Form,
    /// The body says the key.
    Key,
    /// The pools make a table.
    Table,
    /// The CIDR of a block or an affinity is a slot of a pool.
    Slot,
    /// A block is sound, and its sequence number is below its revision.
    Block,
    /// A handle counts of a block at least its addresses there.
    Count,
    /// The node of a block has an affinity for it.
    Node,
    /// The block of a confirmed affinity is there with the node.
    Confirmed,
    /// There are not too many rows, nor too many blocks.
    Limits,
    /// A revision is neither 0 nor above the counter or the last revision.
    Revision,
}

impl Rule {
    /// Which of the ten rules it is.
    pub(crate) fn number(self) -> u8
        ensures { result ≡ number_of self }
    {
        match self {
            Rule::Form => 1,
            Rule::Key => 2,
            Rule::Table => 3,
            Rule::Slot => 4,
            Rule::Block => 5,
            Rule::Count => 6,
            Rule::Node => 7,
            Rule::Confirmed => 8,
            Rule::Limits => 9,
            Rule::Revision => 10,
        }
    }
}
