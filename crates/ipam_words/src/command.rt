use crate::kind::RowKind;
use crate::view::View;
use ipam_addr::Cidr;

/// What the words of a command line ask.
#[derive(Clone, Copy)]
pub enum Command<'a> {
    /// One CNI call, over the database.
    Cni,
    /// Plays a script.
    Play,
    /// Applies a document of resources.
    Apply,
    /// Writes the rows, or those of one kind.
    Get(Option<RowKind>),
    /// Shows the pools, the blocks, an address, a node, a handle, addresses in use, the configuration or numbers.
    Show(View<'a>),
    /// Writes the blocks that are confirmed to the node. The name is one of a node.
    Routes(&'a str),
    /// The node gives up the block. The name is one of a node.
    Release(&'a str, Cidr),
    /// Generates so many requests, 0 to 65,536, and runs them.
    Gen(u32),
    /// Reports what is left over in the rows, by so many workers, 1 to 16.
    Audit(u8),
    /// Runs the daemon at the address, by so many workers, 1 to 16. The address is any text.
    Serve(&'a str, u8),
    /// One CNI call, which the daemon at the address makes. The address is any text.
    Call(&'a str),
    /// Writes which words there are.
    Help,
    /// Writes the version.
    Version,
}
