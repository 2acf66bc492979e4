use ipam_addr::{Addr, Cidr};

/// What an operator is shown of a datastore.
#[derive(Clone, Copy)]
pub enum View<'a> {
    /// The pools, in a table.
    Pools,
    /// The pools, as JSON.
    Json,
    /// The blocks, in a table.
    Blocks,
    /// One address.
    Address(Addr),
    /// The blocks of the node, and the addresses that it has in blocks of others. The name is one of a node.
    Node(&'a str, Form),
    /// The addresses of the handle, and its counts that are too high. The text is a handle's id.
    Handle(&'a str, Form),
    /// The configuration that is in force.
    Config(Form),
    /// Numbers of the pools, the nodes and the rows, as Prometheus reads them.
    Metrics,
    /// The addresses in use that are chosen.
    Addresses(Choice<'a>, Form),
}

/// Which of the addresses in use are shown.
#[derive(Clone, Copy)]
pub enum Choice<'a> {
    All,
    /// The addresses of the CIDR.
    Within(Cidr),
    /// Those that are recorded with the node. The name is one of a node.
    OfNode(&'a str),
    /// The addresses of the handle. The text is a handle's id.
    OfHandle(&'a str),
    /// Those that are recorded with a node that is not their block's.
    Borrowed,
    /// Those that are recorded with the node in a block that is not the node's. The name is one of a node.
    BorrowedBy(&'a str),
}

/// How something is shown.
#[derive(Clone, Copy)]
pub enum Form {
    /// To a person, a line each.
    Table,
    /// To a program.
    Json,
}
