/// How a session ended.
#[derive(Clone, Copy, Debug)]
pub enum SessionEnd {
    /// The input ended between lines.
    Closed,
    /// The input ended inside a line.
    Cut,
    /// There were 1,048,576 bytes without a line end.
    LineTooLong,
    /// A read of the link failed.
    ReadFault,
    /// A write to the link failed.
    WriteFault,
    /// The gate stopped it.
    Halted,
    /// The pass has too few turns left, be it to make sure of what a line did, or the cluster has 2^62 entries.
    Worn,
    /// There was no memory.
    Memory,
    /// What a line did could not be made sure of, since the keeper failed. It is not replied to.
    KeeperFault,
}
