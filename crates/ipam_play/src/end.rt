/// How the run of a script ended.
#[derive(Clone, Copy)]
pub enum PlayEnd {
    /// All of it was played and written.
    Done,
    /// A read of the source failed.
    ReadFault,
    /// A write to the sink failed.
    WriteFault,
    /// There was no memory.
    NoMemory,
    /// The base was refused.
    NotOpened,
    /// A line was refused.
    LineRefused,
}
