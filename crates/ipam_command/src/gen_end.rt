/// How a run of the generator ended.
#[derive(Clone, Copy)]
pub enum GenEnd {
    /// All of it ran, and the summary was written.
    Done,
    /// A write to the sink failed.
    WriteFault,
    /// There was no memory.
    NoMemory,
}
