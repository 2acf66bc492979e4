use ipam_model::Answer;

/// What became of a request that ran.
#[derive(Drop)]
pub enum Ran {
    /// It came to this answer.
    Answered(Answer),
    /// It is a collection, which waits for its second list.
    Waits,
}

/// Why a request is not brought to its answer.
#[derive(Clone, Copy)]
pub enum Broken {
    /// The gate stopped it.
    Halted,
    /// The pass has too few turns left, or the cluster has 2^62 entries.
    Worn,
    /// There was no memory.
    Memory,
}
