/// Why a request did not begin.
#[derive(Clone, Copy, Debug, PartialEq, Eq)]
pub enum BeginFault {
    /// Another one runs in the slot.
    SlotBusy,
    /// There were too many entries.
    Worn,
    /// There was no memory.
    Memory,
}

/// Why a second list of live handles was not taken.
#[derive(Clone, Copy, Debug, PartialEq, Eq)]
pub enum FeedFault {
    /// No collection waits in the slot.
    NotWaiting,
    /// The grace after the first list is not over: when that list was made, and the grace, in seconds.
    TooSoon { at: u64, grace: u64 },
    /// There were too many entries.
    Worn,
    /// There was no memory.
    Memory,
}

/// Why a call was not prepared.
#[derive(Clone, Copy, Debug, PartialEq, Eq)]
pub enum PrepareFault {
    /// Nothing runs in the slot.
    SlotIdle,
    /// The slot's collection waits for its second list.
    Waiting,
    /// There were too many entries.
    Worn,
    /// There was no memory.
    Memory,
}
