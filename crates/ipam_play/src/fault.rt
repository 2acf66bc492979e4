use ipam_text::Text;

/// Why a line did not happen.
#[derive(Drop)]
pub enum PlayFault {
    /// A row or a counter that was given before, or that stands after the base.
    Base,
    /// A request runs in the slot.
    Busy,
    /// Nothing runs in the slot.
    Idle,
    /// The slot's collection waits for its second list.
    Waiting,
    /// No collection waits in the slot.
    NotWaiting,
    /// The grace after the first list is not over.
    TooSoon,
    /// There are too many entries.
    Worn,
    /// The base breaks this one of the ten rules, first at this key.
    Open(u8, Text),
    /// There was no memory.
    Memory,
}
