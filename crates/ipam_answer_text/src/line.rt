use ipam_model::Request;
use ipam_records::Row;
use ipam_text::{Seq, Text};

/// What a line of a script asks. A slot is a number from 0 to 63.
#[derive(Drop)]
pub enum Line {
    /// A row that is there at the beginning. Its key and its body may be none.
    Row(Row),
    /// The greatest revision that was given at the beginning.
    Counter(u64),
    /// A request begins in the slot.
    Begin(u8, Request),
    /// The slot makes so many calls, from 1 to 100,000, one after the other.
    Turn(u8, u32),
    /// The slot's next call fails before it is made.
    Fail(u8),
    /// The answer of the slot's next call is lost.
    Lose(u8),
    /// The slot's collection is fed its second list, which was made at this time in seconds.
    Feed(u8, u64, Seq<Text>),
    /// The slot's request is stopped.
    Stop(u8),
    /// Every request is stopped, and the rows are opened again.
    Restart,
}
