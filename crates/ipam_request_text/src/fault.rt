/// Why a text is not read.
#[derive(Clone, Copy)]
pub enum AskFault {
    /// No text of this kind has this form.
    Unreadable,
    /// There was no memory.
    Memory,
}
