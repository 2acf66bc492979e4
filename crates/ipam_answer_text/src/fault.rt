/// Why a line of a script is not read.
#[derive(Clone, Copy, Debug)]
pub enum LineFault {
    /// No line of a script has this form.
    Unreadable,
    /// There was no memory.
    Memory,
}
