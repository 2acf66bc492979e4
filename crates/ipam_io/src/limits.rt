/// The most bytes of a line of a session, its line feed among them.
pub const SESSION_LINE_BYTES: usize = 1_048_576;
