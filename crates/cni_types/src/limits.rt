/// The most bytes of an interface's name, as the kernel has it.
pub const INTERFACE_BYTES_MAX: usize = 15;

/// The most bytes of standard input.
pub const MOST_INPUT_BYTES: usize = 1_048_576;
