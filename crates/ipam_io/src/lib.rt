//! The edge of a program's input and output: traits whose clauses say what a read, a write, a pass
//! and a look at the clock do, fakes of them in memory for tests, and adapters over std's readers,
//! writers and sockets and the system's clock. The lines of a source, read one after another, each no longer than a
//! limit, and a source as a whole.
//!
//! Each count is a `u64` that begins at 0 and stays at `u64::MAX` once it is there.
//!
//! For programs of tests: scenarios, with a blank line between two. Each has a title, then steps, and after a step
//! the lines that are wanted of it, as `= 0`. The output has each title and how many lines these were.
#![tactic(auto)]

mod clock;
mod gate;
mod input;
mod limits;
mod lines;
mod link;
mod list_clock;
mod list_gate;
mod memory_link;
mod memory_sink;
mod memory_source;
mod open_gate;
mod parts;
mod scenario;
mod sink;
mod source;
mod standard;
mod system_clock;
mod tcp_link;

pub use clock::Clock;
pub use gate::{Gate, Passed, Point};
pub use input::{InputFault, read_whole};
pub use limits::SESSION_LINE_BYTES;
pub use lines::{Got, Lines, LinesFault};
pub use link::Link;
pub use list_clock::ListClock;
pub use list_gate::ListGate;
pub use memory_link::MemoryLink;
pub use memory_sink::MemorySink;
pub use memory_source::MemorySource;
pub use open_gate::OpenGate;
pub use scenario::report;
pub use sink::Sink;
pub use source::{Failed, Source};
pub use standard::{StdSink, StdSource};
pub use std::alloc::AllocError as Memory;
pub use system_clock::SystemClock;
pub use tcp_link::{StreamLink, TcpLink};
