//! Measurements. Each paragraph of standard input is one: its first line has the name and two numbers, and after it
//! come addresses, or rows of a datastore, each a key and a body. A number that was computed goes to standard output,
//! so that a run can be compared, and the time to standard error.
#![tactic(auto)]

mod addresses;
mod asked;
mod choices;
mod store;
mod tally;
mod texts;
mod threads;
mod work;

use std::io;

fn main(rt: HostRuntime) -> io::Result<()> {
    let text = io::read_to_string(rt.alloc(), rt.reader())?;
    asked::measure_all(&rt, &rt, text.as_str())
}
