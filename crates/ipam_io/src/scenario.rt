//! What is wanted of a scenario.
use std::alloc::{AllocError, Global};

/// The lines that are wanted of the scenario: those that begin with `= `.
fn wanted(alloc: Global, scenario: &str) -> Result<String, AllocError> {
    let mut wanted = String::new(alloc);
    for line in scenario.lines() {
        if let Some(one) = line.strip_prefix("= ") {
            wanted.push_str(one)?;
            wanted.push_str("\n")?;
        }
    }
    Ok(wanted)
}

/// The title of the scenario and how many lines came of it, or these where they are not those that are
/// wanted.
pub fn report(alloc: Global, scenario: &str, found: &str) -> Result<String, AllocError> {
    let title = scenario.lines().next().unwrap_or("");
    if found == wanted(alloc, scenario)?.as_str() {
        let count = found.lines().count();
        format!(in alloc; "{title} {count}")
    } else {
        format!(in alloc; "{title}\n{found}")
    }
}
