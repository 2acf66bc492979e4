//! The help of the program, and the lines of it that tell of one word.
use crate::texts::HELP;
use std::alloc::{AllocError, Global};

/// What `--help` writes of these words, behind what it writes of the others.
const MORE_HELP: &str = "\
audit N and these two ask the daemon in the same way, and the database where no daemon is named:
  ipam backup FILE     copies all rows of one moment into a new database, FILE
  ipam unreserve NAME  takes back the reservation of that name
ipam WORD --help writes the lines of one word.

A command over the database waits for its turn at the file, at most 60 seconds. ipam --no-wait WORDS is refused at once.
";

/// What stands before a line that goes on from the one before it.
const INDENT: &str = "                       ";

/// The text that `--help` writes.
pub fn help_text(alloc: Global) -> Result<String, AllocError> {
    let mut text = String::from_str(alloc, HELP)?;
    text.push_str(MORE_HELP)?;
    Ok(text)
}

/// The lines of the help that tell of the word. None where no line does.
pub fn help_of(alloc: Global, word: &str) -> Result<Option<String>, AllocError> {
    let help = help_text(alloc)?;
    let call = format!(in alloc; "ipam {word}")?;
    let mut text = String::new(alloc);
    let mut telling = false;
    for line in help.as_str().split_inclusive('\n') {
        telling = tells_of(line, call.as_str()) || (telling && line.starts_with(INDENT));
        if telling {
            text.push_str(line)?;
        }
    }
    Ok(if text.is_empty() { None } else { Some(text) })
}

/// Whether the call stands in the line, as a whole.
fn tells_of(line: &str, call: &str) -> bool {
    line.split(call)
        .skip(1)
        .any(|after| after.starts_with([' ', '\n']))
}
