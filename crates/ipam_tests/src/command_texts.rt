//! Texts of steps.
use std::alloc::{AllocError, Global};

/// The words that stand between single spaces.
pub(crate) fn words_of(alloc: Global, text: &str) -> Result<Vec<String>, AllocError> {
    let mut words = Vec::new(alloc);
    for word in text.split(' ') {
        words.push(String::from_str(alloc, word)?)?;
    }
    Ok(words)
}

/// The line of the command that plays the script of these lines: those that do not begin with `= `. `∎` ends a line
/// that has no line feed.
pub(crate) fn play_of(alloc: Global, lines: &str) -> Result<String, AllocError> {
    let mut script = String::from_str(alloc, "play⇒⇒")?;
    for line in lines.lines() {
        if let Some(part) = line.strip_suffix('∎') {
            script.push_str(part)?;
        } else if !line.starts_with("= ") {
            push_line(&mut script, line)?;
        }
    }
    Ok(script)
}

/// Appends the text as a line.
pub(crate) fn push_line(told: &mut String, line: &str) -> Result<(), AllocError> {
    told.push_str(line)?;
    told.push_str("\n")
}
