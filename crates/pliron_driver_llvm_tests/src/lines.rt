//! Texts over several lines, in one: `|` stands for the end of a line.
use std::alloc::{AllocError, Global};

/// The text with an end of a line for each `|`.
pub fn with_lines(alloc: Global, text: &str) -> Result<String, AllocError> {
    let mut lines = String::new(alloc);
    for letter in text.chars() {
        lines.push(if letter == '|' { '\n' } else { letter })?;
    }
    Ok(lines)
}

/// The text with `|` for each end of a line.
pub fn in_one_line(alloc: Global, text: &[u8]) -> Result<String, AllocError> {
    let mut line = String::new(alloc);
    for letter in std::str::from_utf8(text).unwrap_or("").chars() {
        line.push(if letter == '\n' { '|' } else { letter })?;
    }
    Ok(line)
}
