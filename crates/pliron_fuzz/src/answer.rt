//! What the program answers to a text.
use pliron_driver::plir_run;
use std::alloc::{AllocError, Global};

/// What the program answers.
#[derive(Drop)]
pub enum Answer {
    /// This line, and whether the tree changed.
    Line(String, bool),
    /// The text is outside the notation.
    Unreadable,
    /// A value of an unreachable block is used.
    Refused,
    /// It ended with status 0, and what it wrote isn't a line and one that says whether the tree changed.
    Formless,
    /// It ended with this status, otherwise than it should.
    Ended(u8),
}

// Takes what is written on success apart.
fn parse_answer(alloc: Global, written: &[u8]) -> Result<Answer, AllocError> {
    let text = std::str::from_utf8(written).unwrap_or("");
    Ok(match text.split_once('\n') {
        Some((line, "changed\n")) => Answer::Line(String::from_str(alloc, line)?, true),
        Some((line, "unchanged\n")) => Answer::Line(String::from_str(alloc, line)?, false),
        _ => Answer::Formless,
    })
}

/// What the program answers to a list of passes and a text.
///
/// Errors: allocation failure. Cost: that of the program.
pub fn answer_to(alloc: Global, list: &str, text: &str) -> Result<Answer, AllocError> {
    let mut words = Vec::new(alloc);
    words.push(String::from_str(alloc, list)?)?;
    let mut input = text.as_bytes();
    let mut written: Vec<u8> = Vec::new(alloc);
    let mut reported: Vec<u8> = Vec::new(alloc);
    let status = plir_run(alloc, &words, &mut input, &mut written, &mut reported);
    match (status, std::str::from_utf8(&reported).unwrap_or("")) {
        (0, "") => parse_answer(alloc, &written),
        (1, "refused: a value of an unreachable block is used\n") => Ok(Answer::Refused),
        (1, "refused: want of memory\n") => Err(AllocError),
        (2, "unreadable text\n") => Ok(Answer::Unreadable),
        _ => Ok(Answer::Ended(status)),
    }
}
