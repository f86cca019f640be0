//! Marks under a part of a text.
ghost use Rattle.std.specs.Prelude.{◌≡◌, ◌+◌, ◌==◌, ◌≤◌, length, take, take_while, reverse, not, codes, IfOk, string_bytes};
ghost use Rattle.pliron_text.specs.Beginnings.{BeginsWith};
ghost use Rattle.pliron_show_places.specs.Messages.{heading};

use pliron_text_positions::position_of;
use std::alloc::{AllocError, Global};

/// How many bytes of a line are shown at most before what is marked, and behind it.
const AROUND: usize = 50;

/// A text, and where it is from.
#[derive(Clone, Copy)]
pub struct Source<'t> {
    pub name: &'t str,
    pub text: &'t [u8],
}

/// What is reported of a part of a text.
#[derive(Clone, Copy)]
pub struct SourceMark<'t> {
    /// What is wrong.
    pub message: &'t str,
    /// What is written under the part.
    pub label: &'t str,
    /// Where the text is from.
    pub name: &'t str,
    /// The part: after how many bytes it begins, and how many it has.
    pub start: usize,
    pub len: usize,
}

// A byte as it is shown: one that can't be printed is a question mark.
fn shown_char(byte: u8) -> char {
    match byte {
        b'\t' => ' ',
        b' '..=b'~' => char::from(byte),
        _ => '?',
    }
}

/// Writes so many bytes of the text from a place on, as they are shown. Errors: allocation failure. Cost: linear in
/// these.
pub fn push_bytes(
    reported: &mut String,
    text: &[u8],
    start: usize,
    len: usize,
) -> Result<(), AllocError> {
    let start = start.min(text.len());
    for byte in text[start..].iter().take(len) {
        reported.push(shown_char(*byte))?;
    }
    Ok(())
}

// The line that holds the byte after so many: how many bytes are before and within it.
fn line_around(text: &[u8], start: usize) -> (usize, usize)
    ensures { result.0 + result.1 ≤ length text.now }
{
    let at = start.min(text.len());
    let (before, after) = text.split_at(at);
    let first = match before.iter().rposition(|byte| *byte == b'\n') {
        Some(place) => place + 1,
        None => 0,
    };
    let behind = after
        .iter()
        .position(|byte| *byte == b'\n')
        .unwrap_or(after.len());
    (first, at - first + behind)
}

// The line without the carriage return at its end, if there is one.
fn without_return(line: &[u8]) -> &[u8] {
    match line.last() {
        Some(b'\r') => &line[..line.len().saturating_sub(1)],
        _ => line,
    }
}

// The same blanks or marks over and over.
fn push_times(text: &mut String, mark: &str, times: usize) -> Result<(), AllocError> {
    for _ in 0..times {
        text.push_str(mark)?;
    }
    Ok(())
}

/// The message for the part, as compilers write it: what is wrong, where it is, its line and a mark under it. Of a long
/// line only what is around the part is shown.
///
/// Errors: allocation failure. Cost: linear in the text before the part, and in what is shown.
pub fn mark_source(alloc: Global, text: &[u8], mark: &SourceMark) -> Result<String, AllocError>
    ensures { IfOk result (λ reported. BeginsWith (string_bytes reported) (heading (codes "error")
        mark.now.message.now)) }
{
    mark_source_as(alloc, "error", text, mark)
}

/// The same with a severity: `error`, `warning` or `note`. Errors: allocation failure. Cost: that of `mark_source`.
#[tactic(auto, using(crate::proofs::MessageLemmas::begins))]
pub fn mark_source_as(
    alloc: Global,
    severity: &str,
    text: &[u8],
    mark: &SourceMark,
) -> Result<String, AllocError>
    ensures { IfOk result (λ reported. BeginsWith (string_bytes reported) (heading severity.now
        mark.now.message.now)) }
{
    let mut reported = format!(in alloc; "{severity}: {}\n", mark.message)?;
    let marked = marked_line(alloc, text, mark)?;
    reported.push_str(marked.as_str())?;
    Ok(reported)
}

// Where the part is, its line, and a mark under it.
fn marked_line(alloc: Global, text: &[u8], mark: &SourceMark) -> Result<String, AllocError> {
    let place = position_of(text, mark.start);
    let (first, len) = line_around(text, mark.start);
    let line = without_return(&text[first..first + len]);
    let column = place.column.saturating_sub(1).min(line.len());
    let from = column.saturating_sub(AROUND);
    let to = column
        .saturating_add(mark.len.max(1))
        .saturating_add(AROUND)
        .min(line.len());
    let number = format!(in alloc; "{}", place.line)?;
    let mut reported = String::new(alloc);
    push_times(&mut reported, " ", number.len())?;
    write!(
        reported,
        "--> {}:{}:{}\n",
        mark.name, place.line, place.column
    )?;
    push_times(&mut reported, " ", number.len())?;
    write!(reported, " |\n{number} | ")?;
    reported.push_str(if from > 0 { ".. " } else { "" })?;
    for byte in line.iter().take(to).skip(from) {
        reported.push(shown_char(*byte))?;
    }
    reported.push_str(if to < line.len() { " ..\n" } else { "\n" })?;
    push_times(&mut reported, " ", number.len())?;
    reported.push_str(if from > 0 { " |    " } else { " | " })?;
    push_times(&mut reported, " ", column - from)?;
    push_times(
        &mut reported,
        "^",
        mark.len.max(1).min((line.len() - column).max(1)),
    )?;
    if !mark.label.is_empty() {
        write!(reported, " {}", mark.label)?;
    }
    reported.push_str("\n")?;
    Ok(reported)
}
