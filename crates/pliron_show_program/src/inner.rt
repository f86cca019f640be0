//! Operations inside a function, which no command reads alone: what they name is defined around them, and no run begins
//! there.
use crate::program::Program;
use pliron_show_commands::{
    LineAndColumn, Outcome, Source, SourceMark, TextRange, mark_source, operation_range,
    position_of,
};
use std::alloc::{AllocError, Global};

// Whether the byte may be in a name.
fn is_name_byte(byte: u8) -> bool {
    byte.is_ascii_alphanumeric() || byte == b'_'
}

// Whether the text begins with the word.
fn begins_with_word(text: &[u8], word: &str) -> bool {
    match text.strip_prefix(word.as_bytes()) {
        Some(rest) => !rest.first().is_some_and(|byte| is_name_byte(*byte)),
        None => false,
    }
}

/// Whether the operation is a text by itself, as its word shows. Cost: linear in the blanks before it, and in the words of
/// such operations.
pub fn is_text<P: Program>(text: &[u8], part: TextRange) -> bool {
    let text = text.get(part.start..).unwrap_or(b"");
    let start = text
        .iter()
        .position(|byte| !byte.is_ascii_whitespace())
        .unwrap_or(0);
    let operation = text.get(start..).unwrap_or(b"");
    for word in P::roots() {
        if begins_with_word(operation, word) {
            return true;
        }
    }
    false
}

/// The path to the operation, where the path leads to it or to a region of it. Cost: linear in it.
pub fn operation_path(path: &str) -> &str {
    let is_region = path.split('.').count() % 2 == 1;
    match path.rsplit_once('.') {
        Some((operation, _)) if is_region => operation,
        _ => path,
    }
}

// The path to the next operation around the one that the path leads to, if there is one.
fn path_around(path: &str) -> Option<&str> {
    let (region, _) = operation_path(path).rsplit_once('.')?;
    Some(operation_path(region))
}

/// The nearest text by itself around the operation that the path leads to, and the path to it. Cost: linear in the text
/// for each operation around it.
pub fn text_around<'p, P: Program>(text: &[u8], path: &'p str) -> Option<(TextRange, &'p str)> {
    let mut at = path;
    for _ in 0..path.len() {
        at = path_around(at)?;
        let part = operation_range(text, at)?;
        if is_text::<P>(text, part) {
            return Some((part, at));
        }
    }
    None
}

/// The outcome of a command that takes no operation inside a function: it reports where that operation is, and which
/// path leads to the function. Errors: allocation failure. Cost: linear in the text.
pub fn inner_failure<P: Program>(
    alloc: Global,
    source: &Source,
    part: TextRange,
    path: &str,
) -> Result<Outcome, AllocError> {
    let message = format!(in alloc; "`{path}` is an operation inside a function")?;
    let mark = SourceMark {
        message: message.as_str(),
        label: P::roots_label(),
        name: source.name,
        start: part.start,
        len: part.len,
    };
    let mut report = mark_source(alloc, source.text, &mark)?;
    let (_, around) = text_around::<P>(source.text, path).unwrap_or((part, "0"));
    write!(
        report,
        "help: take the function, as by `--at {around}`; `explain` and `dot` take this operation, too\n"
    )?;
    Ok(Outcome {
        output: Vec::new(alloc),
        report,
        status: 2,
    })
}

// The line and the column with which a line of an explanation begins, in words or as an object of JSON, if it does.
fn numbers_of_line(line: &str) -> Option<(&str, &str)> {
    match line.strip_prefix("{\"line\":") {
        Some(members) => {
            let (line, rest) = members.split_once(",\"column\":")?;
            let (column, _) = rest.split_once(',')?;
            Some((line, column))
        }
        None => {
            let (place, _) = line.split_once(' ')?;
            place.split_once(':')
        }
    }
}

// The place that a line of an explanation begins with, if it does.
fn place_of_line(line: &str) -> Option<LineAndColumn> {
    let (line, column) = numbers_of_line(line)?;
    Some(LineAndColumn {
        line: line.parse::<usize>().ok()?,
        column: column.parse::<usize>().ok()?,
    })
}

// Whether the one place comes before the other.
fn is_before(place: LineAndColumn, other: LineAndColumn) -> bool {
    place.line < other.line || (place.line == other.line && place.column < other.column)
}

/// The lines of an explanation whose places are in this part of the text, and those that give no place. Errors:
/// allocation failure. Cost: linear in both.
pub fn lines_inside(
    alloc: Global,
    text: &[u8],
    part: TextRange,
    explanation: &[u8],
    is_json: bool,
) -> Result<Vec<u8>, AllocError> {
    let start = position_of(text, part.start);
    let end = position_of(text, part.start.saturating_add(part.len));
    let mut kept = String::new(alloc);
    for line in std::str::from_utf8(explanation).unwrap_or("").lines() {
        let is_inside = match place_of_line(line) {
            Some(place) => !is_before(place, start) && is_before(place, end),
            None => true,
        };
        if is_inside {
            kept.push_str(line)?;
            kept.push_str("\n")?;
        }
    }
    if kept.is_empty() && !is_json {
        kept.push_str("nothing of the operation changed or went\n")?;
    }
    Ok(kept.into_bytes())
}
