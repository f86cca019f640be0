//! Help texts, laid out in the width of the terminal.
use std::alloc::{AllocError, Global};

/// The width where none is known, and the least.
const WIDTH: usize = 80;

const LEAST_WIDTH: usize = 30;

/// The width of the terminal, as the variable `COLUMNS` gives it. Cost: constant.
pub fn width_of(columns: Option<&str>) -> usize {
    match columns {
        Some(columns) => columns
            .parse::<usize>()
            .unwrap_or(WIDTH)
            .max(LEAST_WIDTH)
            .min(WIDTH),
        None => WIDTH,
    }
}

// How many blanks the text begins with.
fn leading_blanks(line: &str) -> usize {
    line.len()
        .saturating_sub(line.trim_start_matches(' ').len())
}

// The column at which the further lines begin that a long line is broken into: that of what is said of an option,
// behind at least two blanks, or that of the line itself.
fn indent_of(line: &str) -> usize {
    let start = leading_blanks(line);
    let words = line.trim_start_matches(' ');
    match words.split_once("  ") {
        Some((name, rest)) if start > 0 => start
            .saturating_add(name.len())
            .saturating_add(2)
            .saturating_add(leading_blanks(rest)),
        _ => start,
    }
}

// Adds so many blanks.
fn push_blanks(text: &mut String, count: usize) -> Result<(), AllocError> {
    for _ in 0..count {
        text.push(' ')?;
    }
    Ok(())
}

// Adds a line, broken between words so that each part has at most so many letters, where the words allow it.
fn push_line(text: &mut String, line: &str, width: usize) -> Result<(), AllocError> {
    if line.len() <= width {
        text.push_str(line)?;
        return text.push_str("\n");
    }
    let indent = indent_of(line).min(width / 2);
    let head = line.get(..indent).unwrap_or("");
    let mut column = head.len();
    let mut is_first = true;
    text.push_str(head)?;
    for word in line.get(indent..).unwrap_or(line).split(' ') {
        let needed = word.len().saturating_add(if is_first { 0 } else { 1 });
        if !is_first && column.saturating_add(needed) > width {
            text.push_str("\n")?;
            push_blanks(text, indent)?;
            column = indent;
        } else if !is_first {
            text.push_str(" ")?;
            column = column.saturating_add(1);
        }
        text.push_str(word)?;
        column = column.saturating_add(word.len());
        is_first = false;
    }
    text.push_str("\n")
}

/// The help text with its long lines broken between words. Errors: allocation failure. Cost: linear in it.
pub fn lay_out(alloc: Global, help: &str, width: usize) -> Result<String, AllocError> {
    let mut text = String::new(alloc);
    for line in help.lines() {
        push_line(&mut text, line, width)?;
    }
    Ok(text)
}
