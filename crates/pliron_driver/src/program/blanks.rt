//! Blanks in words that ask for passes.
use std::alloc::{AllocError, Global};

// Whether blanks beside the letter say nothing.
fn is_separator(letter: char) -> bool {
    matches!(letter, ',' | '(' | ')' | '<' | '>' | ':')
}

/// The pipeline without the blanks at its ends and beside commas, brackets and colons. Errors: allocation failure.
/// Cost: linear in it.
pub fn without_blanks(alloc: Global, pipeline: &str) -> Result<String, AllocError> {
    let mut text = String::new(alloc);
    let mut has_gap = false;
    let mut is_behind_separator = true;
    for letter in pipeline.chars() {
        if letter == ' ' || letter == '\t' || letter == '\n' {
            has_gap = true;
            continue;
        }
        if has_gap && !is_behind_separator && !is_separator(letter) {
            text.push(' ')?;
        }
        text.push(letter)?;
        has_gap = false;
        is_behind_separator = is_separator(letter);
    }
    Ok(text)
}
