//! What a text calls values and blocks.
use pliron_show_places::{TextParts, push_on_one_line};
use std::alloc::AllocError;

/// The name that the head of a block begins with; a word where the text gives the block no head, as the first one of a
/// region. Cost: linear in the name.
pub fn name_of_head(head: &[u8]) -> &[u8] {
    if head.is_empty() {
        return b"entry";
    }
    let end = head
        .iter()
        .position(|byte| matches!(*byte, b' ' | b'\t' | b'\r' | b'\n' | b'('))
        .unwrap_or(head.len());
    head.get(..end).unwrap_or(head)
}

// Whether the values with these numbers have the same name, at the same place.
fn share_name(parts: &TextParts, first: usize, second: usize) -> bool {
    match (parts.values.get(first), parts.values.get(second)) {
        (Some(one), Some(other)) => one.part == other.part,
        _ => false,
    }
}

/// Which of the values of one name the value with this number is, where there are several of that name. Cost: linear in
/// those before it.
pub fn number_in_pack(parts: &TextParts, number: usize) -> Option<usize> {
    let mut before = 0usize;
    for at in (0..number).rev() {
        if !share_name(parts, at, number) {
            break;
        }
        before = before.saturating_add(1);
    }
    if before > 0 || share_name(parts, number, number.saturating_add(1)) {
        Some(before)
    } else {
        None
    }
}

/// Adds what the text calls the value with this number, and answers whether it names it: its name and, of several values
/// of that name, which one it is. Errors: allocation failure. Cost: linear in the name, and in the values of that name.
pub fn push_value_name(
    line: &mut String,
    text: &[u8],
    parts: &TextParts,
    number: u64,
) -> Result<bool, AllocError> {
    let Some(name) = parts.value(number) else {
        return Ok(false);
    };
    if name.part.len == 0 {
        return Ok(false);
    }
    push_on_one_line(line, name.part.of(text))?;
    if let Ok(number) = usize::try_from(number)
        && let Some(which) = number_in_pack(parts, number)
    {
        write!(line, "#{which}")?;
    }
    Ok(true)
}
