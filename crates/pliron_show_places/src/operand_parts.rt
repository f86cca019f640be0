//! Where the words of an operation have an operand or an edge.
ghost use Rattle.std.specs.Prelude.{◌≤◌, ◌+◌, length, IfSome};

use crate::isolated::TextRange;
use crate::text_tokens::{is_followed_by, token_behind, token_from};
use pliron_text::Span;

// The part from here up to there, if the words have it.
fn range_of(words: &[u8], start: usize, end: usize) -> Option<TextRange>
    ensures { IfSome result (λ part. part.start + part.len ≤ length words.now) }
{
    if start > end || end > words.len() {
        return None;
    }
    Some(TextRange {
        start,
        len: end - start,
    })
}

// The word of the operation's kind, behind the names of its results.
fn kind_token(words: &[u8]) -> Option<Span> {
    match words.iter().position(|byte| *byte == b'=') {
        Some(equals) => token_from(words, equals.saturating_add(1)),
        None => token_from(words, 0),
    }
}

// Whether the token is a word.
fn is_word(words: &[u8], token: Span) -> bool {
    match words.get(token.start) {
        Some(byte) => byte.is_ascii_alphanumeric() || *byte == b'_',
        None => false,
    }
}

// The word at this index behind that of the kind, counted among those with a bracket behind them or among the others.
fn word_at(words: &[u8], index: usize, has_bracket: bool) -> Option<Span> {
    let mut before: usize = 0;
    let mut at = kind_token(words)?;
    for _ in 0..words.len() {
        at = token_behind(words, at)?;
        if is_word(words, at) && is_followed_by(words, at, b"(") == has_bracket {
            if before == index {
                return Some(at);
            }
            before = before.saturating_add(1);
        }
    }
    None
}

/// The name of the operand at this index, in the words of an operation up to its regions; `None` where they have no such
/// name. Cost: linear in the words.
pub fn operand_range(words: &[u8], index: usize) -> Option<TextRange>
    ensures { IfSome result (λ part. part.start + part.len ≤ length words.now) }
{
    let name = word_at(words, index, false)?;
    range_of(words, name.start, name.start.saturating_add(name.len))
}

/// The block that the edge at this index leads to, with the brackets behind it, in the words of an operation: of one
/// without brackets, as `fork`, a name behind its operand. `None` where the words have no such edge. Cost: linear in the
/// words.
pub fn edge_range(words: &[u8], index: usize) -> Option<TextRange>
    ensures { IfSome result (λ part. part.start + part.len ≤ length words.now) }
{
    let Some(block) = word_at(words, index, true) else {
        return operand_range(words, index.saturating_add(1));
    };
    let behind = words.get(block.start..)?;
    let closing = behind.iter().position(|byte| *byte == b')')?;
    let end = block.start.saturating_add(closing).saturating_add(1);
    range_of(words, block.start, end)
}
