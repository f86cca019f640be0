//! Texts as people write them: with comments, and with the mark that some editors put first.
ghost use Rattle.std.specs.Prelude.{◌≡◌, ◌≢◌, ◌++◌, ℕ, List, IfOk, if◌then◌else◌};
ghost use Rattle.pliron_show_places.specs.Comments.{byte_order_mark, is_comment as in_comment, without_comments};

use std::alloc::{AllocError, Global};

/// The text behind the byte order mark that some editors put first, if it begins with one. Cost: constant.
pub fn without_mark(text: &[u8]) -> &[u8]
    ensures marked { (rest : List ℕ) → text.now ≡ byte_order_mark ++ rest → result.now ≡ rest }
    ensures unmarked { ((rest : List ℕ) → text.now ≢ byte_order_mark ++ rest) → result.now ≡ text.now }
{
    match text {
        [0xef, 0xbb, 0xbf, rest @ ..] => rest,
        _ => text,
    }
}

// Whether the byte before this rest belongs to a comment, where the byte before it did or not.
fn is_comment(inside: bool, byte: u8, rest: &[u8]) -> bool
    ensures { result ≡ in_comment inside byte rest.now }
{
    if byte == b'\n' {
        return false;
    }
    if inside {
        return true;
    }
    if byte != b'/' {
        return false;
    }
    match rest {
        [next, ..] => *next == b'/',
        [] => false,
    }
}

// The byte as it is without comments: a blank inside one.
fn shown_byte(inside: bool, byte: u8) -> u8
    ensures { result ≡ (if inside then 32 else byte) }
{
    if inside { b' ' } else { byte }
}

/// The text with a blank for each byte of its comments, which run from `//` to the end of the line: so all else keeps
/// its line and column.
///
/// Errors: allocation failure. Cost: linear in the text.
pub fn blank_comments(alloc: Global, text: &[u8]) -> Result<Vec<u8>, AllocError>
    ensures { IfOk result (λ blank. blank.items ≡ without_comments text.now) }
{
    let mut blank = Vec::with_capacity(alloc, text.len())?;
    let mut inside = false;
    for at in 0..text.len() {
        inside = is_comment(inside, text[at], &text[at + 1..]);
        blank.push(shown_byte(inside, text[at]))?;
    }
    Ok(blank)
}
