//! Forms of texts from some byte on.
ghost use Rattle.std.specs.Prelude.{◌≡◌, ◌≤◌, ◌↔◌, drop, length, map, IfOk, IsTrue, MatchOption};
ghost use Rattle.std.specs.List.{list_any};
ghost use Rattle.pliron_text_llvm_syntax.specs.Forms.{is_hole_byte, AreHoles};
ghost use Rattle.pliron_text_llvm_forms.specs.StatementForms.{moved_hole, HasForm, IsForm};

use pliron_text_llvm_syntax::{ByteSpan, Hole, cut, is_mark};
use std::alloc::{AllocError, Global};

// Whether a byte stands for a hole.
fn has_mark(bytes: &[u8]) -> bool
    ensures { result ≡ list_any is_hole_byte bytes.now }
{
    bytes.iter().any(|byte| is_mark(*byte))
}

// Whether the holes are in order in the text from this byte on, and don't overlap.
fn are_behind(text: &[u8], start: usize, holes: &[Hole]) -> bool
    ensures { IsTrue result ↔ AreHoles text.now start holes.now }
{
    let mut at = start;
    for hole in holes {
        if hole.span.start < at || hole.span.end < hole.span.start {
            return false;
        }
        at = hole.span.end;
    }
    at <= text.len()
}

// The text from this byte on.
fn text_from(text: &[u8], start: usize) -> &[u8]
    requires { start ≤ length text.now }
    ensures { result.now ≡ drop start text.now }
{
    &text[start..]
}

// The hole in the text from this byte on.
fn moved_hole(hole: &Hole, start: usize) -> Hole
    ensures { result ≡ moved_hole start hole.now }
{
    Hole {
        kind: hole.kind,
        span: ByteSpan {
            start: hole.span.start.saturating_sub(start),
            end: hole.span.end.saturating_sub(start),
        },
    }
}

// The holes in the text from this byte on.
fn moved_holes(alloc: Global, holes: &[Hole], start: usize) -> Result<Vec<Hole>, AllocError>
    ensures { IfOk result (λ moved. moved.items ≡ map (moved_hole start) holes.now) }
{
    holes
        .iter()
        .map(|hole| moved_hole(hole, start))
        .collect(alloc)
}

// Cuts the holes out of the text from this byte on.
fn cut_from(alloc: Global, text: &[u8], start: usize, holes: &[Hole]) -> Result<Vec<u8>, AllocError>
    requires within { start ≤ length text.now }
    requires form { HasForm text.now start holes.now }
    ensures { IfOk result (λ form. IsForm text.now start holes.now form.items) }
{
    let moved = moved_holes(alloc, holes, start)?;
    let form = cut(alloc, text_from(text, start), &moved)?;
    Ok(form)
}

/// The form of the text from this byte on with these holes: the text with a mark for each of them. None where they aren't in
/// order behind this byte, or a byte there is a mark itself.
///
/// Asks that the byte is in the text, or its end. Errors: allocation failure. Cost: linear in the text from there on.
#[doc(hidden)]
pub fn form_from(
    alloc: Global,
    text: &[u8],
    start: usize,
    holes: &[Hole],
) -> Result<Option<Vec<u8>>, AllocError>
    requires { start ≤ length text.now }
    ensures { IfOk result (λ form. MatchOption form
        (¬ HasForm text.now start holes.now)
        (λ form. IsForm text.now start holes.now form.items)) }
{
    if has_mark(text_from(text, start)) || !are_behind(text, start, holes) {
        return Ok(None);
    }
    match cut_from(alloc, text, start, holes) {
        Ok(form) => Ok(Some(form)),
        Err(refused) => Err(refused),
    }
}
