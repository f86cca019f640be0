//! Forms: texts of statements with marks where operands and successors stand.
ghost use Rattle.std.specs.Prelude.{◌≡◌, ◌≤◌, ◌∷◌, [], if◌then◌else◌, slice_index_or, length, map, count_by, IfOk, IsTrue};
ghost use Rattle.pliron_text_llvm_syntax.specs.Forms.{is_hole_byte, mark_of_kind, form_behind, text_of_form, AreHoles, bytes_of_hole};

use crate::tokens::{ByteSpan, bytes_of};
use std::alloc::{AllocError, Global};
use std::slice;

/// What a hole is for.
#[doc(hidden)]
#[derive(Clone, Copy, Debug, Drop, PartialEq, Eq)]
pub enum HoleKind {
    Operand,
    Successor,
}

impl HoleKind {
    /// The byte that stands for it in a form. Cost: constant.
    pub fn mark(self) -> u8
        ensures { result ≡ mark_of_kind self }
    {
        match self {
            HoleKind::Operand => 0,
            HoleKind::Successor => 1,
        }
    }
}

/// Where a statement names an operand or a successor.
#[doc(hidden)]
#[derive(Clone, Copy, Debug, Drop, PartialEq, Eq)]
pub struct Hole {
    pub kind: HoleKind,
    pub span: ByteSpan,
}

/// Whether the byte stands for an operand or a successor in a form. Cost: constant.
#[doc(hidden)]
pub fn is_mark(byte: u8) -> bool
    ensures { result ≡ is_hole_byte byte }
{
    byte < 2
}

/// How many marks the text has. Cost: linear in it.
#[doc(hidden)]
pub fn num_mark(text: &[u8]) -> usize
    ensures { result ≡ count_by is_hole_byte text.now }
{
    text.iter().filter(|byte| is_mark(**byte)).count()
}

/// Whether the holes are in order in the text, and don't overlap. Cost: linear in them.
#[doc(hidden)]
#[tactic(auto, using(crate::proofs::FormLemmas::holes_back, crate::proofs::FormLemmas::holes_end))]
pub fn are_holes(text: &[u8], holes: &[Hole]) -> bool
    ensures { IsTrue result → AreHoles text.now 0 holes.now }
{
    let mut at = 0;
    for hole in holes {
        if hole.span.start < at || hole.span.end < hole.span.start {
            return false;
        }
        at = hole.span.end;
    }
    at <= text.len()
}

/// The form of a text with these holes: the text with a mark for each. Filled with what the holes have, it is the text
/// again, where the text has no mark.
///
/// Asks that the holes are in order and don't overlap. Errors: allocation failure. Cost: linear in the text.
pub fn cut(alloc: Global, text: &[u8], holes: &[Hole]) -> Result<Vec<u8>, AllocError>
    requires { AreHoles text.now 0 holes.now }
    ensures form { IfOk result (λ form. form.items ≡ form_behind text.now 0 holes.now) }
    ensures whole { IfOk result (λ form. count_by is_hole_byte text.now ≡ 0
        → text_of_form form.items (map (bytes_of_hole text.now) holes.now) ≡ text.now) }
    ensures marks { IfOk result (λ form. count_by is_hole_byte text.now ≡ 0
        → count_by is_hole_byte form.items ≡ length holes.now) }
{
    let mut form = Vec::with_capacity(alloc, text.len())?;
    let mut at = 0;
    for hole in holes {
        let plain = ByteSpan {
            start: at,
            end: hole.span.start,
        };
        let before = bytes_of(text, plain);
        form.extend_from_slice(before)?;
        form.push(hole.kind.mark())?;
        at = hole.span.end;
    }
    let rest = ByteSpan {
        start: at,
        end: text.len(),
    };
    let behind = bytes_of(text, rest);
    form.extend_from_slice(behind)?;
    Ok(form)
}

// How many texts the byte of a form stands for.
fn num_text(byte: u8) -> usize
    ensures exact { result ≡ (if is_hole_byte byte then 1 else 0) }
    ensures few { result ≤ 1 }
{
    if is_mark(byte) { 1 } else { 0 }
}

// What the byte of a form stands for: this text, where it is a mark, and else itself.
fn piece<'t>(byte: &'t u8, text: &'t [u8]) -> &'t [u8]
    ensures { result.now ≡ (if is_hole_byte byte.now then text.now else byte.now ∷ []) }
{
    if is_mark(*byte) {
        text
    } else {
        slice::from_ref(byte)
    }
}

// The text of this number, none where there are fewer.
fn text_at<'t>(texts: &[&'t [u8]], number: usize) -> &'t [u8]
    ensures { result.now ≡ slice_index_or (map (λ text. text.now) texts.now) number [] }
{
    match texts.get(number) {
        Some(text) => text,
        None => &[],
    }
}

/// The form with these texts for its marks, in their order: none for those that are left without one. Errors:
/// allocation failure. Cost: linear in the form and the texts.
pub fn fill(alloc: Global, form: &[u8], texts: &[&[u8]]) -> Result<Vec<u8>, AllocError>
    ensures { IfOk result (λ text. text.items ≡ text_of_form form.now (map (λ text. text.now) texts.now)) }
{
    let mut out = Vec::with_capacity(alloc, form.len())?;
    let mut next = 0;
    for byte in form {
        out.extend_from_slice(piece(byte, text_at(texts, next)))?;
        next += num_text(*byte);
    }
    Ok(out)
}
