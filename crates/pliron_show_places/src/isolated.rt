//! A part of a text by itself, at its own place.
ghost use Rattle.std.specs.Prelude.{◌≡◌, ◌+◌, ◌++◌, ◌≤◌, length, map, take, drop, IfOk, IfSome, OnOk};
ghost use Rattle.pliron_show_places.specs.Isolated.{blank_of as blank_for, part_alone};

use crate::layout::{begins_block, is_blank};
use std::alloc::{AllocError, Global};

/// A part of a text: after how many bytes it begins, and how many it has.
#[derive(Clone, Copy, Debug, Drop, PartialEq, Eq)]
pub struct TextRange {
    pub start: usize,
    pub len: usize,
}

// The byte that stands for one outside: ends of lines stay.
fn blank_of(byte: u8) -> u8
    ensures { result ≡ blank_for byte }
{
    if byte == b'\n' { b'\n' } else { b' ' }
}

// Writes blanks for these bytes.
fn push_blanks(text: &mut Vec<u8>, bytes: &[u8]) -> Result<(), AllocError>
    ensures { OnOk result (text.new.items ≡ text.old.items ++ map blank_for bytes.now) }
{
    for byte in bytes {
        text.push(blank_of(*byte))?;
    }
    Ok(())
}

/// The part of the text with blanks for all the rest, so that it keeps its lines and columns. Asks that the text has
/// the part. Errors: allocation failure. Cost: linear in the text.
pub fn isolate(alloc: Global, text: &[u8], part: TextRange) -> Result<Vec<u8>, AllocError>
    requires { part.start + part.len ≤ length text.now }
    ensures { IfOk result (λ whole. whole.items ≡ part_alone part.start part.len text.now) }
{
    let (before, rest) = text.split_at(part.start);
    let (inside, behind) = rest.split_at(part.len);
    let mut whole = Vec::with_capacity(alloc, text.len())?;
    push_blanks(&mut whole, before)?;
    whole.extend_from_slice(inside)?;
    push_blanks(&mut whole, behind)?;
    Ok(whole)
}

/// A scan for what is directly inside the braces of an operation.
#[derive(Clone, Copy)]
struct InnerScan {
    depth: usize,
    /// Whether an operation or a block begins next.
    begins: bool,
    /// How many operations began directly inside.
    count: usize,
    /// Where the one that is asked for begins.
    start: Option<usize>,
}

impl InnerScan {
    // Takes in the byte after so many, and answers whether the operation of this number ends before it.
    fn step(&mut self, text: &[u8], at: usize, number: usize) -> bool
        requires { at + 1 ≤ length text.now }
    {
        let byte = text[at];
        let is_over = self.depth == 1 && (byte == b';' || byte == b'}');
        if is_over && self.start.is_some() {
            return true;
        }
        if is_blank(byte) {
            return false;
        }
        if self.depth == 1 && self.begins && byte != b'}' && !begins_block(&text[at..]) {
            if self.count == number {
                self.start = Some(at);
            }
            self.count = self.count.saturating_add(1);
        }
        match byte {
            b'{' => self.depth = self.depth.saturating_add(1),
            b'}' => self.depth = self.depth.saturating_sub(1),
            _ => {}
        }
        self.begins = byte == b'{' || byte == b';' || byte == b':';
        false
    }
}

// How many bytes are left without the blanks at the end.
fn trimmed_len(text: &[u8]) -> usize
    ensures { result ≤ length text.now }
{
    match text.iter().rposition(|byte| !is_blank(*byte)) {
        Some(last) => last + 1,
        None => 0,
    }
}

// The operation of this number directly inside the one that the text is, counted over its blocks from 0.
fn inner_operation(text: &[u8], number: usize) -> Option<TextRange>
    ensures { IfSome result (λ part. part.start + part.len ≤ length text.now) }
{
    let mut scan = InnerScan {
        depth: 0,
        begins: false,
        count: 0,
        start: None,
    };
    for at in 0..text.len() {
        if scan.step(text, at, number) {
            let start = scan.start?.min(at);
            let len = trimmed_len(&text[start..at]);
            return Some(TextRange { start, len });
        }
    }
    None
}

/// The operation at the end of a path in a text that the notation has: numbers with dots between them, in turn that of
/// a region of an operation and that of an operation directly in the region, counted over its blocks, each from 0. A
/// path that ends with a region leads to the operation that holds it. `None` where the text has no such operation.
///
/// Cost: linear in the path and in the operations on it.
pub fn operation_range(text: &[u8], path: &str) -> Option<TextRange>
    ensures { IfSome result (λ part. part.start + part.len ≤ length text.now) }
{
    let mut part = TextRange {
        start: 0,
        len: text.len(),
    };
    let mut is_region = true;
    for word in path.split('.') {
        let number = word.parse::<usize>().ok()?;
        if is_region {
            if number > 0 {
                return None;
            }
        } else {
            let inside = &text[part.start..part.start + part.len];
            let inner = inner_operation(inside, number)?;
            part = TextRange {
                start: part.start + inner.start,
                len: inner.len,
            };
        }
        is_region = !is_region;
    }
    Some(part)
}
