//! Edges of branches as people read them.
ghost use Rattle.std.specs.Prelude.{◌≤◌, ◌+◌, length, IfSome};
ghost use Rattle.pliron_core.specs.Tree.{IsLive};

use crate::constants::push_integer;
use pliron_core::{Context, Head, Operation, Ptr};
use pliron_dialect_mlir::{Class, class_of_head, count_of_edge};
use pliron_show_places::TextRange;
use std::alloc::{AllocError, Global};

// The attribute at this index, as a count.
fn count_at(head: &Head, index: usize) -> usize {
    usize::try_from(count_of_edge(head, index)).unwrap_or(usize::MAX)
}

// The first of the operands that the edge at this index passes, and how many.
fn passed_by(op: Ptr<Operation>, ctx: &Context, index: usize) -> (usize, usize)
    requires { IsLive ctx.now.tree op }
{
    let head = op.head(ctx);
    match class_of_head(head) {
        Some(Class::Jump) => (0, op.num_operand(ctx)),
        Some(Class::Branch) | Some(Class::Switch) if index < op.num_successor(ctx) => {
            let mut first = 1usize;
            for before in 0..index {
                first = first.saturating_add(count_at(head, before));
            }
            (first, count_at(head, index))
        }
        _ => (0, 0),
    }
}

// What is in the first round bracket of an operation's words, behind its name.
fn operands_in(words: &[u8]) -> Option<&[u8]> {
    let quote = words.iter().position(|byte| *byte == b'"')?;
    let behind = words.get(quote..)?;
    let opening = behind.iter().position(|byte| *byte == b'(')?;
    let inside = behind.get(opening.saturating_add(1)..)?;
    let closing = inside.iter().position(|byte| *byte == b')')?;
    inside.get(..closing)
}

// The parts between commas from the first of these on, so many, as one text.
fn parts_between(list: &[u8], first: usize, count: usize) -> &[u8] {
    let mut number = 0usize;
    let mut start = if first == 0 { Some(0) } else { None };
    for at in 0..list.len() {
        if list.get(at) != Some(&b',') {
            continue;
        }
        number = number.saturating_add(1);
        if number == first {
            start = Some(at.saturating_add(1));
        } else if number == first.saturating_add(count) {
            return list.get(start.unwrap_or(at)..at).unwrap_or(b"");
        }
    }
    match start {
        Some(start) => list.get(start..).unwrap_or(b""),
        None => b"",
    }
}

/// The names of the values that the edge at this index passes, as these words of its operation have them. Asks that the
/// operation is live (`is_live` tests it). Cost: linear in the words, and in the edges before it.
pub fn edge_names<'t>(op: Ptr<Operation>, ctx: &Context, words: &'t [u8], index: usize) -> &'t [u8]
    requires { IsLive ctx.now.tree op }
{
    let (first, count) = passed_by(op, ctx, index);
    match operands_in(words) {
        Some(list) if count > 0 => parts_between(list, first, count),
        _ => b"",
    }
}

// The case of a switch with so many edges that leads to this one.
fn case_of(alloc: Global, head: &Head, edges: usize, index: usize) -> Result<String, AllocError> {
    if index == 0 {
        return String::from_str(alloc, "default");
    }
    let width = u32::try_from(count_of_edge(head, edges)).unwrap_or(0);
    if width == 0 {
        return Ok(String::new(alloc));
    }
    let bits = count_of_edge(head, edges.saturating_add(index));
    let mut case = Vec::new(alloc);
    push_integer(&mut case, width, u64::try_from(bits).unwrap_or(u64::MAX))?;
    String::from_utf8_lossy(alloc, &case)
}

/// Which way the edge at this index is: `true` or `false` of a branch, the case of a switch or `default`; empty of any
/// other. Asks that the operation is live (`is_live` tests it). Errors: allocation failure. Cost: constant.
pub fn edge_way(
    alloc: Global,
    op: Ptr<Operation>,
    ctx: &Context,
    index: usize,
) -> Result<String, AllocError>
    requires { IsLive ctx.now.tree op }
{
    let head = op.head(ctx);
    match (class_of_head(head), index) {
        (Some(Class::Branch), 0) => String::from_str(alloc, "true"),
        (Some(Class::Branch), _) => String::from_str(alloc, "false"),
        (Some(Class::Switch), _) => case_of(alloc, head, op.num_successor(ctx), index),
        _ => Ok(String::new(alloc)),
    }
}

// The part at this index between commas, without blanks around it, of what is in the next such brackets behind the
// operation's name.
fn listed_range(words: &[u8], index: usize, opening: u8, closing: u8) -> Option<TextRange>
    ensures { IfSome result (λ part. part.start + part.len ≤ length words.now) }
{
    let mut at = words.iter().position(|byte| *byte == b'"')?;
    at = at.saturating_add(words.get(at..)?.iter().position(|byte| *byte == opening)?);
    let mut number = 0usize;
    let mut start = at.saturating_add(1);
    for end in start..words.len() {
        let byte = words[end];
        if byte != b',' && byte != closing {
            continue;
        }
        if number == index {
            return trimmed_range(words, start, end);
        }
        if byte == closing {
            return None;
        }
        number = number.saturating_add(1);
        start = end.saturating_add(1);
    }
    None
}

// The part from here up to there without blanks around it; `None` where nothing is left.
fn trimmed_range(words: &[u8], start: usize, end: usize) -> Option<TextRange>
    ensures { IfSome result (λ part. part.start + part.len ≤ length words.now) }
{
    let inside = words.get(start..end)?;
    let first = inside.iter().position(|byte| !byte.is_ascii_whitespace())?;
    let last = inside.iter().rposition(|byte| !byte.is_ascii_whitespace())?;
    let start = start.saturating_add(first);
    let len = last.saturating_add(1).saturating_sub(first);
    if start.saturating_add(len) > words.len() {
        return None;
    }
    Some(TextRange { start, len })
}

/// Where these words of an operation, up to its regions, have the operand at this index; `None` where they don't. Cost:
/// linear in the words.
pub fn operand_range(words: &[u8], index: usize) -> Option<TextRange>
    ensures { IfSome result (λ part. part.start + part.len ≤ length words.now) }
{
    listed_range(words, index, b'(', b')')
}

/// The same of the block that the edge at this index leads to. Cost: linear in the words.
pub fn edge_range(words: &[u8], index: usize) -> Option<TextRange>
    ensures { IfSome result (λ part. part.start + part.len ≤ length words.now) }
{
    listed_range(words, index, b'[', b']')
}
