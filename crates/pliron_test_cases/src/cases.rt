//! How cases are read. A case is a line: its name before ` -- `, what is asked to the left of ` => ` and the answer to
//! its right; fields are set apart by `/`.
ghost use Rattle.std.specs.Prelude.{IfSome};
ghost use Rattle.pliron_core.specs.Tree.{IsLive};
ghost use Rattle.pliron_laws.specs.Linked.{IsWellLinked};
ghost use Rattle.pliron_dialect_bench.specs.BenchMoves.{bench};

use crate::bench::{print_text, read_text};
use pliron_core::{AttrObj, BasicBlock, Context, IRStatus, Operation, Ptr, Text};
use std::alloc::{AllocError, Global};

/// A row of a table: a line `NAME -- ASKED => WANT`.
#[derive(Clone, Copy)]
pub struct CaseRow<'t> {
    /// What a failure prints.
    pub name: &'t str,
    /// What is asked.
    pub asked: &'t str,
    /// The answer.
    pub want: &'t str,
}

/// The row of a line, if it is one. Cost: linear in the line.
pub fn row_of<'t>(line: &'t str) -> Option<CaseRow<'t>> {
    let (name, row) = line.split_once(" -- ")?;
    let (asked, want) = row.split_once(" =>")?;
    Some(CaseRow {
        name,
        asked,
        want: want.strip_prefix(' ').unwrap_or(want),
    })
}

/// A case of a table of texts: a line `NAME -- ANSWER TEXT => AFTER`.
#[derive(Clone, Copy)]
pub struct Case<'t> {
    /// What a failure prints.
    pub name: &'t str,
    /// `C` of a text that changes, `U` of one that doesn't, `R` of one that a call refuses.
    pub answer: &'t str,
    /// The text, behind what else is said of it.
    pub text: &'t str,
    /// What is left of the text.
    pub after: &'t str,
}

impl Case<'_> {
    /// What a call answers that doesn't refuse. Cost: constant.
    pub fn status(&self) -> IRStatus {
        if self.answer == "C" {
            IRStatus::Changed
        } else {
            IRStatus::Unchanged
        }
    }
}

/// The case of a line, if it is one. Cost: linear in the line.
pub fn case_of<'t>(line: &'t str) -> Option<Case<'t>> {
    let row = row_of(line)?;
    let (answer, text) = row.asked.split_once(' ')?;
    Some(Case {
        name: row.name,
        answer,
        text,
        after: row.want,
    })
}

/// The first two fields. Cost: linear in the case.
pub fn fields<'t>(case: &'t str) -> Option<(&'t str, &'t str)> {
    case.split_once(" / ")
}

/// A number for a place or a count. Cost: linear in the word.
pub fn number(word: &str) -> Option<usize> {
    word.parse::<usize>().ok()
}

/// What is known of an operand: a number, a text behind an apostrophe, or nothing behind `?`. Errors: allocation
/// failure. Cost: linear in the word.
pub fn known_operand(alloc: Global, word: &str) -> Result<Option<AttrObj>, AllocError> {
    match word.strip_prefix('\'') {
        Some(text) => {
            let text = String::from_str(alloc, text)?;
            Ok(Some(AttrObj::Text(Text::new(text))))
        }
        None => match word.parse::<i128>() {
            Ok(number) => Ok(Some(AttrObj::Int(number))),
            Err(_) => Ok(None),
        },
    }
}

/// What is known of several operands. Errors: allocation failure. Cost: linear in the words.
pub fn all_known(alloc: Global, words: &str) -> Result<Vec<Option<AttrObj>>, AllocError> {
    let mut all = Vec::new(alloc);
    for word in words.split_ascii_whitespace() {
        all.push(known_operand(alloc, word)?)?;
    }
    Ok(all)
}

/// The operation of the text, in no block; none where the text is unreadable or an allocation fails. Cost:
/// linear in the text.
pub fn read(alloc: Global, ctx: &mut Context, text: &str) -> Option<Ptr<Operation>>
    ensures live { IfSome result (λ root. IsLive ctx.new.tree root) }
    ensures linked { IfSome result (λ root. IsWellLinked bench ctx.new.tree root) }
{
    read_text(alloc, text.as_bytes(), ctx).ok()?
}

/// The line of the operation; none where it isn't live or an allocation fails. Cost: linear in the line.
pub fn line(alloc: Global, ctx: &Context, root: Ptr<Operation>) -> Option<String> {
    if !root.is_live(ctx) {
        return None;
    }
    print_text(alloc, root, ctx).ok()
}

/// The block with this index in the only region of the operation. Cost: the index.
pub fn block_of(ctx: &Context, op: Ptr<Operation>, index: usize) -> Option<Ptr<BasicBlock>> {
    if !op.is_live(ctx) || op.num_region(ctx) != 1 {
        return None;
    }
    let mut block = op.get_region(ctx, 0).get_head(ctx)?;
    for _ in 0..index {
        if !block.is_live(ctx) {
            return None;
        }
        block = block.get_next(ctx)?;
    }
    Some(block)
}

/// The operation with this index in the first block, or the root itself at the place `root`. Cost: the index.
pub fn operation_at(ctx: &Context, root: Ptr<Operation>, place: &str) -> Option<Ptr<Operation>> {
    if place == "root" {
        return Some(root);
    }
    let block = block_of(ctx, root, 0)?;
    if !block.is_live(ctx) {
        return None;
    }
    let mut op = block.get_head(ctx)?;
    for _ in 0..number(place)? {
        if !op.is_live(ctx) {
            return None;
        }
        op = op.get_next(ctx)?;
    }
    Some(op)
}
