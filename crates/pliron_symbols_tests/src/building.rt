//! Modules of functions, by words.
//!
//! Functions are set apart by ` / `: a name, and what stands in the function. A public one has a large letter. There `f` calls f,
//! `(f` does so in an operation inside, and `*` is a pack. What begins with `!` is no function, but calls what is behind.
use pliron_core::{AttrObj, Attrs, BasicBlock, Context, Head, Operation, Ptr, Text};
use std::alloc::Global;

const FUNC: u32 = 0;

const CALL: u32 = 1;

const PACK: u32 = 5;

// A head of the kind, with the name where there is one; that of a public function has one attribute more.
fn head_of(alloc: Global, kind: u32, name: &str) -> Option<Head> {
    let mut attrs = Vec::new(alloc);
    if !name.is_empty() {
        let text = String::from_str(alloc, name).ok()?;
        attrs.push(AttrObj::Text(Text::new(text))).ok()?;
    }
    let first = name.as_bytes().first().copied().unwrap_or(b'a');
    if kind == FUNC && first.is_ascii_uppercase() {
        attrs.push(AttrObj::Int(1)).ok()?;
    }
    Some(Head {
        kind,
        ssa: true,
        attrs: Attrs::new(attrs),
    })
}

fn place(ctx: &mut Context, op: Ptr<Operation>, block: Ptr<BasicBlock>) -> Option<()> {
    if !op.is_live(ctx) {
        return None;
    }
    if !block.is_live(ctx) {
        return None;
    }
    if op.get_parent_block(ctx).is_some() {
        return None;
    }
    if op.holds_block(block, ctx) {
        return None;
    }
    BasicBlock::push_operation(ctx, block, op).ok()
}

// A function of this name, in no block, and its only block.
fn make_function(
    alloc: Global,
    ctx: &mut Context,
    name: &str,
) -> Option<(Ptr<Operation>, Ptr<BasicBlock>)> {
    let head = head_of(alloc, FUNC, name)?;
    let function = Operation::create(ctx, head, 0, 1).ok()?;
    if !function.is_live(ctx) || function.num_region(ctx) == 0 {
        return None;
    }
    let region = function.get_region(ctx, 0);
    if !region.is_live(ctx) {
        return None;
    }
    let block = BasicBlock::create(ctx, region, 0).ok()?;
    Some((function, block))
}

// An operation without regions, in the block.
fn put(
    alloc: Global,
    ctx: &mut Context,
    kind: u32,
    name: &str,
    block: Ptr<BasicBlock>,
) -> Option<()> {
    let head = head_of(alloc, kind, name)?;
    let op = Operation::create(ctx, head, 0, 0).ok()?;
    place(ctx, op, block)
}

// What the word stands for, in the block.
fn put_word(alloc: Global, ctx: &mut Context, word: &str, block: Ptr<BasicBlock>) -> Option<()> {
    if word == "*" {
        return put(alloc, ctx, PACK, "", block);
    }
    match word.strip_prefix("(") {
        None => put(alloc, ctx, CALL, word, block),
        Some(callee) => {
            let (inner, inside) = make_function(alloc, ctx, "")?;
            place(ctx, inner, block)?;
            put(alloc, ctx, CALL, callee, inside)
        }
    }
}

// What is written so, in the block of the module.
fn put_part(alloc: Global, ctx: &mut Context, part: &str, block: Ptr<BasicBlock>) -> Option<()> {
    if let Some(callee) = part.strip_prefix("!") {
        return put(alloc, ctx, CALL, callee, block);
    }
    let mut words = part.split_ascii_whitespace();
    let (function, inside) = make_function(alloc, ctx, words.next()?)?;
    place(ctx, function, block)?;
    for word in words {
        put_word(alloc, ctx, word, inside)?;
    }
    Some(())
}

/// The module that is written so, which is a function of no name.
pub fn module(alloc: Global, ctx: &mut Context, written: &str) -> Option<Ptr<Operation>> {
    let (holder, block) = make_function(alloc, ctx, "")?;
    for part in written.split(" / ") {
        put_part(alloc, ctx, part, block)?;
    }
    Some(holder)
}
