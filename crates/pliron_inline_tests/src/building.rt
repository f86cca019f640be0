//! Functions of the small dialect, by a notation of their own.
//!
//! Blocks are set apart by `|`. Each has the number of its arguments, `:`, and operations set apart by `;`: a kind, `@` and a
//! name where it has one, the number of results, the values that it uses, and behind `>` the blocks where it leads. Values
//! are numbered as they are defined: the arguments of a block, then the results of what is in it, then the next block.
use pliron_core::{AttrObj, Attrs, BasicBlock, Context, Head, Operation, Ptr, Region, Text, Value};
use pliron_test_cases::cases::number;
use std::alloc::Global;

// The kinds by their numbers.
static KINDS: &str = "func call ret jmp lit pack print";

fn head_of(alloc: Global, word: &str) -> Option<Head> {
    let (kind, name) = match word.split_once('@') {
        Some((kind, name)) => (kind, Some(name)),
        None => (word, None),
    };
    let kind = KINDS
        .split_ascii_whitespace()
        .position(|known| known == kind)?;
    let mut attrs = Vec::new(alloc);
    if let Some(name) = name {
        let text = String::from_str(alloc, name).ok()?;
        attrs.push(AttrObj::Text(Text::new(text))).ok()?;
    }
    Some(Head {
        kind: u32::try_from(kind).ok()?,
        ssa: true,
        attrs: Attrs::new(attrs),
    })
}

/// What a function has so far.
#[derive(Drop)]
pub struct Parts {
    pub blocks: Vec<Ptr<BasicBlock>>,
    pub operations: Vec<Ptr<Operation>>,
    pub values: Vec<Value>,
}

fn place(ctx: &mut Context, op: Ptr<Operation>, block: Ptr<BasicBlock>) -> Option<()> {
    if !op.is_live(ctx) {
        return None;
    }
    if !block.is_live(ctx) {
        return None;
    }
    if op.get_parent_block(ctx).is_some() {
        return None;
    }
    if op.holds_block(block, ctx) {
        return None;
    }
    BasicBlock::push_operation(ctx, block, op).ok()
}

fn push_results(ctx: &Context, op: Ptr<Operation>, values: &mut Vec<Value>) -> Option<()> {
    if !op.is_live(ctx) {
        return None;
    }
    for i in 0..op.num_result(ctx) {
        values.push(op.get_result(ctx, i)).ok()?;
    }
    Some(())
}

// Makes the operation that is written so, without what it names.
fn make_operation(
    alloc: Global,
    ctx: &mut Context,
    block: Ptr<BasicBlock>,
    written: &str,
    parts: &mut Parts,
) -> Option<()> {
    let mut words = written.split_ascii_whitespace();
    let head = head_of(alloc, words.next()?)?;
    let results = number(words.next()?)?;
    let regions = if head.kind == 0 { 1 } else { 0 };
    let op = Operation::create(ctx, head, results, regions).ok()?;
    place(ctx, op, block)?;
    push_results(ctx, op, &mut parts.values)?;
    parts.operations.push(op).ok()
}

fn push_arguments(ctx: &Context, block: Ptr<BasicBlock>, values: &mut Vec<Value>) -> Option<()> {
    if !block.is_live(ctx) {
        return None;
    }
    for i in 0..block.num_argument(ctx) {
        values.push(block.get_argument(ctx, i)).ok()?;
    }
    Some(())
}

fn make_block(
    alloc: Global,
    ctx: &mut Context,
    region: Ptr<Region>,
    written: &str,
    parts: &mut Parts,
) -> Option<()> {
    if !region.is_live(ctx) {
        return None;
    }
    let (arguments, operations) = written.split_once(':')?;
    let block = BasicBlock::create(ctx, region, number(arguments.trim())?).ok()?;
    parts.blocks.push(block).ok()?;
    push_arguments(ctx, block, &mut parts.values)?;
    for operation in operations.split(';') {
        if !operation.trim().is_empty() {
            make_operation(alloc, ctx, block, operation, parts)?;
        }
    }
    Some(())
}

fn use_value(ctx: &mut Context, op: Ptr<Operation>, value: Value) -> Option<()> {
    if !op.is_live(ctx) {
        return None;
    }
    if !value.is_live(ctx) {
        return None;
    }
    Operation::push_operand(ctx, op, value).ok()
}

fn lead(ctx: &mut Context, op: Ptr<Operation>, block: Ptr<BasicBlock>) -> Option<()> {
    if !op.is_live(ctx) {
        return None;
    }
    if !block.is_live(ctx) {
        return None;
    }
    Operation::push_successor(ctx, op, block).ok()
}

// The operation names what is written, from the third word on.
fn name_all(ctx: &mut Context, op: Ptr<Operation>, written: &str, parts: &Parts) -> Option<()> {
    let (values, blocks) = match written.split_once('>') {
        Some((values, blocks)) => (values, blocks),
        None => (written, ""),
    };
    for word in values.split_ascii_whitespace().skip(2) {
        use_value(ctx, op, *parts.values.get(number(word)?)?)?;
    }
    for word in blocks.split_ascii_whitespace() {
        lead(ctx, op, *parts.blocks.get(number(word)?)?)?;
    }
    Some(())
}

fn name_in_order(ctx: &mut Context, written: &str, parts: &Parts) -> Option<()> {
    let mut operations = parts.operations.iter();
    for block in written.split('|') {
        let (_, all) = block.split_once(':')?;
        for operation in all.split(';') {
            if !operation.trim().is_empty() {
                name_all(ctx, *operations.next()?, operation, parts)?;
            }
        }
    }
    Some(())
}

/// Fills the first region of the operation with the blocks that are written so.
pub fn fill(
    alloc: Global,
    ctx: &mut Context,
    function: Ptr<Operation>,
    written: &str,
) -> Option<Parts> {
    if !function.is_live(ctx) || function.num_region(ctx) == 0 {
        return None;
    }
    let region = function.get_region(ctx, 0);
    let mut parts = Parts {
        blocks: Vec::new(alloc),
        operations: Vec::new(alloc),
        values: Vec::new(alloc),
    };
    for block in written.split('|') {
        make_block(alloc, ctx, region, block, &mut parts)?;
    }
    name_in_order(ctx, written, &parts)?;
    Some(parts)
}

/// A module, which is a function of no name, with these functions, set apart by ` / `, each its word and its blocks.
pub fn module(alloc: Global, ctx: &mut Context, written: &str) -> Option<Ptr<Operation>> {
    let holder = function(alloc, ctx, "func", "0:")?;
    if !holder.is_live(ctx) || holder.num_region(ctx) == 0 {
        return None;
    }
    let block = holder.get_region(ctx, 0).get_head(ctx)?;
    for part in written.split(" / ") {
        let (word, blocks) = part.split_once(' ')?;
        let made = function(alloc, ctx, word, blocks)?;
        place(ctx, made, block)?;
    }
    Some(holder)
}

/// A function with this word for its head and these blocks, in no block.
pub fn function(
    alloc: Global,
    ctx: &mut Context,
    word: &str,
    written: &str,
) -> Option<Ptr<Operation>> {
    let head = head_of(alloc, word)?;
    let function = Operation::create(ctx, head, 0, 1).ok()?;
    fill(alloc, ctx, function, written)?;
    Some(function)
}
