//! Trees of the tiny dialect, made by steps. A step is a word and what belongs to it; operations, blocks and values are
//! numbered in the order of making.
//!
//! | Step | What it does |
//! |---|---|
//! | `const 3`, `ask`, `scope`, `br`, `both`, `twice`, `kind 9` | makes an operation of this kind, in no block |
//! | `.. @0` | puts it at the end of block 0 |
//! | `.. v0`, `.. b0` | value 0 is its next operand, block 0 its next successor |
//! | `block 0 1` | makes a last block of operation 0, with one argument |
//! | `block 0 1 1` | the same in its region 1, and not in region 0 |
//! | `on 0 b0` | operation 0 gets what is behind it |
use crate::TinyKind;
use crate::cases::{fields, number};
use pliron_core::{
    AttrObj, Attrs, BasicBlock, Context, Head, IRRewriter, Operation, Ptr, Rewriter, Value,
};
use std::alloc::Global;

/// What was made.
#[derive(Drop)]
pub struct TestTree {
    pub operations: Vec<Ptr<Operation>>,
    pub blocks: Vec<Ptr<BasicBlock>>,
    pub values: Vec<Value>,
}

impl TestTree {
    /// Nothing yet. Cost: constant.
    pub fn new(alloc: Global) -> Self {
        TestTree {
            operations: Vec::new(alloc),
            blocks: Vec::new(alloc),
            values: Vec::new(alloc),
        }
    }

    /// The operation with the number that the word has, if one was made. Cost: linear in the word.
    pub fn operation(&self, word: &str) -> Option<Ptr<Operation>> {
        self.operations.get(number(word)?).copied()
    }

    /// The block with the number that the word has, if one was made. Cost: linear in the word.
    pub fn block(&self, word: &str) -> Option<Ptr<BasicBlock>> {
        self.blocks.get(number(word)?).copied()
    }

    /// The value with the number that the word has, if one was made. Cost: linear in the word.
    pub fn value(&self, word: &str) -> Option<Value> {
        self.values.get(number(word)?).copied()
    }
}

// A new operation of this kind, with the number for its attribute.
fn operation(
    alloc: Global,
    ctx: &mut Context,
    made: &mut TestTree,
    name: &str,
    number: i128,
) -> Option<Ptr<Operation>> {
    let (kind, results, regions) = match name {
        "const" => (TinyKind::Const.number(), 1, 0),
        "ask" => (TinyKind::Ask.number(), 1, 0),
        "scope" => (TinyKind::Scope.number(), 0, 1),
        "br" => (TinyKind::Br.number(), 0, 0),
        "both" => (TinyKind::Both.number(), 0, 2),
        "twice" => (TinyKind::Twice.number(), 0, 1),
        _ => (u32::try_from(number).unwrap_or(u32::MAX), 1, 0),
    };
    let mut attrs = Vec::new(alloc);
    attrs.push(AttrObj::Int(number)).ok()?;
    let head = Head {
        kind,
        ssa: true,
        attrs: Attrs::new(attrs),
    };
    let op = Operation::create(ctx, head, results, regions).ok()?;
    made.operations.push(op).ok()?;
    if results == 1 {
        made.values.push(op.get_result(ctx, 0)).ok()?;
    }
    Some(op)
}

// A new last block of the operation's region with this index.
fn block(
    ctx: &mut Context,
    made: &mut TestTree,
    op: Ptr<Operation>,
    region: usize,
    arguments: usize,
) -> Option<Ptr<BasicBlock>> {
    if !op.is_live(ctx) || region >= op.num_region(ctx) {
        return None;
    }
    let block = BasicBlock::create(ctx, op.get_region(ctx, region), arguments).ok()?;
    made.blocks.push(block).ok()?;
    if !block.is_live(ctx) {
        return None;
    }
    for i in 0..block.num_argument(ctx) {
        made.values.push(block.get_argument(ctx, i)).ok()?;
    }
    Some(block)
}

// The operation becomes the last of the block.
fn put(ctx: &mut Context, op: Ptr<Operation>, block: Ptr<BasicBlock>) -> Option<()> {
    if !block.is_live(ctx) || !op.is_live(ctx) || op.holds_block(block, ctx) {
        return None;
    }
    IRRewriter::new().move_operation_to_end(ctx, op, block);
    Some(())
}

// The operation gets its place, an operand or a successor.
fn give(ctx: &mut Context, made: &TestTree, op: Ptr<Operation>, word: &str) -> Option<()> {
    if let Some(index) = word.strip_prefix('@') {
        return put(ctx, op, made.block(index)?);
    }
    if let Some(index) = word.strip_prefix('v') {
        let value = made.value(index)?;
        if !op.is_live(ctx) || !value.is_live(ctx) {
            return None;
        }
        return Operation::push_operand(ctx, op, value).ok();
    }
    if let Some(index) = word.strip_prefix('b') {
        let block = made.block(index)?;
        if !op.is_live(ctx) || !block.is_live(ctx) {
            return None;
        }
        return Operation::push_successor(ctx, op, block).ok();
    }
    Some(())
}

// The block that the words ask for: an operation, how many arguments, and the index of a region, each of the
// two 0 where it is missing.
fn block_of_words(ctx: &mut Context, made: &mut TestTree, words: &str) -> Option<()> {
    let mut words = words.split_ascii_whitespace();
    let op = made.operation(words.next()?)?;
    let arguments = number(words.next().unwrap_or("0"))?;
    let region = number(words.next().unwrap_or("0"))?;
    block(ctx, made, op, region, arguments)?;
    Some(())
}

// Does a step.
fn step(alloc: Global, ctx: &mut Context, made: &mut TestTree, text: &str) -> Option<()> {
    let (name, rest) = text.split_once(' ').unwrap_or((text, ""));
    if name == "block" {
        return block_of_words(ctx, made, rest);
    }
    let (first, _) = rest.split_once(' ').unwrap_or((rest, ""));
    let op = if name == "on" {
        made.operation(first)?
    } else {
        operation(alloc, ctx, made, name, first.parse::<i128>().unwrap_or(0))?
    };
    for word in rest.split_ascii_whitespace() {
        give(ctx, made, op, word)?;
    }
    Some(())
}

/// Does the steps, which `; ` sets apart; none where one can't be read or done. Cost: linear in the text, and
/// what the steps do.
pub fn make(alloc: Global, ctx: &mut Context, made: &mut TestTree, steps: &str) -> Option<()> {
    for text in steps.split(';') {
        step(alloc, ctx, made, text.trim())?;
    }
    Some(())
}

/// Does the steps behind a number, and answers the operation with this number. Cost: linear in the text, and
/// what the steps do.
pub fn build(alloc: Global, ctx: &mut Context, case: &str) -> Option<Ptr<Operation>> {
    let (index, steps) = fields(case)?;
    let mut made = TestTree::new(alloc);
    make(alloc, ctx, &mut made, steps)?;
    made.operation(index)
}
