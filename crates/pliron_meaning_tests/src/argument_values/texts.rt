//! Texts, and what is left where the uses of an argument were replaced by its one value.
use super::cases::ROWS;
use crate::questions::{Question, check_table};
use pliron_core::{BasicBlock, Context, Ptr, Value};
use pliron_dialect_bench::Bench;
use pliron_rewrite_arguments::finding::find_one_value;
use pliron_rewrite_arguments::rewrites::replace_argument_by_value;
use pliron_test_cases::cases::{block_of, line, number, read};
use pliron_test_cases::listener::CountingListener;
use std::alloc::Global;
use std::process::Abort;

// The one value of the argument of the block, if it has one, after whose replacement the argument has no uses.
fn replaced(
    rt: &impl Abort,
    alloc: Global,
    ctx: &mut Context,
    block: Ptr<BasicBlock>,
    index: usize,
) -> Option<Value> {
    assert!(rt; block.is_live(ctx));
    assert!(rt; index < block.num_argument(ctx));
    let value = find_one_value::<Bench>(alloc, block, index, ctx).expect(rt, "memory")?;
    let mut rewriter = CountingListener::new();
    replace_argument_by_value::<Bench, CountingListener>(
        alloc,
        block,
        index,
        value,
        ctx,
        &mut rewriter,
    ).expect(rt, "memory");
    assert!(rt; rewriter.had_room());
    Some(value)
}

/// What is left of the text behind the indices of a block and an argument, or `none`.
pub fn left_of(rt: &impl Abort, alloc: Global, ctx: &mut Context, asked: &str) -> String {
    let (block, rest) = asked.split_once(" ").expect(rt, "a block");
    let (index, text) = rest.split_once(" ").expect(rt, "an argument");
    let root = read(alloc, ctx, text).expect(rt, "a text");
    let block = block_of(ctx, root, number(block).expect(rt, "a number")).expect(rt, "a block");
    let index = number(index).expect(rt, "a number");
    match replaced(rt, alloc, ctx, block, index) {
        Some(_) => line(alloc, ctx, root).expect(rt, "a line"),
        None => String::from_str(alloc, "none").expect(rt, "memory"),
    }
}

#[test]
fn rows(rt: HostRuntime) {
    check_table(&rt, rt.alloc(), Question::OneValue, ROWS);
}
