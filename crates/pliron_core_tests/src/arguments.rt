//! Arguments that are removed one after the other, at places in any order.

use crate::steps::{CONST, block, operation};
use crate::tables::{Table, check_table, number, places};
use pliron_core::{BasicBlock, Context, Def, Ptr, Value};
use std::alloc::Global;
use std::process::Abort;

// A name; how many arguments the block has at first; then the place of each argument that is removed; and those
// that are left in the end, by their first places. Made by `tools/expected` over plain lists.
static REMOVALS: &str = "\
the only one -- 1 0 =>
from the last to the first -- 5 4 3 2 1 0 =>
from the first to the last -- 5 0 0 0 0 0 =>
each second, the last first -- 6 5 3 1 => 0 2 4
each second, the first first -- 6 0 1 2 => 1 3 5
ends and a middle -- 6 0 4 0 2 => 2 3
five of eight -- 8 1 5 2 2 0 => 2 5 7
seven of nine -- 9 7 7 4 4 1 1 2 => 0 3
eight of nine -- 9 2 1 3 2 1 0 2 0 => 7
six of ten -- 10 7 2 0 6 4 0 => 3 4 5 8
three of six, two at one place -- 6 1 1 0 => 3 4 5
ten of twelve -- 12 5 7 9 3 3 5 2 3 0 2 => 1 6";

pub fn remove_argument(rt: &impl Abort, ctx: &mut Context, block: Ptr<BasicBlock>, i: usize) {
    assert!(rt; block.is_live(ctx));
    assert!(rt; i < block.num_argument(ctx));
    let deleted = block.get_argument(ctx, i);
    assert!(rt; deleted.is_live(ctx));
    assert!(rt; deleted.num_use(ctx) == 0);
    BasicBlock::remove_argument(ctx, block, i);
    assert!(rt; !deleted.is_live(ctx));
}

// The argument of this index, which says where it is.
fn argument_of(rt: &impl Abort, ctx: &Context, block: Ptr<BasicBlock>, i: usize) -> Value {
    assert!(rt; block.is_live(ctx));
    assert!(rt; i < block.num_argument(ctx));
    let value = block.get_argument(ctx, i);
    assert!(rt; value.is_live(ctx));
    assert!(rt; value.def(ctx) == Def::Argument(block, i));
    value
}

pub fn arguments_of(
    rt: &impl Abort,
    alloc: Global,
    ctx: &Context,
    block: Ptr<BasicBlock>,
) -> Vec<Value> {
    let mut values = Vec::new(alloc);
    assert!(rt; block.is_live(ctx));
    for i in 0..block.num_argument(ctx) {
        values
            .push(argument_of(rt, ctx, block, i))
            .expect(rt, "memory");
    }
    values
}

// One more argument, behind the others.
fn push_argument(rt: &impl Abort, ctx: &mut Context, block: Ptr<BasicBlock>) -> Value {
    assert!(rt; block.is_live(ctx));
    let count = block.num_argument(ctx);
    let value = BasicBlock::push_argument(ctx, block).expect(rt, "memory");
    assert!(rt; argument_of(rt, ctx, block, count) == value);
    assert!(rt; value.is_live(ctx));
    assert!(rt; value.num_use(ctx) == 0);
    value
}

// The steps of a case: `+` for one more argument, which is noted behind the values, or the place of one that goes.
fn take_steps(
    rt: &impl Abort,
    ctx: &mut Context,
    block: Ptr<BasicBlock>,
    values: &mut Vec<Value>,
    words: &str,
) {
    for word in words.split_whitespace() {
        if word == "+" {
            values
                .push(push_argument(rt, ctx, block))
                .expect(rt, "memory");
        } else {
            remove_argument(rt, ctx, block, number(rt, word));
        }
    }
}

// The arguments that are left, by their first places.
pub fn left(rt: &impl Abort, alloc: Global, ctx: &mut Context, asked: &str) -> String {
    let (count, words) = asked.split_once(" ").expect(rt, "places");
    let op = operation(rt, alloc, ctx, CONST, 0, 1);
    let block = block(rt, ctx, op, 0, number(rt, count));
    let mut values = arguments_of(rt, alloc, ctx, block);
    take_steps(rt, ctx, block, &mut values, words);
    let left = arguments_of(rt, alloc, ctx, block);
    places(rt, alloc, &left, &values)
}

#[test]
fn removes_arguments_in_any_order(rt: HostRuntime) {
    check_table(&rt, rt.alloc(), Table::Arguments, REMOVALS)
}
