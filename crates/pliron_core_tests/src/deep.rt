//! Ten thousand operations, each inside the one before.

ghost use Rattle.pliron_core.specs.Tree.{IsLive};

use crate::steps::{
    FUNC, append, block, check_links, erase, in_new_context, move_to_end, operation,
};
use pliron_core::{Context, Operation, Ptr};
use std::alloc::Global;
use std::process::Abort;

const DEPTH: usize = 10_000;

const BOX: u32 = 11;

// The outermost and the innermost of operations that are inside one another.
#[derive(Clone, Copy)]
struct Nest {
    outer: Ptr<Operation>,
    inner: Ptr<Operation>,
}

// From the inside out.
fn build_nest(rt: &impl Abort, alloc: Global, ctx: &mut Context) -> Nest {
    let inner = operation(rt, alloc, ctx, BOX, 0, 1);
    let mut outer = inner;
    for _ in 1..DEPTH {
        outer = box_operation(rt, alloc, ctx, outer);
    }
    Nest { outer, inner }
}

// A new operation in no block, with this one in its block.
fn box_operation(
    rt: &impl Abort,
    alloc: Global,
    ctx: &mut Context,
    op: Ptr<Operation>,
) -> Ptr<Operation> {
    let outer = operation(rt, alloc, ctx, BOX, 0, 1);
    let block = block(rt, ctx, outer, 0, 0);
    append(rt, ctx, block, op);
    outer
}

// How many operations the walk through this one meets.
fn count_walked(ctx: &Context, root: Ptr<Operation>) -> usize
    requires { IsLive ctx.now.tree root }
{
    let mut at = root;
    for count in 1..usize::MAX {
        match at.next_in_preorder(root, ctx) {
            Some(next) => at = next,
            None => return count,
        }
    }
    0
}

fn check_nested(rt: &impl Abort, ctx: &Context, nest: &Nest) {
    assert!(rt; nest.inner.is_live(ctx));
    assert!(rt; nest.inner.is_inside(nest.outer, ctx));
    assert!(rt; nest.outer.is_live(ctx));
    assert!(rt; count_walked(ctx, nest.outer) == DEPTH);
}

// The nest moves from a block to its neighbour, and is erased there.
fn move_and_erase(rt: &impl Abort, alloc: Global, ctx: &mut Context, nest: &Nest) {
    let root = operation(rt, alloc, ctx, FUNC, 0, 1);
    let first = block(rt, ctx, root, 0, 0);
    let second = block(rt, ctx, root, 0, 0);
    append(rt, ctx, first, nest.outer);
    move_to_end(rt, ctx, nest.outer, second);
    let want = [nest.outer];
    check_links(rt, ctx, first, &want[..0]);
    check_links(rt, ctx, second, want.as_slice());
    erase(rt, ctx, nest.outer);
    assert!(rt; !nest.inner.is_live(ctx));
    check_links(rt, ctx, second, &want[..0]);
}

fn stand_deep(rt: &impl Abort, alloc: Global, ctx: &mut Context) {
    let nest = build_nest(rt, alloc, ctx);
    check_nested(rt, ctx, &nest);
    move_and_erase(rt, alloc, ctx, &nest)
}

#[test]
fn is_ten_thousand_deep(rt: HostRuntime) {
    in_new_context(&rt, rt.alloc(), stand_deep)
}
