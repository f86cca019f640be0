//! Edges between blocks, and erasing of blocks.

use crate::steps::{FUNC, add_successor, append_operation, block, in_new_context, operation};
use pliron_core::{BasicBlock, Context, IRRewriter, Ptr, Rewriter};
use std::alloc::Global;
use std::process::Abort;

const BR: u32 = 12;

const FORK: u32 = 15;

// A region with an entry, which leads to two blocks, twice to the second; both lead to the last.
#[derive(Clone, Copy)]
struct Diamond {
    entry: Ptr<BasicBlock>,
    left: Ptr<BasicBlock>,
    right: Ptr<BasicBlock>,
    join: Ptr<BasicBlock>,
}

// A new last operation of the block, with these successors.
fn branch(
    rt: &impl Abort,
    alloc: Global,
    ctx: &mut Context,
    from: Ptr<BasicBlock>,
    kind: u32,
    targets: &[Ptr<BasicBlock>],
) {
    let op = append_operation(rt, alloc, ctx, from, kind, 0);
    for target in targets {
        add_successor(rt, ctx, op, *target);
    }
}

fn four_blocks(rt: &impl Abort, alloc: Global, ctx: &mut Context) -> Diamond {
    let func = operation(rt, alloc, ctx, FUNC, 0, 1);
    let entry = block(rt, ctx, func, 0, 0);
    let left = block(rt, ctx, func, 0, 0);
    let right = block(rt, ctx, func, 0, 0);
    let join = block(rt, ctx, func, 0, 1);
    Diamond {
        entry,
        left,
        right,
        join,
    }
}

fn connect(rt: &impl Abort, alloc: Global, ctx: &mut Context, d: &Diamond) {
    let to_join = [d.join];
    let apart = [d.left, d.right, d.right];
    branch(rt, alloc, ctx, d.right, BR, &to_join);
    branch(rt, alloc, ctx, d.left, BR, &to_join);
    branch(rt, alloc, ctx, d.entry, FORK, &apart)
}

fn build_diamond(rt: &impl Abort, alloc: Global, ctx: &mut Context) -> Diamond {
    let d = four_blocks(rt, alloc, ctx);
    connect(rt, alloc, ctx, &d);
    d
}

fn check_preds(rt: &impl Abort, ctx: &Context, block: Ptr<BasicBlock>, want: &[Ptr<BasicBlock>]) {
    assert!(rt; block.is_live(ctx));
    assert!(rt; block.num_pred(ctx) == want.len());
    for (i, pred) in want.iter().enumerate() {
        assert!(rt; i < block.num_pred(ctx));
        assert!(rt; block.get_pred(ctx, i) == *pred);
    }
    assert!(rt; block.has_single_predecessor(ctx) == (want.len() == 1));
}

fn check_succs(rt: &impl Abort, ctx: &Context, block: Ptr<BasicBlock>, want: &[Ptr<BasicBlock>]) {
    assert!(rt; block.is_live(ctx));
    assert!(rt; block.num_succ(ctx) == want.len());
    for (i, succ) in want.iter().enumerate() {
        assert!(rt; i < block.num_succ(ctx));
        assert!(rt; block.get_succ(ctx, i) == *succ);
    }
}

fn read_successors(rt: &impl Abort, alloc: Global, ctx: &mut Context) {
    let d = build_diamond(rt, alloc, ctx);
    let apart = [d.left, d.right, d.right];
    let to_join = [d.join];
    check_succs(rt, ctx, d.entry, apart.as_slice());
    check_succs(rt, ctx, d.left, to_join.as_slice());
    check_succs(rt, ctx, d.join, &apart[..0]);
}

#[test]
fn reads_successors(rt: HostRuntime) {
    in_new_context(&rt, rt.alloc(), read_successors)
}

fn read_predecessors(rt: &impl Abort, alloc: Global, ctx: &mut Context) {
    let d = build_diamond(rt, alloc, ctx);
    let entry = [d.entry];
    let both = [d.left, d.right];
    check_preds(rt, ctx, d.entry, &entry[..0]);
    check_preds(rt, ctx, d.left, entry.as_slice());
    check_preds(rt, ctx, d.right, entry.as_slice());
    check_preds(rt, ctx, d.join, both.as_slice());
}

#[test]
fn reads_predecessors(rt: HostRuntime) {
    in_new_context(&rt, rt.alloc(), read_predecessors)
}

// The block's first use is an edge of this block's last operation.
fn check_use(rt: &impl Abort, ctx: &Context, block: Ptr<BasicBlock>, from: Ptr<BasicBlock>) {
    assert!(rt; block.is_live(ctx));
    assert!(rt; 0 < block.num_use(ctx));
    let (user, index) = block.get_use(ctx, 0);
    assert!(rt; user.is_live(ctx));
    assert!(rt; user.get_parent_block(ctx) == Some(from));
    assert!(rt; index < user.num_successor(ctx));
    assert!(rt; user.get_successor(ctx, index) == block);
}

fn check_neighbours(rt: &impl Abort, ctx: &Context, d: &Diamond) {
    assert!(rt; d.left.is_live(ctx));
    assert!(rt; d.left.get_prev(ctx) == Some(d.entry));
    assert!(rt; d.left.get_next(ctx) == Some(d.right));
    assert!(rt; d.right.is_live(ctx));
    assert!(rt; d.right.num_use(ctx) == 2);
}

fn read_uses(rt: &impl Abort, alloc: Global, ctx: &mut Context) {
    let d = build_diamond(rt, alloc, ctx);
    check_use(rt, ctx, d.right, d.entry);
    check_neighbours(rt, ctx, &d);
}

#[test]
fn reads_uses_and_neighbours(rt: HostRuntime) {
    in_new_context(&rt, rt.alloc(), read_uses)
}

fn drop_uses(rt: &impl Abort, ctx: &mut Context, block: Ptr<BasicBlock>) {
    assert!(rt; block.is_live(ctx));
    BasicBlock::drop_all_uses(ctx, block);
}

fn erase_block(rt: &impl Abort, ctx: &mut Context, block: Ptr<BasicBlock>) {
    assert!(rt; block.is_live(ctx));
    assert!(rt; block.is_self_contained(ctx));
    IRRewriter::new().erase_block(ctx, block);
    assert!(rt; !block.is_live(ctx));
}

fn check_used(rt: &impl Abort, ctx: &Context, block: Ptr<BasicBlock>) {
    assert!(rt; block.is_live(ctx));
    assert!(rt; !block.is_self_contained(ctx));
}

fn erase_right(rt: &impl Abort, alloc: Global, ctx: &mut Context) {
    let d = build_diamond(rt, alloc, ctx);
    check_used(rt, ctx, d.right);
    drop_uses(rt, ctx, d.entry);
    let left = [d.left];
    erase_block(rt, ctx, d.right);
    check_preds(rt, ctx, d.join, left.as_slice());
    check_preds(rt, ctx, d.left, &left[..0]);
}

#[test]
fn drops_uses_and_erases_a_block(rt: HostRuntime) {
    in_new_context(&rt, rt.alloc(), erase_right)
}
