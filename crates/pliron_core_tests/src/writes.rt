//! The straight block is rewritten: inserted into, moved, replaced and erased in.

use crate::steps::{
    add_operand, check_links, constant, count_uses, erase, in_new_context, move_to_end, operand_of,
    result_of,
};
use crate::straight::{Sum, build_sum};
use pliron_core::{
    BasicBlock, Context, IRRewriter, OpInsertionPoint, Operation, Ptr, Rewriter, Value,
};
use std::alloc::Global;
use std::process::Abort;

// The operation is inserted directly before `at`.
fn insert_before(rt: &impl Abort, ctx: &mut Context, op: Ptr<Operation>, at: Ptr<Operation>) {
    let mut rewriter = IRRewriter::new();
    rewriter.set_insertion_point_before_operation(at);
    assert!(rt; op.is_live(ctx));
    assert!(rt; at.is_live(ctx));
    assert!(rt; op.get_parent_block(ctx).is_none());
    assert!(rt; at.get_parent_block(ctx).is_some());
    assert!(rt; at != op);
    assert!(rt; !at.is_inside(op, ctx));
    rewriter.insert_operation(ctx, op).expect(rt, "memory");
}

fn insert_first(rt: &impl Abort, ctx: &mut Context, op: Ptr<Operation>, block: Ptr<BasicBlock>) {
    let mut rewriter = IRRewriter::default();
    rewriter.set_insertion_point_to_block_start(block);
    assert!(rt; op.is_live(ctx));
    assert!(rt; block.is_live(ctx));
    assert!(rt; op.get_parent_block(ctx).is_none());
    assert!(rt; !op.holds_block(block, ctx));
    rewriter.insert_operation(ctx, op).expect(rt, "memory");
}

fn replace(rt: &impl Abort, ctx: &mut Context, old: Value, new: Value) {
    assert!(rt; old.is_live(ctx));
    assert!(rt; new.is_live(ctx));
    IRRewriter::new()
        .replace_value_uses_with(ctx, old, new)
        .expect(rt, "memory");
}

fn insert_both(rt: &impl Abort, alloc: Global, ctx: &mut Context) {
    let sum = build_sum(rt, alloc, ctx);
    let three = constant(rt, alloc, ctx, 3);
    insert_before(rt, ctx, three, sum.add);
    let want = [sum.one, sum.two, three, sum.add, sum.ret];
    check_links(rt, ctx, sum.block, want.as_slice());
    let four = constant(rt, alloc, ctx, 4);
    insert_first(rt, ctx, four, sum.block);
    let want = [four, sum.one, sum.two, three, sum.add, sum.ret];
    check_links(rt, ctx, sum.block, want.as_slice());
}

#[test]
fn inserts(rt: HostRuntime) {
    in_new_context(&rt, rt.alloc(), insert_both)
}

// The point is the one that was set last.
fn set_points(rt: &impl Abort, alloc: Global, ctx: &mut Context) {
    let sum = build_sum(rt, alloc, ctx);
    let mut rewriter = IRRewriter::new();
    assert!(rt; rewriter.insertion_point() == OpInsertionPoint::Unset);
    rewriter.set_insertion_point_to_block_start(sum.block);
    assert!(rt; rewriter.insertion_point() == OpInsertionPoint::AtBlockStart(sum.block));
    rewriter.set_insertion_point_before_operation(sum.add);
    assert!(rt; rewriter.insertion_point() == OpInsertionPoint::BeforeOperation(sum.add));
    assert!(rt; rewriter.insertion_point() != OpInsertionPoint::BeforeOperation(sum.ret));
}

#[test]
fn reports_where_it_inserts(rt: HostRuntime) {
    in_new_context(&rt, rt.alloc(), set_points)
}

// What was erased again leaves its handle behind.
fn make_and_erase(rt: &impl Abort, alloc: Global, ctx: &mut Context) {
    assert!(rt; ctx.is_empty());
    let three = constant(rt, alloc, ctx, 3);
    assert!(rt; !ctx.is_empty());
    erase(rt, ctx, three);
    assert!(rt; !ctx.is_empty());
}

#[test]
fn reports_an_empty_context(rt: HostRuntime) {
    in_new_context(&rt, rt.alloc(), make_and_erase)
}

fn replace_sum(rt: &impl Abort, alloc: Global, ctx: &mut Context) {
    let sum = build_sum(rt, alloc, ctx);
    let old = result_of(rt, ctx, sum.add, 0);
    let new = result_of(rt, ctx, sum.one, 0);
    replace(rt, ctx, old, new);
    assert!(rt; operand_of(rt, ctx, sum.ret, 0) == new);
    assert!(rt; count_uses(rt, ctx, old) == 0);
    assert!(rt; count_uses(rt, ctx, new) == 2);
}

#[test]
fn replaces_uses(rt: HostRuntime) {
    in_new_context(&rt, rt.alloc(), replace_sum)
}

fn move_one(rt: &impl Abort, alloc: Global, ctx: &mut Context) {
    let sum = build_sum(rt, alloc, ctx);
    move_to_end(rt, ctx, sum.one, sum.block);
    let want = [sum.two, sum.add, sum.ret, sum.one];
    check_links(rt, ctx, sum.block, want.as_slice());
}

#[test]
fn moves_to_the_end(rt: HostRuntime) {
    in_new_context(&rt, rt.alloc(), move_one)
}

fn remove_operand(rt: &impl Abort, ctx: &mut Context, op: Ptr<Operation>, i: usize) -> Value {
    assert!(rt; op.is_live(ctx));
    assert!(rt; i < op.num_operand(ctx));
    Operation::remove_operand(ctx, op, i)
}

fn remove_first_operand(rt: &impl Abort, alloc: Global, ctx: &mut Context) {
    let sum = build_sum(rt, alloc, ctx);
    let a = result_of(rt, ctx, sum.one, 0);
    let b = result_of(rt, ctx, sum.two, 0);
    add_operand(rt, ctx, sum.add, a);
    let deleted = remove_operand(rt, ctx, sum.add, 0);
    assert!(rt; deleted == a);
    assert!(rt; operand_of(rt, ctx, sum.add, 0) == b);
    assert!(rt; operand_of(rt, ctx, sum.add, 1) == a);
    assert!(rt; count_uses(rt, ctx, a) == 1);
}

#[test]
fn removes_operands(rt: HostRuntime) {
    in_new_context(&rt, rt.alloc(), remove_first_operand)
}

// A sum that nothing uses any more is erased, and with it its uses of the constants.
fn erase_add(rt: &impl Abort, ctx: &mut Context, sum: &Sum) {
    let old = result_of(rt, ctx, sum.add, 0);
    let new = result_of(rt, ctx, sum.one, 0);
    replace(rt, ctx, old, new);
    erase(rt, ctx, sum.add);
    assert!(rt; !old.is_live(ctx));
    assert!(rt; count_uses(rt, ctx, new) == 1);
}

fn erase_one(rt: &impl Abort, alloc: Global, ctx: &mut Context) {
    let sum = build_sum(rt, alloc, ctx);
    erase_add(rt, ctx, &sum);
    let want = [sum.one, sum.two, sum.ret];
    check_links(rt, ctx, sum.block, want.as_slice());
}

#[test]
fn erases_an_operation(rt: HostRuntime) {
    in_new_context(&rt, rt.alloc(), erase_one)
}

fn erase_func(rt: &impl Abort, alloc: Global, ctx: &mut Context) {
    let sum = build_sum(rt, alloc, ctx);
    erase(rt, ctx, sum.func);
    assert!(rt; !sum.block.is_live(ctx));
    assert!(rt; !sum.ret.is_live(ctx));
}

#[test]
fn erases_with_contents(rt: HostRuntime) {
    in_new_context(&rt, rt.alloc(), erase_func)
}
