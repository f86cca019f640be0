//! The straight block is read.

use crate::steps::{check_links, count_uses, in_new_context, operand_of, region_of, result_of};
use crate::straight::{Sum, build_sum};
use pliron_core::{Context, Def};
use std::alloc::Global;
use std::process::Abort;

fn check_region(rt: &impl Abort, ctx: &Context, sum: &Sum) {
    let region = region_of(rt, ctx, sum.func, 0);
    assert!(rt; region.is_live(ctx));
    assert!(rt; region.get_head(ctx) == Some(sum.block));
    assert!(rt; region.get_tail(ctx) == Some(sum.block));
    assert!(rt; region.has_ssa_dominance(ctx));
    assert!(rt; sum.block.is_live(ctx));
    assert!(rt; sum.block.get_parent_region(ctx) == Some(region));
    assert!(rt; sum.block.get_prev(ctx).is_none());
    assert!(rt; sum.block.get_next(ctx).is_none());
}

fn check_values(rt: &impl Abort, ctx: &Context, sum: &Sum) {
    let a = result_of(rt, ctx, sum.one, 0);
    let c = result_of(rt, ctx, sum.add, 0);
    assert!(rt; operand_of(rt, ctx, sum.add, 0) == a);
    assert!(rt; operand_of(rt, ctx, sum.ret, 0) == c);
    assert!(rt; count_uses(rt, ctx, a) == 1);
    assert!(rt; c.is_live(ctx));
    assert!(rt; c.def(ctx) == Def::Result(sum.add, 0));
    assert!(rt; c.key() == 2);
    assert!(rt; sum.ret.key() == 4);
}

// A value that is used outside the operation keeps it from being erased.
fn check_contained(rt: &impl Abort, ctx: &Context, sum: &Sum) {
    assert!(rt; sum.add.is_live(ctx));
    assert!(rt; !sum.add.is_self_contained(ctx));
    assert!(rt; sum.ret.is_live(ctx));
    assert!(rt; sum.ret.is_self_contained(ctx));
}

fn read_straight(rt: &impl Abort, alloc: Global, ctx: &mut Context) {
    let sum = build_sum(rt, alloc, ctx);
    let want = [sum.one, sum.two, sum.add, sum.ret];
    check_links(rt, ctx, sum.block, want.as_slice());
    check_region(rt, ctx, &sum);
    check_values(rt, ctx, &sum);
}

#[test]
fn reads_the_straight_block(rt: HostRuntime) {
    in_new_context(&rt, rt.alloc(), read_straight)
}

fn used_outside(rt: &impl Abort, alloc: Global, ctx: &mut Context) {
    let sum = build_sum(rt, alloc, ctx);
    check_contained(rt, ctx, &sum);
}

#[test]
fn reports_what_is_used_outside(rt: HostRuntime) {
    in_new_context(&rt, rt.alloc(), used_outside)
}
