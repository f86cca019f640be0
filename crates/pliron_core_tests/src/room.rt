//! Room that is had and room that is refused; neither changes the tree.
use crate::steps::{append_constant, in_new_context};
use crate::straight::{Sum, build_sum};
use pliron_core::Context;
use std::alloc::Global;
use std::process::Abort;

fn check_sum(rt: &impl Abort, ctx: &Context, sum: &Sum) {
    assert!(rt; sum.func.is_live(ctx));
    assert!(rt; sum.func.first_inside(ctx) == Some(sum.one));
    assert!(rt; sum.one.is_live(ctx));
    assert!(rt; sum.one.next_beside(ctx) == Some(sum.two));
}

fn reserve(rt: &impl Abort, alloc: Global, ctx: &mut Context) {
    let sum = build_sum(rt, alloc, ctx);
    ctx.reserve(100, 10, 100).expect(rt, "memory");
    check_sum(rt, ctx, &sum);
    assert!(rt; ctx.reserve(usize::MAX, 0, 0).is_err());
    check_sum(rt, ctx, &sum);
    assert!(rt; ctx.reserve(1, usize::MAX, 0).is_err());
    check_sum(rt, ctx, &sum);
    assert!(rt; ctx.reserve(1, 1, usize::MAX).is_err());
    check_sum(rt, ctx, &sum);
    assert!(rt; sum.block.is_live(ctx));
    append_constant(rt, alloc, ctx, sum.block, 3);
}

#[test]
fn reserves_room(rt: HostRuntime) {
    in_new_context(&rt, rt.alloc(), reserve)
}
