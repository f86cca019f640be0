//! docs/TREES.md: a tree that is made, read and rewritten by calls.
ghost use Rattle.pliron_core.specs.Tree.{IsLive};

use super::{append, constant, first_result, function, six_by_seven};
use crate::expect::expect_text;
use pliron_core::{
    AttrObj, Contents, Context, Def, Head, IRRewriter, Operation, Ptr, Rewriter, Value,
};
use pliron_dialect_bench::BenchKind;
use pliron_dialect_bench::heads::plain_head;
use pliron_text::print_text;
use std::alloc::Global;
use std::process::Abort;

// Whether the operation is of this kind.
fn is_kind(op: Ptr<Operation>, kind: BenchKind, ctx: &Context) -> bool {
    op.is_live(ctx) && op.head(ctx).kind == kind.number()
}

// The number that a constant makes the value, if one does.
fn number_of(value: Value, ctx: &Context) -> Option<i128> {
    if !value.is_live(ctx) {
        return None;
    }
    let Def::Result(op, _) = value.def(ctx) else {
        return None;
    };
    if !is_kind(op, BenchKind::Const, ctx) || op.head(ctx).attrs.is_empty() {
        return None;
    }
    match op.head(ctx).attrs.get(0) {
        AttrObj::Int(number) => Some(*number),
        AttrObj::Text(_) => None,
    }
}

// How many operations inside `root` are of this kind.
fn count_kind(root: Ptr<Operation>, kind: BenchKind, ctx: &Context) -> usize
    requires { IsLive ctx.now.tree root }
{
    let mut count: usize = 0;
    for op in Contents::new(root, ctx) {
        if is_kind(op, kind, ctx) {
            count = count.saturating_add(1);
        }
    }
    count
}

// All uses of the operation's result become uses of `value`, and the operation is erased.
fn replace(ctx: &mut Context, op: Ptr<Operation>, value: Value) -> Option<()> {
    let mut rewriter = IRRewriter::new();
    let old = first_result(op, ctx)?;
    if !old.is_live(ctx) || !value.is_live(ctx) {
        return None;
    }
    rewriter.replace_value_uses_with(ctx, old, value).ok()?;
    if !op.is_live(ctx) || !op.is_self_contained(ctx) {
        return None;
    }
    rewriter.erase_operation(ctx, op);
    Some(())
}

// A new operation without results directly before `at`, with one operand.
fn insert_before(
    ctx: &mut Context,
    at: Ptr<Operation>,
    head: Head,
    value: Value,
) -> Option<Ptr<Operation>> {
    let op = Operation::create(ctx, head, 0, 0).ok()?;
    if !op.is_live(ctx) || !value.is_live(ctx) {
        return None;
    }
    Operation::push_operand(ctx, op, value).ok()?;
    if !op.is_live(ctx) || op.get_parent_block(ctx).is_some() || !at.is_live(ctx) {
        return None;
    }
    if at == op || at.is_inside(op, ctx) || at.get_parent_block(ctx).is_none() {
        return None;
    }
    let mut rewriter = IRRewriter::new();
    rewriter.set_insertion_point_before_operation(at);
    rewriter.insert_operation(ctx, op).ok()?;
    Some(op)
}

// `mul x 1` becomes `x`.
fn drop_mul_by_one(ctx: &mut Context, op: Ptr<Operation>) -> Option<()> {
    if !op.is_live(ctx) || !is_kind(op, BenchKind::Mul, ctx) || op.num_operand(ctx) != 2 {
        return None;
    }
    let value = op.get_operand(ctx, 0);
    if number_of(op.get_operand(ctx, 1), ctx) != Some(1) {
        return None;
    }
    replace(ctx, op, value)
}

// A function that returns five by one.
fn five_by_one(alloc: Global, ctx: &mut Context) -> Option<(Ptr<Operation>, Ptr<Operation>)> {
    let (func, block) = function(alloc, ctx)?;
    let five = constant(alloc, ctx, block, 5)?;
    let one = constant(alloc, ctx, block, 1)?;
    let mul = plain_head(alloc, BenchKind::Mul);
    let mul = append(ctx, block, mul, &[five, one], 1)?;
    let product = first_result(mul, ctx)?;
    append(ctx, block, plain_head(alloc, BenchKind::Ret), &[product], 0)?;
    Some((func, mul))
}

fn check_text(rt: &impl Abort, alloc: Global, root: Ptr<Operation>, ctx: &Context, want: &str) {
    assert!(rt; root.is_live(ctx));
    let text = print_text(alloc, root, ctx).expect(rt, "memory");
    expect_text(rt, text.as_str(), want, "the text");
}

fn reads_in(rt: &impl Abort, alloc: Global, ctx: &mut Context) {
    let root = six_by_seven(alloc, ctx).expect(rt, "memory");
    assert!(rt; root.is_live(ctx));
    assert!(rt; count_kind(root, BenchKind::Const, ctx) == 2);
    assert!(rt; count_kind(root, BenchKind::Func, ctx) == 0);
}

fn rewrites_in(rt: &impl Abort, alloc: Global, ctx: &mut Context) {
    let (root, mul) = five_by_one(alloc, ctx).expect(rt, "memory");
    assert!(rt; mul.is_live(ctx));
    assert!(rt; mul.num_operand(ctx) == 2);
    let five = mul.get_operand(ctx, 0);
    let print = plain_head(alloc, BenchKind::Print);
    insert_before(ctx, mul, print, five).expect(rt, "memory");
    let before = "func { b0(): v0 = const 5; v1 = const 1; print v0; v2 = mul v0 v1; ret v2 }";
    check_text(rt, alloc, root, ctx, before);
    drop_mul_by_one(ctx, mul).expect(rt, "memory");
    let after = "func { b0(): v0 = const 5; v1 = const 1; print v0; ret v0 }";
    check_text(rt, alloc, root, ctx, after);
}

#[test]
fn reads(rt: HostRuntime) {
    let mut ctx = Context::new(rt.alloc());
    reads_in(&rt, rt.alloc(), &mut ctx)
}

#[test]
fn rewrites(rt: HostRuntime) {
    let mut ctx = Context::new(rt.alloc());
    rewrites_in(&rt, rt.alloc(), &mut ctx)
}
