//! Attributes of operations, and statuses.

use crate::steps::{CONST, in_new_context};
use crate::straight::build_sum;
use pliron_core::{AttrObj, Attrs, Context, Head, IRStatus, Operation, Ptr, Text};
use std::alloc::Global;
use std::process::Abort;

// The operation is a constant with this number.
fn check_constant(rt: &impl Abort, ctx: &Context, op: Ptr<Operation>, number: i128) {
    assert!(rt; op.is_live(ctx));
    let head = op.head(ctx);
    assert!(rt; head.kind == CONST);
    assert!(rt; head.ssa);
    assert!(rt; head.attrs.len() == 1);
    assert!(rt; head.attrs.get(0).is_same(&AttrObj::Int(number)));
}

fn set_number(rt: &impl Abort, ctx: &mut Context, op: Ptr<Operation>, number: i128) {
    assert!(rt; op.is_live(ctx));
    assert!(rt; !op.head(ctx).attrs.is_empty());
    Operation::set_attribute(ctx, op, 0, AttrObj::Int(number));
}

fn read_and_set(rt: &impl Abort, alloc: Global, ctx: &mut Context) {
    let sum = build_sum(rt, alloc, ctx);
    check_constant(rt, ctx, sum.two, 2);
    set_number(rt, ctx, sum.two, 7);
    check_constant(rt, ctx, sum.two, 7);
    check_constant(rt, ctx, sum.one, 1);
}

#[test]
fn reads_and_sets_attributes(rt: HostRuntime) {
    in_new_context(&rt, rt.alloc(), read_and_set)
}

// The head that was there, behind another one.
fn replace_head(rt: &impl Abort, ctx: &mut Context, op: Ptr<Operation>, head: Head) -> Head {
    assert!(rt; op.is_live(ctx));
    Operation::replace_head(ctx, op, head)
}

fn replace_and_return(rt: &impl Abort, alloc: Global, ctx: &mut Context) {
    let sum = build_sum(rt, alloc, ctx);
    let attrs = Vec::from_array(alloc, [AttrObj::Int(9)]).expect(rt, "memory");
    let other = Head {
        kind: CONST,
        ssa: true,
        attrs: Attrs::new(attrs),
    };
    let before = replace_head(rt, ctx, sum.two, other);
    check_constant(rt, ctx, sum.two, 9);
    check_constant(rt, ctx, sum.one, 1);
    let other = replace_head(rt, ctx, sum.two, before);
    check_constant(rt, ctx, sum.two, 2);
    assert!(rt; other.attrs.len() == 1);
    assert!(rt; other.attrs.get(0).is_same(&AttrObj::Int(9)));
}

#[test]
fn replaces_heads(rt: HostRuntime) {
    in_new_context(&rt, rt.alloc(), replace_and_return)
}

#[test]
fn copies_attributes(rt: HostRuntime) {
    let alloc = rt.alloc();
    let text = String::from_str(alloc, "seven").expect(&rt, "memory");
    let text = AttrObj::Text(Text::new(text));
    let copy = text.copy(alloc).expect(&rt, "memory");
    assert!(rt; copy.is_same(&text));
    assert!(rt; !copy.is_same(&AttrObj::Int(7)));
    if let AttrObj::Text(text) = copy {
        assert_eq!(rt; text.as_str(), "seven");
    }
}

#[test]
fn joins_statuses(rt: HostRuntime) {
    let mut status = IRStatus::default();
    assert!(rt; status == IRStatus::Unchanged);
    status |= IRStatus::Unchanged;
    assert!(rt; status == IRStatus::Unchanged);
    status |= IRStatus::Changed;
    assert!(rt; status == IRStatus::Changed);
    status |= IRStatus::Unchanged;
    assert!(rt; status == IRStatus::Changed);
}
