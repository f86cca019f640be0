//! The searches for the ancestors of an operation or a block.
use pliron_core::{BasicBlock, Context, Operation, Ptr, Region};
use pliron_dialect_bench::{Bench, BenchKind};
use pliron_graph_components::{
    find_ancestor_block_of_block_in_region, find_ancestor_block_of_op_in_region,
    find_ancestor_of_op_interface, find_ancestor_of_op_type, find_ancestor_op_of_op_in_block,
    find_ancestor_op_of_op_in_region, strictly_precedes_in_block,
};
use pliron_laws::Interface;
use pliron_text::read_text;
use std::alloc::Global;
use std::process::Abort;

const TEXT: &str = "func { b0(): a = const 2; scope a { b0(p): print p; ret }; ret a }";

// The operations and blocks of the text.
#[derive(Clone, Copy)]
struct Nest {
    func: Ptr<Operation>,
    outer: Ptr<Region>,
    body: Ptr<BasicBlock>,
    constant: Ptr<Operation>,
    scope: Ptr<Operation>,
    inner: Ptr<BasicBlock>,
    print: Ptr<Operation>,
}

fn region_of(rt: &impl Abort, ctx: &Context, op: Ptr<Operation>) -> Ptr<Region> {
    assert!(rt; op.is_live(ctx));
    assert!(rt; op.num_region(ctx) == 1);
    op.get_region(ctx, 0)
}

fn entry_of(rt: &impl Abort, ctx: &Context, region: Ptr<Region>) -> Ptr<BasicBlock> {
    assert!(rt; region.is_live(ctx));
    match region.get_head(ctx) {
        Some(block) => block,
        None => panic!(rt; "a region without a block"),
    }
}

fn first_of(rt: &impl Abort, ctx: &Context, block: Ptr<BasicBlock>) -> Ptr<Operation> {
    assert!(rt; block.is_live(ctx));
    match block.get_head(ctx) {
        Some(op) => op,
        None => panic!(rt; "a block without an operation"),
    }
}

fn after(rt: &impl Abort, ctx: &Context, op: Ptr<Operation>) -> Ptr<Operation> {
    assert!(rt; op.is_live(ctx));
    match op.get_next(ctx) {
        Some(next) => next,
        None => panic!(rt; "no operation follows"),
    }
}

fn nest_of(rt: &impl Abort, ctx: &Context, func: Ptr<Operation>) -> Nest {
    let outer = region_of(rt, ctx, func);
    let body = entry_of(rt, ctx, outer);
    let constant = first_of(rt, ctx, body);
    let scope = after(rt, ctx, constant);
    let inner = entry_of(rt, ctx, region_of(rt, ctx, scope));
    let print = first_of(rt, ctx, inner);
    Nest {
        func,
        outer,
        body,
        constant,
        scope,
        inner,
        print,
    }
}

// The nearest ancestor of the `print` of this kind, and with this interface.
fn check_kind(
    rt: &impl Abort,
    ctx: &Context,
    nest: &Nest,
    kind: BenchKind,
    want: Option<Ptr<Operation>>,
) {
    assert!(rt; nest.print.is_live(ctx));
    assert!(rt; find_ancestor_of_op_type::<Bench>(ctx, nest.print, kind) == want);
}

fn check_interface(
    rt: &impl Abort,
    ctx: &Context,
    nest: &Nest,
    interface: Interface,
    want: Option<Ptr<Operation>>,
) {
    assert!(rt; nest.print.is_live(ctx));
    assert!(rt; find_ancestor_of_op_interface::<Bench>(ctx, nest.print, interface) == want);
}

fn check_kinds(rt: &impl Abort, ctx: &Context, nest: &Nest) {
    check_kind(rt, ctx, nest, BenchKind::Scope, Some(nest.scope));
    check_kind(rt, ctx, nest, BenchKind::Func, Some(nest.func));
    check_kind(rt, ctx, nest, BenchKind::Print, None);
    check_interface(rt, ctx, nest, Interface::BlockArgRemoval, Some(nest.scope));
    check_interface(rt, ctx, nest, Interface::ConstFold, None);
}

// What the searches upwards from the operation answer in the outer region and in its block.
fn check_above(
    rt: &impl Abort,
    ctx: &Context,
    nest: &Nest,
    op: Ptr<Operation>,
    above: Ptr<Operation>,
) {
    assert!(rt; op.is_live(ctx));
    assert!(rt; find_ancestor_op_of_op_in_region(ctx, op, nest.outer) == Some(above));
    assert!(rt; find_ancestor_op_of_op_in_block(ctx, op, nest.body) == Some(above));
    assert!(rt; find_ancestor_block_of_op_in_region(ctx, op, nest.outer) == Some(nest.body));
}

// What is outside the inner region has no ancestor there.
fn check_outside(rt: &impl Abort, ctx: &Context, nest: &Nest, op: Ptr<Operation>) {
    assert!(rt; op.is_live(ctx));
    assert!(rt; nest.scope.is_live(ctx));
    let region = region_of(rt, ctx, nest.scope);
    assert!(rt; find_ancestor_op_of_op_in_block(ctx, op, nest.inner).is_none());
    assert!(rt; find_ancestor_op_of_op_in_region(ctx, op, region).is_none());
    assert!(rt; find_ancestor_block_of_op_in_region(ctx, op, region).is_none());
}

fn check_operations(rt: &impl Abort, ctx: &Context, nest: &Nest) {
    check_above(rt, ctx, nest, nest.print, nest.scope);
    check_above(rt, ctx, nest, nest.scope, nest.scope);
    check_above(rt, ctx, nest, nest.constant, nest.constant);
    check_outside(rt, ctx, nest, nest.constant);
    check_outside(rt, ctx, nest, nest.scope);
    assert!(rt; nest.func.is_live(ctx));
    assert!(rt; find_ancestor_op_of_op_in_region(ctx, nest.func, nest.outer).is_none());
}

fn check_block_above(rt: &impl Abort, ctx: &Context, nest: &Nest, block: Ptr<BasicBlock>) {
    assert!(rt; block.is_live(ctx));
    assert!(rt; find_ancestor_block_of_block_in_region(ctx, block, nest.outer) == Some(nest.body));
}

fn check_precedes(
    rt: &impl Abort,
    ctx: &Context,
    a: Ptr<Operation>,
    b: Ptr<Operation>,
    want: bool,
) {
    assert!(rt; a.is_live(ctx));
    assert!(rt; b.is_live(ctx));
    assert!(rt; strictly_precedes_in_block(ctx, a, b) == want);
}

fn check_nest(rt: &impl Abort, ctx: &Context, nest: &Nest) {
    check_kinds(rt, ctx, nest);
    check_operations(rt, ctx, nest);
    check_block_above(rt, ctx, nest, nest.inner);
    check_block_above(rt, ctx, nest, nest.body);
    check_precedes(rt, ctx, nest.constant, nest.scope, true);
    check_precedes(rt, ctx, nest.scope, nest.constant, false);
    check_precedes(rt, ctx, nest.constant, nest.constant, false);
    check_precedes(rt, ctx, nest.constant, nest.print, false);
}

fn check_text(rt: &impl Abort, alloc: Global, ctx: &mut Context) {
    let read = read_text(alloc, TEXT.as_bytes(), ctx).expect(rt, "memory");
    let func = read.expect(rt, "a readable text");
    check_nest(rt, ctx, &nest_of(rt, ctx, func));
}

#[test]
fn searches_in_a_nest(rt: HostRuntime) {
    let alloc = rt.alloc();
    let mut ctx = Context::new(alloc);
    check_text(&rt, alloc, &mut ctx)
}
