//! The tiny dialect: a constant that a branch forwards to an argument, which a question reads.
use pliron_core::{
    AttrObj, Attrs, BasicBlock, Context, Head, IRRewriter, IRStatus, Operation, Ptr, Rewriter,
};
use pliron_evaluator::{Tiny, TinyKind};
use pliron_laws::{Dialect, is_well_linked};
use pliron_opt_sccp::sccp_counted;
use std::alloc::Global;
use std::process::Abort;

// A new operation of this kind, with a number for its attribute.
pub(crate) fn make_operation(
    rt: &impl Abort,
    alloc: Global,
    ctx: &mut Context,
    kind: TinyKind,
    results: usize,
    regions: usize,
) -> Ptr<Operation> {
    let attrs = Vec::from_array(alloc, [AttrObj::Int(7)]).expect(rt, "memory");
    made_with(rt, ctx, kind, attrs, results, regions)
}

// A new operation of this kind, with these attributes.
pub(crate) fn made_with(
    rt: &impl Abort,
    ctx: &mut Context,
    kind: TinyKind,
    attrs: Vec<AttrObj>,
    results: usize,
    regions: usize,
) -> Ptr<Operation> {
    let head = Head {
        kind: kind.number(),
        ssa: true,
        attrs: Attrs::new(attrs),
    };
    Operation::create(ctx, head, results, regions).expect(rt, "memory")
}

// A new last block of the operation's region.
pub(crate) fn block(
    rt: &impl Abort,
    ctx: &mut Context,
    op: Ptr<Operation>,
    arguments: usize,
) -> Ptr<BasicBlock> {
    assert!(rt; op.is_live(ctx));
    assert!(rt; op.num_region(ctx) == 1);
    BasicBlock::create(ctx, op.get_region(ctx, 0), arguments).expect(rt, "memory")
}

// The operation becomes the last of the block.
pub(crate) fn put(rt: &impl Abort, ctx: &mut Context, op: Ptr<Operation>, block: Ptr<BasicBlock>) {
    assert!(rt; block.is_live(ctx));
    assert!(rt; op.is_live(ctx));
    assert!(rt; !op.holds_block(block, ctx));
    IRRewriter::new().move_operation_to_end(ctx, op, block);
}

// The operation with one operand, which is the first result of the other or the first argument of the block.
pub(crate) fn reads_result(
    rt: &impl Abort,
    ctx: &mut Context,
    op: Ptr<Operation>,
    maker: Ptr<Operation>,
) {
    assert!(rt; maker.is_live(ctx));
    assert!(rt; maker.num_result(ctx) == 1);
    let value = maker.get_result(ctx, 0);
    assert!(rt; op.is_live(ctx));
    assert!(rt; value.is_live(ctx));
    Operation::push_operand(ctx, op, value).expect(rt, "memory");
}

pub(crate) fn reads_argument(
    rt: &impl Abort,
    ctx: &mut Context,
    op: Ptr<Operation>,
    block: Ptr<BasicBlock>,
) {
    assert!(rt; block.is_live(ctx));
    assert!(rt; block.num_argument(ctx) == 1);
    let value = block.get_argument(ctx, 0);
    assert!(rt; op.is_live(ctx));
    assert!(rt; value.is_live(ctx));
    Operation::push_operand(ctx, op, value).expect(rt, "memory");
}

pub(crate) fn leads_to(
    rt: &impl Abort,
    ctx: &mut Context,
    op: Ptr<Operation>,
    block: Ptr<BasicBlock>,
) {
    assert!(rt; op.is_live(ctx));
    assert!(rt; block.is_live(ctx));
    Operation::push_successor(ctx, op, block).expect(rt, "memory");
}

// The root, the second block and the question there.
fn tree(
    rt: &impl Abort,
    alloc: Global,
    ctx: &mut Context,
) -> (Ptr<Operation>, Ptr<BasicBlock>, Ptr<Operation>) {
    let root = make_operation(rt, alloc, ctx, TinyKind::Scope, 0, 1);
    let first = block(rt, ctx, root, 0);
    let second = block(rt, ctx, root, 1);
    let constant = make_operation(rt, alloc, ctx, TinyKind::Const, 1, 0);
    let branch = make_operation(rt, alloc, ctx, TinyKind::Br, 0, 0);
    let question = make_operation(rt, alloc, ctx, TinyKind::Ask, 1, 0);
    put(rt, ctx, constant, first);
    put(rt, ctx, branch, first);
    put(rt, ctx, question, second);
    reads_result(rt, ctx, branch, constant);
    leads_to(rt, ctx, branch, second);
    reads_argument(rt, ctx, question, second);
    (root, second, question)
}

// What propagation answers for the operation.
pub(crate) fn propagate_operation<D: Dialect>(
    rt: &impl Abort,
    alloc: Global,
    ctx: &mut Context,
    root: Ptr<Operation>,
) -> (IRStatus, u128) {
    assert!(rt; root.is_live(ctx));
    assert!(rt; is_well_linked::<D>(root, ctx), "not well linked");
    sccp_counted::<D>(alloc, root, ctx).expect(rt, "memory")
}

fn propagates_in(rt: &impl Abort, alloc: Global, ctx: &mut Context) {
    let (root, second, question) = tree(rt, alloc, ctx);
    let (status, pops) = propagate_operation::<Tiny>(rt, alloc, ctx, root);
    assert!(rt; status == IRStatus::Changed);
    // two blocks, two constants, an answer
    assert!(rt; 5 <= pops && pops <= 6);
    assert!(rt; second.is_live(ctx));
    assert!(rt; question.is_live(ctx));
    let constant = second.get_head(ctx).expect(rt, "an operation");
    assert!(rt; constant.head(ctx).kind == TinyKind::Const.number());
    assert!(rt; constant.num_result(ctx) == 1 && question.num_operand(ctx) == 1);
    assert!(rt; question.get_operand(ctx, 0) == constant.get_result(ctx, 0));
}

#[test]
fn the_tiny_dialect(rt: HostRuntime) {
    let alloc = rt.alloc();
    let mut ctx = Context::new(alloc);
    propagates_in(&rt, alloc, &mut ctx)
}
