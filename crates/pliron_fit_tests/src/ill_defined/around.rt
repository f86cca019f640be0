//! What is around each operation and each block, in each region.
use super::texts::{TEXTS, name_and_text};
use super::trees::{all_of, holders_of, push_blocks};
use pliron_core::{BasicBlock, Context, Operation, Ptr, Region};
use pliron_dialect_bench::{Bench, BenchKind};
use pliron_graph_components::{
    find_ancestor_block_of_block_in_region, find_ancestor_block_of_op_in_region,
    find_ancestor_of_op_interface, find_ancestor_of_op_type, find_ancestor_op_of_op_in_block,
    find_ancestor_op_of_op_in_region, strictly_precedes_in_block,
};
use pliron_laws::Interface;
use pliron_test_cases::cases::read;
use std::alloc::Global;
use std::process::Abort;

// The searches in the region of the parent operation find something exactly where the operation is inside the
// parent operation, and the same thing.
fn check_operation(
    rt: &impl Abort,
    op: Ptr<Operation>,
    holder: Ptr<Operation>,
    region: Ptr<Region>,
    ctx: &Context,
) {
    assert!(rt; op.is_live(ctx));
    let above = find_ancestor_op_of_op_in_region(ctx, op, region);
    let block = find_ancestor_block_of_op_in_region(ctx, op, region);
    assert!(rt; above.is_some() == op.is_inside(holder, ctx));
    assert!(rt; block.is_some() == above.is_some());
    if let Some(block) = block {
        assert!(rt; find_ancestor_op_of_op_in_block(ctx, op, block) == above);
    }
}

// The block is found in its own region, and by the search for the nearest block around it.
fn check_block(
    rt: &impl Abort,
    block: Ptr<BasicBlock>,
    holder: Ptr<Operation>,
    region: Ptr<Region>,
    ctx: &Context,
) {
    assert!(rt; block.is_live(ctx));
    assert!(rt; holder.is_live(ctx));
    let around = find_ancestor_block_of_block_in_region(ctx, block, region);
    assert!(rt; around.is_some() == holder.holds_block(block, ctx));
}

// One of two different operations of a block comes before the other, and none before itself.
fn check_places(rt: &impl Abort, a: Ptr<Operation>, b: Ptr<Operation>, ctx: &Context) {
    assert!(rt; a.is_live(ctx));
    assert!(rt; b.is_live(ctx));
    let first = strictly_precedes_in_block(ctx, a, b);
    let second = strictly_precedes_in_block(ctx, b, a);
    let block = a.get_parent_block(ctx);
    let are_beside = a != b && block.is_some() && block == b.get_parent_block(ctx);
    assert!(rt; (first || second) == are_beside);
    assert!(rt; !(first && second));
}

// What has a function around it has an operation whose regions may lose arguments around it.
fn check_kinds(rt: &impl Abort, op: Ptr<Operation>, ctx: &Context) {
    assert!(rt; op.is_live(ctx));
    let function = find_ancestor_of_op_type::<Bench>(ctx, op, BenchKind::Func);
    let module = find_ancestor_of_op_type::<Bench>(ctx, op, BenchKind::Mod);
    let any = find_ancestor_of_op_interface::<Bench>(ctx, op, Interface::BlockArgRemoval);
    let parent = op.get_parent_op(ctx);
    assert!(rt; parent.is_some() || (function.is_none() && module.is_none() && any.is_none()));
    assert!(rt; any.is_some() || function.is_none());
}

fn check_holder(
    rt: &impl Abort,
    all: &[Ptr<Operation>],
    blocks: &[Ptr<BasicBlock>],
    holder: Ptr<Operation>,
    ctx: &Context,
) {
    assert!(rt; holder.is_live(ctx));
    assert!(rt; holder.num_region(ctx) == 1);
    let region = holder.get_region(ctx, 0);
    for op in all {
        check_operation(rt, *op, holder, region, ctx);
    }
    for block in blocks {
        check_block(rt, *block, holder, region, ctx);
    }
}

fn check_regions(
    rt: &impl Abort,
    alloc: Global,
    all: &[Ptr<Operation>],
    whole: Ptr<Operation>,
    ctx: &Context,
) {
    let holders = holders_of(rt, alloc, whole, ctx);
    let mut blocks = Vec::new(alloc);
    for holder in &holders {
        push_blocks(rt, *holder, ctx, &mut blocks);
    }
    for holder in &holders {
        check_holder(rt, all, &blocks, *holder, ctx);
    }
}

fn check_pairs(rt: &impl Abort, all: &[Ptr<Operation>], ctx: &Context) {
    for a in all {
        check_kinds(rt, *a, ctx);
        for b in all {
            check_places(rt, *a, *b, ctx);
        }
    }
}

fn check_case(rt: &impl Abort, alloc: Global, ctx: &mut Context, case: &str) {
    let (name, text) = name_and_text(rt, case);
    let whole = read(alloc, ctx, text).expect(rt, name);
    let all = all_of(rt, alloc, whole, ctx);
    check_regions(rt, alloc, &all, whole, ctx);
    check_pairs(rt, &all, ctx);
}

fn check(rt: &impl Abort, alloc: Global, case: &str) {
    let mut ctx = Context::new(alloc);
    check_case(rt, alloc, &mut ctx, case)
}

#[test]
fn what_is_around(rt: HostRuntime) {
    for case in TEXTS.lines() {
        check(&rt, rt.alloc(), case);
    }
}
