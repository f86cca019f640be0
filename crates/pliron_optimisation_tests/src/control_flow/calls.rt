//! The calls on control flow, by the names that the cases have for them.
ghost use Rattle.pliron_dialect_bench.specs.BenchMoves.{bench};
ghost use Rattle.pliron_core.specs.Tree.{IsLive};
ghost use Rattle.pliron_laws.specs.Linked.{IsWellLinked};

use pliron_core::{Context, IRStatus, Operation, Ptr};
use pliron_dialect_bench::Bench;
use pliron_laws::OptError;
use pliron_opt_cfg::{
    fold_branches, merge_inside_block, merge_inside_op, merge_inside_region,
    remove_blocks_inside_block, remove_blocks_inside_op, remove_blocks_inside_region,
};
use pliron_test_cases::listener::CountingListener;
use std::alloc::Global;
use std::process::Abort;

/// The whole, or a part of it: on the root, or on its first region or block.
#[derive(Clone, Copy)]
pub enum Call {
    Fold,
    Merge,
    MergeBlock,
    MergeRegion,
    Remove,
    RemoveBlock,
    RemoveRegion,
    Simplify,
}

static NAMES: [(&str, Call); 8] = [
    ("fold", Call::Fold),
    ("merge", Call::Merge),
    ("merge-block", Call::MergeBlock),
    ("merge-region", Call::MergeRegion),
    ("remove", Call::Remove),
    ("remove-block", Call::RemoveBlock),
    ("remove-region", Call::RemoveRegion),
    ("simplify", Call::Simplify),
];

impl Call {
    // The call of this name.
    pub fn of(word: &str) -> Option<Call> {
        for (name, call) in &NAMES {
            if *name == word {
                return Some(*call);
            }
        }
        None
    }
}

// What removal or merging answers for the first region of the root.
fn call_on_region(
    alloc: Global,
    root: Ptr<Operation>,
    ctx: &mut Context,
    is_removal: bool,
    rewriter: &mut CountingListener,
) -> Result<IRStatus, OptError>
    requires live { IsLive ctx.old.tree root }
    requires linked { IsWellLinked bench ctx.old.tree root }
{
    ctx.well_formed();
    if root.num_region(ctx) == 0 {
        return Ok(IRStatus::Unchanged);
    }
    let region = root.get_region(ctx, 0);
    if region.get_parent_op(ctx) != root {
        return Ok(IRStatus::Unchanged);
    }
    if is_removal {
        remove_blocks_inside_region::<Bench, CountingListener>(alloc, region, ctx, rewriter)
    } else {
        merge_inside_region::<Bench, CountingListener>(alloc, region, ctx, rewriter)
    }
}

// What removal or merging answers for the first block of the root.
fn call_on_block(
    alloc: Global,
    root: Ptr<Operation>,
    ctx: &mut Context,
    is_removal: bool,
    rewriter: &mut CountingListener,
) -> Result<IRStatus, OptError>
    requires live { IsLive ctx.old.tree root }
    requires linked { IsWellLinked bench ctx.old.tree root }
{
    ctx.well_formed();
    if root.num_region(ctx) == 0 {
        return Ok(IRStatus::Unchanged);
    }
    let region = root.get_region(ctx, 0);
    let Some(block) = region.get_head(ctx) else {
        return Ok(IRStatus::Unchanged);
    };
    if block.get_parent_region(ctx) != Some(region) || region.get_parent_op(ctx) != root {
        return Ok(IRStatus::Unchanged);
    }
    if is_removal {
        remove_blocks_inside_block::<Bench, CountingListener>(alloc, block, ctx, rewriter)
    } else {
        merge_inside_block::<Bench, CountingListener>(alloc, block, ctx, rewriter)
    }
}

// The three parts of `simplify_cfg`, one after the other. Folding refuses nothing.
fn simplify_through(
    rt: &impl Abort,
    alloc: Global,
    root: Ptr<Operation>,
    ctx: &mut Context,
    rewriter: &mut CountingListener,
) -> Result<IRStatus, OptError>
    requires live { IsLive ctx.old.tree root }
    requires linked { IsWellLinked bench ctx.old.tree root }
{
    ctx.well_formed();
    let folding = fold_branches::<Bench, CountingListener>(alloc, root, ctx, rewriter);
    assert!(rt; folding.is_ok());
    let mut status = folding?;
    ctx.well_formed();
    status |= remove_blocks_inside_op::<Bench, CountingListener>(alloc, root, ctx, rewriter)?;
    status |= merge_inside_op::<Bench, CountingListener>(alloc, root, ctx, rewriter)?;
    Ok(status)
}

// What the call answers for the root.
pub fn call_through(
    rt: &impl Abort,
    alloc: Global,
    root: Ptr<Operation>,
    ctx: &mut Context,
    call: Call,
    rewriter: &mut CountingListener,
) -> Result<IRStatus, OptError>
    requires live { IsLive ctx.old.tree root }
    requires linked { IsWellLinked bench ctx.old.tree root }
{
    match call {
        Call::Fold => fold_branches::<Bench, CountingListener>(alloc, root, ctx, rewriter),
        Call::Merge => merge_inside_op::<Bench, CountingListener>(alloc, root, ctx, rewriter),
        Call::MergeBlock => call_on_block(alloc, root, ctx, false, rewriter),
        Call::MergeRegion => call_on_region(alloc, root, ctx, false, rewriter),
        Call::Remove => remove_blocks_inside_op::<Bench, CountingListener>(
            alloc, root, ctx, rewriter,
        ),
        Call::RemoveBlock => call_on_block(alloc, root, ctx, true, rewriter),
        Call::RemoveRegion => call_on_region(alloc, root, ctx, true, rewriter),
        Call::Simplify => simplify_through(rt, alloc, root, ctx, rewriter),
    }
}
