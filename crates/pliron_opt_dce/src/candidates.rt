//! The candidates inside an operation, and the blocks there to which many edges lead.
ghost use Rattle.std.specs.Prelude.{◌≡◌, Some, IfOk, OnOk};
ghost use Rattle.pliron_core.specs.Tree.{IsLive, IsBlock, IsRegion, block_parent_of, block_parent_operation_of};
ghost use Rattle.pliron_opt_dce.specs.Dead.{Item};
ghost use Rattle.pliron_opt_dce.specs.Readiness.{Among};
ghost use Rattle.pliron_opt_dce.specs.Worklist.{items_of, AddsArguments, IsCovered, AreAllInside};

use crate::predecessors::has_many;
use crate::worklist::DeadCandidate;
use pliron_core::{BasicBlock, Context, Operation, Ptr, Region};
use std::alloc::{AllocError, Global};

// The arguments of the block are appended to the list.
fn push_arguments(
    worklist: &mut Vec<DeadCandidate>,
    block: Ptr<BasicBlock>,
    ctx: &Context,
) -> Result<(), AllocError>
    requires { IsBlock ctx.now.tree block }
    ensures { OnOk result (AddsArguments ctx.now.tree (λ b. b ≡ block) worklist.old.items worklist.new.items) }
{
    for i in 0..block.num_argument(ctx) {
        worklist.push(DeadCandidate::Argument(block.get_argument(ctx, i)))?;
    }
    Ok(())
}

// The block is appended to the list, if many edges lead to it.
fn push_block(
    wide: &mut Vec<Ptr<BasicBlock>>,
    block: Ptr<BasicBlock>,
    ctx: &Context,
) -> Result<(), AllocError>
    requires { IsBlock ctx.now.tree block }
{
    if has_many(block, ctx) {
        wide.push(block)?;
    }
    Ok(())
}

// The arguments of all blocks of the region are appended.
fn push_region(
    worklist: &mut Vec<DeadCandidate>,
    wide: &mut Vec<Ptr<BasicBlock>>,
    region: Ptr<Region>,
    ctx: &Context,
) -> Result<(), AllocError>
    requires { IsRegion ctx.now.tree region }
    ensures { OnOk result (AddsArguments ctx.now.tree (λ b. block_parent_of ctx.now.tree b ≡ Some region)
        worklist.old.items worklist.new.items) }
{
    ctx.well_formed();
    let mut at = region.get_head(ctx);
    while let Some(block) = at {
        push_block(wide, block, ctx)?;
        push_arguments(worklist, block, ctx)?;
        at = block.get_next(ctx);
    }
    Ok(())
}

// The arguments of all blocks directly in the operation are appended.
#[inline(always)]
fn push_contents_of(
    worklist: &mut Vec<DeadCandidate>,
    wide: &mut Vec<Ptr<BasicBlock>>,
    op: Ptr<Operation>,
    ctx: &Context,
) -> Result<(), AllocError>
    requires { IsLive ctx.now.tree op }
    ensures { OnOk result (AddsArguments ctx.now.tree (λ b. block_parent_operation_of ctx.now.tree b ≡ Some op)
        worklist.old.items worklist.new.items) }
{
    ctx.well_formed();
    for i in 0..op.num_region(ctx) {
        push_region(worklist, wide, op.get_region(ctx, i), ctx)?;
    }
    Ok(())
}

// These arguments are appended, and then the operation itself, unless it is the root.
#[inline(always)]
fn push_operation(
    worklist: &mut Vec<DeadCandidate>,
    wide: &mut Vec<Ptr<BasicBlock>>,
    op: Ptr<Operation>,
    root: Ptr<Operation>,
    ctx: &Context,
) -> Result<(), AllocError>
    requires { IsLive ctx.now.tree op }
    ensures kept { OnOk result ((x : Item) → Among x (items_of worklist.old.items) → Among x
        (items_of worklist.new.items)) }
    ensures covered { OnOk result (IsCovered ctx.now.tree root (items_of worklist.new.items) op) }
{
    push_contents_of(worklist, wide, op, ctx)?;
    if op == root {
        return Ok(());
    }
    worklist.push(DeadCandidate::Operation(op))?;
    Ok(())
}

// All operations inside the root and all arguments of blocks there, in the order of a text. The blocks to which
// many edges lead are appended to the list.
pub(crate) fn all_candidates(
    alloc: Global,
    wide: &mut Vec<Ptr<BasicBlock>>,
    root: Ptr<Operation>,
    ctx: &Context,
) -> Result<Vec<DeadCandidate>, AllocError>
    requires { IsLive ctx.now.tree root }
    ensures { IfOk result (λ worklist. AreAllInside ctx.now.tree root (items_of worklist.items)) }
{
    ctx.well_formed();
    let mut worklist = Vec::new(alloc);
    let mut at = Some(root);
    while let Some(op) = at {
        push_operation(&mut worklist, wide, op, root, ctx)?;
        at = op.next_in_preorder(root, ctx);
    }
    Ok(worklist)
}
