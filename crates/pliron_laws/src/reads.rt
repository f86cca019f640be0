//! What is read of an operation or a block as a whole list.
ghost use Rattle.std.specs.Prelude.{◌≡◌, ◌++◌, None, Some, IfOk, OnOk, IfSome, IfNone, slice_get};
ghost use Rattle.std.specs.List.{flat_map};
ghost use Rattle.pliron_core.specs.Tree.{IsLive, IsBlock, IsRegion, operands_of, results_of, arguments_of, body_of, layout_of, regions_of};

use pliron_core::{BasicBlock, Context, Operation, Ptr, Region, Value};
use std::alloc::{AllocError, Global};

/// The operands of the operation, in order. Asks that the operation is live (`is_live` tests it). Errors:
/// allocation failure. Cost: linear in them.
pub fn all_operands(
    alloc: Global,
    op: Ptr<Operation>,
    ctx: &Context,
) -> Result<Vec<Value>, AllocError>
    requires { IsLive ctx.now.tree op }
    ensures { IfOk result (λ values. values.items ≡ operands_of ctx.now.tree op) }
{
    let mut values = Vec::new(alloc);
    for j in 0..op.num_operand(ctx) {
        values.push(op.get_operand(ctx, j))?;
    }
    Ok(values)
}

/// The results of the operation, in order. Asks that the operation is live (`is_live` tests it). Errors:
/// allocation failure. Cost: linear in them.
pub fn all_results(
    alloc: Global,
    op: Ptr<Operation>,
    ctx: &Context,
) -> Result<Vec<Value>, AllocError>
    requires { IsLive ctx.now.tree op }
    ensures { IfOk result (λ values. values.items ≡ results_of ctx.now.tree op) }
{
    let mut values = Vec::new(alloc);
    for j in 0..op.num_result(ctx) {
        values.push(op.get_result(ctx, j))?;
    }
    Ok(values)
}

/// The arguments of the block, in order. Asks that the block is live (`is_live` tests it). Errors: allocation
/// failure. Cost: linear in them.
pub fn all_arguments(
    alloc: Global,
    block: Ptr<BasicBlock>,
    ctx: &Context,
) -> Result<Vec<Value>, AllocError>
    requires { IsBlock ctx.now.tree block }
    ensures { IfOk result (λ values. values.items ≡ arguments_of ctx.now.tree block) }
{
    let mut values = Vec::new(alloc);
    for j in 0..block.num_argument(ctx) {
        values.push(block.get_argument(ctx, j))?;
    }
    Ok(values)
}

/// The operations of the block, in order. Asks that the block is live (`is_live` tests it). Errors: allocation
/// failure. Cost: linear in them.
pub fn all_operations(
    alloc: Global,
    block: Ptr<BasicBlock>,
    ctx: &Context,
) -> Result<Vec<Ptr<Operation>>, AllocError>
    requires { IsBlock ctx.now.tree block }
    ensures { IfOk result (λ operations. operations.items ≡ body_of ctx.now.tree block) }
{
    ctx.well_formed();
    let mut operations = Vec::new(alloc);
    let mut at = block.get_head(ctx);
    while let Some(op) = at {
        operations.push(op)?;
        at = op.get_next(ctx);
    }
    Ok(operations)
}

/// Adds the blocks of the region, in order. Asks that the region is live (`is_live` tests it). Errors:
/// allocation failure. Cost: linear in them.
pub fn push_layout(
    region: Ptr<Region>,
    ctx: &Context,
    blocks: &mut Vec<Ptr<BasicBlock>>,
) -> Result<(), AllocError>
    requires { IsRegion ctx.now.tree region }
    ensures { OnOk result (blocks.new.items ≡ blocks.old.items ++ layout_of ctx.now.tree region) }
{
    ctx.well_formed();
    let mut at = region.get_head(ctx);
    while let Some(block) = at {
        blocks.push(block)?;
        at = block.get_next(ctx);
    }
    Ok(())
}

/// Adds the blocks of the operation's regions, in order. Asks that the operation is live (`is_live` tests it).
/// Errors: allocation failure. Cost: linear in them.
pub fn push_layouts(
    op: Ptr<Operation>,
    ctx: &Context,
    blocks: &mut Vec<Ptr<BasicBlock>>,
) -> Result<(), AllocError>
    requires { IsLive ctx.now.tree op }
    ensures { OnOk result (blocks.new.items ≡ blocks.old.items ++ flat_map (λ r. layout_of ctx.now.tree r)
        (regions_of ctx.now.tree op)) }
{
    for i in 0..op.num_region(ctx) {
        push_layout(op.get_region(ctx, i), ctx, blocks)?;
    }
    Ok(())
}
