//! A block that is split behind an operation.
ghost use Rattle.std.specs.Prelude.{◌≡◌, [], Some, IsSome, IfOk, OnOk, OnErr, length, IsOkUnless};
ghost use Rattle.pliron_core.specs.Tree.{IsLive, IsBlock, parent_of, body_of, block_parent_of};
ghost use Rattle.pliron_core.specs.Reads.{next_of};
ghost use Rattle.pliron_core.specs.WalkSteps.{rest_from};
ghost use Rattle.pliron_rewrite_calls.specs.Splitting.{AreMoving, IsSplitBehind};

use pliron_core::{BasicBlock, Context, Operation, Ptr, Rewriter};
use pliron_laws::{OptError, Room};
use std::alloc::Global;

// How many operations are behind this one in its block.
pub(crate) fn count_behind(op: Ptr<Operation>, block: Ptr<BasicBlock>, ctx: &Context) -> usize
    requires { parent_of ctx.now.tree op ≡ Some block }
    ensures { result ≡ length (rest_from (next_of ctx.now.tree op) (body_of ctx.now.tree block)) }
{
    ctx.well_formed();
    let first = op.get_next(ctx);
    let mut count = 0;
    let mut at = first;
    while let Some(behind) = at {
        count += 1;
        at = behind.get_next(ctx);
    }
    count
}

// The operations behind this one in its block become those of the other block, which has none.
pub(crate) fn move_behind<R: Rewriter + Room>(
    ctx: &mut Context,
    op: Ptr<Operation>,
    block: Ptr<BasicBlock>,
    new: Ptr<BasicBlock>,
    rewriter: &mut R,
)
    requires holds { parent_of ctx.old.tree op ≡ Some block }
    requires new { IsBlock ctx.old.tree new }
    requires apart { new ≡ block → ⊥ }
    requires empty { body_of ctx.old.tree new ≡ [] }
    requires beside { block_parent_of ctx.old.tree block ≡ block_parent_of ctx.old.tree new }
    ensures moved { AreMoving ctx.old.tree ctx.new.tree op block new [] }
    ensures point { R.point rewriter.new ≡ R.point rewriter.old }
{
    ctx.well_formed();
    while let Some(behind) = op.get_next(ctx) {
        ctx.well_formed();
        rewriter.move_operation_to_end(ctx, behind, new);
    }
    ctx.well_formed();
}

/// The operations behind `op` in its block go to a new block, in their order. It is the last one of the region, has so
/// many new arguments, and is the answer. Nothing leads to it yet, and the block of `op` ends with `op`.
///
/// Asks that the operation is live in a block. It takes room for the moves first. Errors: allocation failure, which
/// changes nothing. Cost: the operations behind, one step for each argument, amortised, and what the rewriter's listener
/// costs.
pub fn split_block_behind<R: Rewriter + Room>(
    alloc: Global,
    op: Ptr<Operation>,
    arguments: usize,
    ctx: &mut Context,
    rewriter: &mut R,
) -> Result<Ptr<BasicBlock>, OptError>
    requires live { IsLive ctx.old.tree op }
    requires placed { IsSome (parent_of ctx.old.tree op) }
    ensures key { IfOk result (λ block. block ≡ length ctx.old.tree.bodies) }
    ensures split { OnOk result (IsSplitBehind ctx.old.tree ctx.new.tree op arguments) }
    ensures refused { OnErr result (ctx.new ≡ ctx.old) }
    ensures memory { IsOkUnless result OptError.Memory }
    ensures point { R.point rewriter.new ≡ R.point rewriter.old }
{
    ctx.well_formed();
    let Some(block) = op.get_parent_block(ctx) else {
        unreachable!()
    };
    let Some(region) = block.get_parent_region(ctx) else {
        unreachable!()
    };
    let moves = count_behind(op, block, ctx);
    rewriter.room(alloc, moves)?;
    let new = BasicBlock::create(ctx, region, arguments)?;
    ctx.well_formed();
    move_behind(ctx, op, block, new, rewriter);
    Ok(new)
}
