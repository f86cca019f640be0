//! Arguments that are one value.
ghost use Rattle.std.specs.Prelude.{◌≡◌, ◌<◌, IfOk, OnErr, IsOkUnless, length};
ghost use Rattle.pliron_core.specs.Tree.{IsBlock, arguments_of};
ghost use Rattle.pliron_opt_canonicalize.specs.Steps.{FoldsArgument};

use crate::moved_uses::MovedUses;
use pliron_core::{BasicBlock, Context, IRStatus, Ptr, Rewriter};
use pliron_laws::{Dialect, OptError, Room};
use pliron_rewrite_arguments::finding::find_one_value;
use pliron_rewrite_arguments::rewrites::replace_argument_by_value;

/// The uses of the argument of the block with this index become uses of its one value, if it is used and is one.
///
/// Asks that the block is live and has the argument. Errors: allocation failure, which changes nothing. Cost: one
/// `successor_operand` for each edge to the block, up to one that decides, and a step for each use of the argument.
pub fn fold_argument<D: Dialect, R: Rewriter + Room>(
    moved: &mut MovedUses,
    block: Ptr<BasicBlock>,
    index: usize,
    ctx: &mut Context,
    rewriter: &mut R,
) -> Result<IRStatus, OptError>
    requires block { IsBlock ctx.old.tree block }
    requires index { index < length (arguments_of ctx.old.tree block) }
    ensures ok { IfOk result (λ status. FoldsArgument D.meaning ctx.old.tree ctx.new.tree block index status) }
    ensures refused { OnErr result (ctx.new.tree ≡ ctx.old.tree) }
    ensures memory { IsOkUnless result OptError.Memory }
{
    ctx.well_formed();
    if block.get_argument(ctx, index).num_use(ctx) == 0 {
        return Ok(IRStatus::Unchanged);
    }
    let Some(value) = find_one_value::<D>(moved.alloc, block, index, ctx)? else {
        return Ok(IRStatus::Unchanged);
    };
    moved.add_uses_of(block.get_argument(ctx, index), ctx)?;
    replace_argument_by_value::<D, R>(moved.alloc, block, index, value, ctx, rewriter)?;
    Ok(IRStatus::Changed)
}
