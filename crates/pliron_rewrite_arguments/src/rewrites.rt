//! The whole rewrite that gives the uses of an argument to its one value.
ghost use Rattle.std.specs.Prelude.{◌≡◌, OnOk, OnErr, IsOkUnless};
ghost use Rattle.pliron_theory.specs.Keeps.{KeepsAllRuns};
ghost use Rattle.pliron_rewrite_arguments.specs.OneValue.{IsOneValue, ReplacesByValue};

use pliron_core::{BasicBlock, Context, Ptr, Rewriter, Value};
use pliron_laws::{Dialect, OptError, Room};
use std::alloc::Global;

/// Gives all uses of the argument of the block with this index to a value, which each edge to the block forwards to
/// it, but for edges that forward the argument itself. The argument stays; the rewriter inserts where it did.
///
/// Asks that the argument is that one value. Errors: allocation failure, which changes nothing. Cost: one step for
/// each use of the argument.
pub fn replace_argument_by_value<D: Dialect, R: Rewriter + Room>(
    alloc: Global,
    block: Ptr<BasicBlock>,
    index: usize,
    value: Value,
    ctx: &mut Context,
    rewriter: &mut R,
) -> Result<(), OptError>
    requires one { IsOneValue D.meaning ctx.old.tree block index value }
    ensures ok { OnOk result (ReplacesByValue ctx.old.tree ctx.new.tree block index value) }
    ensures refused { OnErr result (ctx.new ≡ ctx.old) }
    ensures memory { IsOkUnless result OptError.Memory }
    ensures runs { KeepsAllRuns D.meaning ctx.old.tree ctx.new.tree }
    ensures block_uses { ctx.new.block_uses ≡ ctx.old.block_uses }
    ensures point { R.point rewriter.new ≡ R.point rewriter.old }
{
    ctx.well_formed();
    rewriter.room(alloc, 1)?;
    let argument = block.get_argument(ctx, index);
    rewriter.replace_value_uses_with(ctx, argument, value)?;
    Ok(())
}
