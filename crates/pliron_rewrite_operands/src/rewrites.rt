//! The whole rewrite that gives the uses of a result to the operand that it is.
ghost use Rattle.std.specs.Prelude.{◌≡◌, ◌<◌, ℕ, Some, OnOk, OnErr, IsOkUnless, length, get_or, slice_get};
ghost use Rattle.pliron_core.specs.Tree.{operands_of, results_of};
ghost use Rattle.pliron_core.specs.Writes.{after_replacing};
ghost use Rattle.pliron_laws.specs.declared.operand_folds.OpFoldResult.TheVariants.{Operand as OperandAnswer};
ghost use Rattle.pliron_theory.specs.Keeps.{KeepsAllRuns};
ghost use Rattle.pliron_rewrite_operands.specs.Answered.{HasAnswer};

use crate::folding::HasOperandFolding;
use pliron_core::{Context, Operation, Ptr, Rewriter};
use pliron_laws::{Dialect, OptError, Room};
use std::alloc::Global;

/// Gives all uses of the result of `op` with this index to its operand at this place, also where it has none.
///
/// Asks that the dialect answers so, by what is known of the operands. The rewriter inserts where it did.
/// Errors: allocation failure, which changes nothing. Cost: one step for each use of the result.
pub fn replace_result_by_operand<D: Dialect, R: Rewriter + Room>(
    alloc: Global,
    op: Ptr<Operation>,
    index: usize,
    operand: usize,
    ctx: &mut Context,
    rewriter: &mut R,
) -> Result<(), OptError>
    requires answer { HasAnswer ⟦<D as HasOperandFolding>⟧.operand_folding ctx.old.tree op index
        (OperandAnswer operand) }
    requires operand { operand < length (operands_of ctx.old.tree op) }
    ensures ok { OnOk result ((v : ℕ) → slice_get (results_of ctx.old.tree op) index ≡ Some v → ctx.new.tree
        ≡ after_replacing ctx.old.tree v (get_or (operands_of ctx.old.tree op) operand 0)) }
    ensures refused { OnErr result (ctx.new ≡ ctx.old) }
    ensures memory { IsOkUnless result OptError.Memory }
    ensures runs { KeepsAllRuns D.meaning ctx.old.tree ctx.new.tree }
    ensures point { R.point rewriter.new ≡ R.point rewriter.old }
{
    ctx.well_formed();
    rewriter.room(alloc, 1)?;
    let old = op.get_result(ctx, index);
    let new = op.get_operand(ctx, operand);
    rewriter.replace_value_uses_with(ctx, old, new)?;
    ctx.well_formed();
    Ok(())
}
