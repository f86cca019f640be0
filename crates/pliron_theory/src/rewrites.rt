//! Whole rewrites that keep every run: what optimisations are made of.
//!
//! Each is wholly done or not at all, whatever it answers, and each asks only what makes it right; so a pass
//! that makes its changes by these calls keeps runs, also on allocation failure.
ghost use Rattle.std.specs.Prelude.{◌≡◌, ◌<◌, ℕ, Some, IsSome, IfOk, OnErr, IsTrue, length, slice_get, IsOkUnless};
ghost use Rattle.pliron_core.specs.declared.rewriter.OpInsertionPoint.TheVariants.{BeforeOperation, AtBlockStart};
ghost use Rattle.pliron_core.specs.Tree.{IsLive, IsBlock, IsDefined, results_of, arguments_of, parent_of};
ghost use Rattle.pliron_core.specs.Changes.{IsSameTree};
ghost use Rattle.pliron_core.specs.Erased.{IsSelfContained};
ghost use Rattle.pliron_theory.specs.Keeps.{KeepsRuns};
ghost use Rattle.pliron_laws.specs.Outcomes.{materialised_at};
ghost use Rattle.pliron_theory.specs.Rewrites.{ErasesUnused, IsConstant, ReplacesResult, ReplacesArgument, BecomesIfAccepted, IsPoint, PutKeepsRuns};

use pliron_core::{AttrObj, BasicBlock, Context, IRStatus, Operation, Ptr, Rewriter, Value};
use pliron_laws::materialise::put_constant;
use pliron_laws::{Dialect, OptError, Room};
use std::alloc::Global;

/// Erases the operation with its contents, where the dialect answers that it has no side effects.
///
/// Asks that it is live, and that no value or block of it is used outside it.
/// Errors: allocation failure, which changes nothing. Cost: what is erased, with its operands and
/// successors.
pub fn erase_unused<D: Dialect, R: Rewriter + Room>(
    alloc: Global,
    op: Ptr<Operation>,
    ctx: &mut Context,
    rewriter: &mut R,
) -> Result<IRStatus, OptError>
    requires live { IsLive ctx.old.tree op }
    requires contained { IsSelfContained ctx.old.tree op }
    ensures ok { IfOk result (λ status. ErasesUnused D.side_effects op ctx.old.tree ctx.new.tree status) }
    ensures refused { OnErr result (ctx.new ≡ ctx.old) }
    ensures memory { IsOkUnless result OptError.Memory }
    ensures runs { KeepsRuns D.meaning ctx.old.tree ctx.new.tree }
    ensures point { R.point rewriter.new ≡ R.point rewriter.old }
{
    let Some(false) = D::has_side_effects(op, ctx) else {
        return Ok(IRStatus::Unchanged);
    };
    rewriter.room(alloc, 1)?;
    ctx.well_formed();
    rewriter.erase_operation(ctx, op);
    ctx.well_formed();
    Ok(IRStatus::Changed)
}

/// Puts a new operation that makes this constant directly before `op`, and gives it all uses of the
/// result of `op` with this index, also where it has none. Answers `Unchanged` where the dialect has no
/// operation for the attribute. The rewriter inserts before `op` from now on.
///
/// Asks that `op` is live in a block, and that every run of a root that is fit to run reads the result as this
/// constant wherever it reads it.
/// Errors: allocation failure, which leaves the tree as it was but for erased handles. Cost: that of
/// `materialize`, and one step for each use of the result.
pub fn replace_result_by_constant<D: Dialect, R: Rewriter + Room>(
    alloc: Global,
    op: Ptr<Operation>,
    index: usize,
    attr: &AttrObj,
    ctx: &mut Context,
    rewriter: &mut R,
) -> Result<IRStatus, OptError>
    requires live { IsLive ctx.old.tree op }
    requires placed { IsSome (parent_of ctx.old.tree op) }
    requires index { index < length (results_of ctx.old.tree op) }
    requires constant { (v : ℕ) → slice_get (results_of ctx.old.tree op) index ≡ Some v → IsConstant D.meaning
        ctx.old.tree v attr.now }
    ensures ok { IfOk result (λ status. ReplacesResult D.accepts D.constant_head attr.now op index ctx.old.tree
        ctx.new.tree status) }
    ensures refused { OnErr result (IsSameTree ctx.old.tree ctx.new.tree) }
    ensures memory { IsOkUnless result OptError.Memory }
    ensures runs { KeepsRuns D.meaning ctx.old.tree ctx.new.tree }
    ensures point { R.point rewriter.new ≡ BeforeOperation op }
{
    rewriter.set_insertion_point_before_operation(op);
    let old = op.get_result(ctx, index);
    replace_by_constant::<D, R>(alloc, ctx, old, attr, rewriter)
}

/// Puts a new operation that makes this constant first in the block, and gives it all uses of the
/// argument of the block with this index, also where it has none. Answers `Unchanged` where the dialect
/// has no operation for the attribute. The rewriter inserts first in the block from now on.
///
/// Asks that the block is live, and that every run of a root that is fit to run reads the argument as this
/// constant wherever it reads it.
/// Errors: allocation failure, which leaves the tree as it was but for erased handles. Cost: that of
/// `materialize`, and one step for each use of the argument.
pub fn replace_argument_by_constant<D: Dialect, R: Rewriter + Room>(
    alloc: Global,
    block: Ptr<BasicBlock>,
    index: usize,
    attr: &AttrObj,
    ctx: &mut Context,
    rewriter: &mut R,
) -> Result<IRStatus, OptError>
    requires block { IsBlock ctx.old.tree block }
    requires index { index < length (arguments_of ctx.old.tree block) }
    requires constant { (v : ℕ) → slice_get (arguments_of ctx.old.tree block) index ≡ Some v → IsConstant D.meaning
        ctx.old.tree v attr.now }
    ensures ok { IfOk result (λ status. ReplacesArgument D.accepts D.constant_head attr.now block index ctx.old.tree
        ctx.new.tree status) }
    ensures refused { OnErr result (IsSameTree ctx.old.tree ctx.new.tree) }
    ensures memory { IsOkUnless result OptError.Memory }
    ensures runs { KeepsRuns D.meaning ctx.old.tree ctx.new.tree }
    ensures point { R.point rewriter.new ≡ AtBlockStart block }
{
    rewriter.set_insertion_point_to_block_start(block);
    let old = block.get_argument(ctx, index);
    replace_by_constant::<D, R>(alloc, ctx, old, attr, rewriter)
}

// A constant for the attribute is inserted at the rewriter's insertion point, and gets the uses of the value,
// where the dialect accepts the attribute.
fn replace_by_constant<D: Dialect, R: Rewriter + Room>(
    alloc: Global,
    ctx: &mut Context,
    old: Value,
    attr: &AttrObj,
    rewriter: &mut R,
) -> Result<IRStatus, OptError>
    requires old { IsDefined ctx.old.tree old }
    requires point { IsPoint ctx.old.tree (R.point rewriter.old) }
    requires keeps { IsTrue (D.accepts attr.now) → PutKeepsRuns D.meaning ctx.old.tree (R.point rewriter.old) old
        (D.constant_head attr.now) }
    ensures ok { IfOk result (λ status. BecomesIfAccepted D.accepts attr.now (materialised_at ctx.old.tree
        (R.point rewriter.old) old (D.constant_head attr.now)) ctx.old.tree ctx.new.tree status) }
    ensures refused { OnErr result (IsSameTree ctx.old.tree ctx.new.tree) }
    ensures memory { IsOkUnless result OptError.Memory }
    ensures runs { KeepsRuns D.meaning ctx.old.tree ctx.new.tree }
    ensures point { R.point rewriter.new ≡ R.point rewriter.old }
{
    ctx.well_formed();
    // an insertion, a replacement, and erasing on the way back
    rewriter.room(alloc, 3)?;
    let Some(constant) = D::materialize(alloc, attr, ctx)? else {
        return Ok(IRStatus::Unchanged);
    };
    let put = put_constant(ctx, constant, old, rewriter);
    ctx.well_formed();
    put?;
    Ok(IRStatus::Changed)
}
