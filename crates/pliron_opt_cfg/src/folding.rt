//! Branches are folded by what is known of their operands.
//!
//! It knows what every run reads of constants, and no dialect. It knows nothing of the regions that are visited,
//! of blocks that are erased or merged, or of passes.
ghost use Rattle.std.specs.Prelude.{◌≡◌, ◌⊎◌, ◌++◌, ℕ, Some, None, OnOk, OnErr, IfOk, IsOkUnless};
ghost use Rattle.pliron_core.specs.Tree.{IsLive, block_parent_of};
ghost use Rattle.pliron_laws.specs.InPlace.{ReportsChange};
ghost use Rattle.pliron_laws.specs.Linked.{IsWellLinked};
ghost use Rattle.pliron_theory.specs.Change.{IsWholeChange};
ghost use Rattle.pliron_opt_cfg.specs.Folded.{branch_at, branches_of, known_operands as constants_of, FoldsAll, FoldsSome};
ghost use Rattle.pliron_opt_cfg.specs.FoldSteps.{IsBranchInside, IsBranchFoldStep, ReportsAnyErased};

mod known;

use crate::folding::known::known_operands;
use pliron_core::{AttrObj, Context, IRStatus, Operation, Ptr, Rewriter};
use pliron_laws::{BranchOpFoldInterface, Dialect, OptError, Room};
use std::alloc::Global;

// Adds the operation, if it folds as a branch.
fn add_branch<D: Dialect>(
    op: Ptr<Operation>,
    ctx: &Context,
    branches: &mut Vec<Ptr<Operation>>,
) -> Result<(), OptError>
    requires { IsLive ctx.now.tree op }
    ensures ok { OnOk result (branches.new.items ≡ branches.old.items ++ branch_at D.can_fold_branch ctx.now.tree op) }
    ensures memory { IsOkUnless result OptError.Memory }
{
    if D::folds_branch(op, ctx) {
        branches.push(op)?;
    }
    Ok(())
}

// The operations inside the root that fold as branches, in pre-order.
fn branches_inside<D: Dialect>(
    alloc: Global,
    root: Ptr<Operation>,
    ctx: &Context,
) -> Result<Vec<Ptr<Operation>>, OptError>
    requires { IsLive ctx.now.tree root }
    ensures ok { IfOk result (λ branches. branches.items ≡ branches_of D.can_fold_branch ctx.now.tree root) }
    ensures memory { IsOkUnless result OptError.Memory }
{
    ctx.well_formed();
    let mut branches = Vec::new(alloc);
    let mut at = root.next_in_preorder(root, ctx);
    while let Some(op) = at {
        add_branch::<D>(op, ctx, &mut branches)?;
        at = op.next_in_preorder(root, ctx);
    }
    Ok(branches)
}

// Folds one branch in place by these constants.
fn fold_known<D: Dialect, R: Rewriter + Room>(
    alloc: Global,
    op: Ptr<Operation>,
    known: &[Option<AttrObj>],
    ctx: &mut Context,
    rewriter: &mut R,
) -> Result<IRStatus, OptError>
    requires known { known.now ≡ constants_of D.meaning D.can_fold D.constants ctx.old.tree op }
    requires branch { (root : ℕ) × IsWellLinked D.meaning ctx.old.tree root × IsBranchInside D.can_fold_branch
        ctx.old.tree root op }
    ensures ok { IfOk result (λ status. D.BranchOpFoldInterface.outcome ctx.old.tree ctx.new.tree op
        (constants_of D.meaning D.can_fold D.constants ctx.old.tree op) (Some status)) }
    ensures refused { OnErr result (D.BranchOpFoldInterface.outcome ctx.old.tree ctx.new.tree op
        (constants_of D.meaning D.can_fold D.constants ctx.old.tree op) None) }
    ensures memory { IsOkUnless result OptError.Memory }
    ensures reported { IfOk result (λ status. ReportsAnyErased status ctx.old.tree ctx.new.tree) }
    ensures step { (root : ℕ) → IsWellLinked D.meaning ctx.old.tree root → IsBranchInside D.can_fold_branch ctx.old.tree
        root op → IsBranchFoldStep D.meaning D.can_fold_branch ctx.old.tree ctx.new.tree root op }
{
    ctx.well_formed();
    rewriter.set_insertion_point_before_operation(op);
    let done = <D as BranchOpFoldInterface>::fold_in_place(alloc, op, ctx, known, rewriter);
    ctx.well_formed();
    done
}

// Folds one branch in place by what is known of its operands.
fn fold_one<D: Dialect, R: Rewriter + Room>(
    alloc: Global,
    op: Ptr<Operation>,
    ctx: &mut Context,
    rewriter: &mut R,
) -> Result<IRStatus, OptError>
    requires branch { (root : ℕ) × IsWellLinked D.meaning ctx.old.tree root × IsBranchInside D.can_fold_branch
        ctx.old.tree root op }
    ensures ok { IfOk result (λ status. D.BranchOpFoldInterface.outcome ctx.old.tree ctx.new.tree op
        (constants_of D.meaning D.can_fold D.constants ctx.old.tree op) (Some status)) }
    ensures refused { OnErr result (ctx.new.tree ≡ ctx.old.tree ⊎ D.BranchOpFoldInterface.outcome ctx.old.tree
        ctx.new.tree op (constants_of D.meaning D.can_fold D.constants ctx.old.tree op) None) }
    ensures memory { IsOkUnless result OptError.Memory }
    ensures reported { IfOk result (λ status. ReportsAnyErased status ctx.old.tree ctx.new.tree) }
    ensures step { (root : ℕ) → IsWellLinked D.meaning ctx.old.tree root → IsBranchInside D.can_fold_branch ctx.old.tree
        root op → IsBranchFoldStep D.meaning D.can_fold_branch ctx.old.tree ctx.new.tree root op }
{
    ctx.well_formed();
    let known = known_operands::<D>(alloc, op, ctx)?;
    fold_known::<D, R>(alloc, op, &known, ctx, rewriter)
}

/// Folds each branch inside the operation in place, by the dialect's own fold: first those that fold are
/// collected in pre-order, then each is folded by the constants that are known of its operands. A constant is
/// known of a value where what defines the value folds, and answers it with no operand known.
///
/// Asks that the operation is live and is well linked. `Changed` exactly if the tree changed: a branch was
/// erased then. Blocks stay.
///
/// Errors: allocation failure, after some of the folds, each of them whole.
///
/// Cost: one step for each operation, block and region inside; for each branch that folds what the dialect's
/// fold costs and, for each of its operands, what the dialect's answer for its definition costs.
pub fn fold_branches<D: Dialect, R: Rewriter + Room>(
    alloc: Global,
    root: Ptr<Operation>,
    ctx: &mut Context,
    rewriter: &mut R,
) -> Result<IRStatus, OptError>
    requires live { IsLive ctx.old.tree root }
    requires linked { IsWellLinked D.meaning ctx.old.tree root }
    ensures folds { IfOk result (λ status. FoldsAll D.meaning D.can_fold D.constants D.BranchOpFoldInterface.outcome
        (branches_of D.can_fold_branch ctx.old.tree root) ctx.old.tree ctx.new.tree status) }
    ensures accurate { IfOk result (λ status. ReportsChange (Some status) ctx.old.tree ctx.new.tree) }
    ensures reported { IfOk result (λ status. ReportsAnyErased status ctx.old.tree ctx.new.tree) }
    ensures blocks { OnOk result ((b : ℕ) → block_parent_of ctx.new.tree b ≡ block_parent_of ctx.old.tree b) }
    ensures refused { OnErr result (FoldsSome D.meaning D.can_fold D.constants D.BranchOpFoldInterface.outcome
        (branches_of D.can_fold_branch ctx.old.tree root) ctx.old.tree ctx.new.tree) }
    ensures memory { IsOkUnless result OptError.Memory }
    ensures change { IsWholeChange D.meaning ctx.old.tree ctx.new.tree root }
    ensures links { (r : ℕ) → IsLive ctx.old.tree r → IsWellLinked D.meaning ctx.old.tree r → IsLive ctx.new.tree r
        → IsWellLinked D.meaning ctx.new.tree r }
{
    ctx.well_formed();
    let branches = branches_inside::<D>(alloc, root, ctx)?;
    let mut status = IRStatus::Unchanged;
    for i in 0..branches.len() {
        status |= fold_one::<D, R>(alloc, branches[i], ctx, rewriter)?;
    }
    Ok(status)
}
