//! Constant propagation: a fixpoint of lattice values is found, and the tree is rewritten by it.
ghost use Rattle.std.specs.Prelude.{ℕ};
ghost use Rattle.pliron_core.specs.Tree.{IsLive};
ghost use Rattle.pliron_laws.specs.Linked.{IsWellLinked};
ghost use Rattle.pliron_opt_sccp.specs.Propagated.{Propagates, pops_of, status_of_rewrite};

use crate::rewrite::rewrite;
use crate::search::find;
use pliron_core::{Context, IRRewriter, IRStatus, Operation, Ptr, Rewriter};
use pliron_laws::{Dialect, OptError, Room};
use pliron_theory::HasFolding;
use std::alloc::Global;

// Propagates constants through a rewriter, and counts what the search popped off its worklists.
fn propagate<D: Dialect, R: Rewriter + Room>(
    alloc: Global,
    op: Ptr<Operation>,
    ctx: &mut Context,
    rewriter: &mut R,
) -> Result<(IRStatus, u128), OptError>
    requires live { IsLive ctx.old.tree op }
    requires linked { IsWellLinked D.meaning ctx.old.tree op }
    ensures propagates { Propagates ⟦<D as HasFolding>⟧.folding D.accepts D.constant_head
        D.ConstFoldInterface.outcome ctx.old.tree op ctx.new.tree (status_of_rewrite result) (pops_of result) }
{
    ctx.well_formed();
    let (found, pops) = find::<D>(alloc, op, ctx)?;
    let status = rewrite::<D, R>(alloc, &found, ctx, rewriter)?;
    Ok((status, pops))
}

/// Propagates constants inside the operation, as `sccp` does, and answers too how often its search popped
/// something off a worklist: with r executable blocks and, defined in these, c constants and n values that are
/// not constant, at least r + c + n and at most r + c + 2 n times.
///
/// Asks that the operation is live and is well linked. Errors: as `sccp`. Cost: as `sccp`.
pub fn sccp_counted<D: Dialect>(
    alloc: Global,
    op: Ptr<Operation>,
    ctx: &mut Context,
) -> Result<(IRStatus, u128), OptError>
    requires live { IsLive ctx.old.tree op }
    requires linked { IsWellLinked D.meaning ctx.old.tree op }
    ensures propagates { Propagates ⟦<D as HasFolding>⟧.folding D.accepts D.constant_head
        D.ConstFoldInterface.outcome ctx.old.tree op ctx.new.tree (status_of_rewrite result) (pops_of result) }
{
    let mut rewriter = IRRewriter::new();
    propagate::<D, IRRewriter>(alloc, op, ctx, &mut rewriter)
}

/// Propagates constants inside the operation, as `sccp` does, and makes each change through this rewriter,
/// which reports it to its listener. The rewriter is asked for room for a whole rewrite before the first change of it.
///
/// Asks that the operation is live and is well linked. Errors: as `sccp`, and where the rewriter has no room.
/// Cost: as `sccp`, and what the rewriter does at each change.
pub fn sccp_through<D: Dialect, R: Rewriter + Room>(
    alloc: Global,
    op: Ptr<Operation>,
    ctx: &mut Context,
    rewriter: &mut R,
) -> Result<IRStatus, OptError>
    requires live { IsLive ctx.old.tree op }
    requires linked { IsWellLinked D.meaning ctx.old.tree op }
    ensures propagates { (pops : ℕ) × Propagates ⟦<D as HasFolding>⟧.folding D.accepts D.constant_head
        D.ConstFoldInterface.outcome ctx.old.tree op ctx.new.tree result pops }
{
    let (status, _) = propagate::<D, R>(alloc, op, ctx, rewriter)?;
    Ok(status)
}

/// Propagates constants inside the operation. Lattice values are searched on the unchanged tree, from no
/// executable block and nothing known of any value: the entries of the operation's regions are executable, with
/// any arguments; in an executable block, each operation that folds answers its results by the constants that
/// are known of its operands, each other one has results that are not constant, its regions are entered, and
/// its branch makes the blocks executable that it may go to by what is known, with the values that it forwards.
/// Then, in pre-order, each operation that folds in an executable block is folded in place by these lattice
/// values, and after these a constant is put for each constant argument of such a block. Nothing is erased, and
/// results and arguments without uses get their constants too.
///
/// Wegman and Zadeck, "Constant propagation with conditional branches", 1991, section 3, over blocks with
/// arguments; a user is visited again only where its block was visited before.
///
/// Asks that the operation is live and is well linked. Answers `Changed` exactly if a constant was put.
///
/// Errors: allocation failure. The tree is then as before, or one after a first part of these rewrites.
///
/// Cost: one visit of each operation in an executable block, and one more for each lowering of an operand, of
/// which there are two at most, but where it has more than a few operands one for all that are lowered before
/// nothing shorter is left to do; then one step for each use of what is replaced.
pub fn sccp<D: Dialect>(
    alloc: Global,
    op: Ptr<Operation>,
    ctx: &mut Context,
) -> Result<IRStatus, OptError>
    requires live { IsLive ctx.old.tree op }
    requires linked { IsWellLinked D.meaning ctx.old.tree op }
    ensures propagates { (pops : ℕ) × Propagates ⟦<D as HasFolding>⟧.folding D.accepts D.constant_head
        D.ConstFoldInterface.outcome ctx.old.tree op ctx.new.tree result pops }
{
    let mut rewriter = IRRewriter::new();
    sccp_through::<D, IRRewriter>(alloc, op, ctx, &mut rewriter)
}
