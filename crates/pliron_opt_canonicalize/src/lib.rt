//! Canonicalization. A result may be one of the operands of its operation, or a constant; an argument of a block may be
//! the one value that all edges pass to it. The uses of such a result or argument become uses of what it is.
//!
//! It builds on the theory of runs, the laws of dialects and dominance order. It knows nothing of the other
//! optimisations, of passes or of the program.
#![tactic(auto)]

ghost use Rattle.std.specs.Prelude.{◌≡◌, ◌↔◌, ◌≤◌, ℕ, List, IfOk, OnOk, IsOkUnless};
ghost use Rattle.pliron_core.specs.Tree.{IsLive};
ghost use Rattle.pliron_core.specs.declared.attrs.IRStatus.TheVariants.{Unchanged};
ghost use Rattle.pliron_laws.specs.Linked.{IsWellLinked};
ghost use Rattle.pliron_theory.specs.Change.{IsWholeChange};
ghost use Rattle.pliron_theory.specs.Edges.{KeepsEdges};
ghost use Rattle.pliron_opt_canonicalize.specs.Folds.{Fold, FoldInTurn, AreFolded, HasFolds, ReportsFolds};
ghost use Rattle.pliron_opt_canonicalize.specs.Counts.{foldable_count};

mod arguments;
mod moved_uses;
mod rounds;
mod sites;
mod sweep;

use crate::rounds::fold_all;
use crate::sites::visited_sites;
use pliron_core::{Context, IRRewriter, IRStatus, Operation, Ptr, Rewriter};
use pliron_laws::{Dialect, OptError, Room};
use pliron_rewrite_operands::HasOperandFolding;
use std::alloc::Global;

/// Folds what is inside the operation: where the dialect answers that a result is an operand of its operation, or a
/// constant, the uses of the result become uses of that operand, or of a new operation just before that makes the
/// constant; where an argument of a block is one value, which each edge forwards that doesn't forward the argument
/// itself, its uses become uses of that value. A constant is known of an operand where an operation of no operands,
/// regions and side effects makes it. Operations, and blocks that have some, are visited where the entries of their
/// regions reach them, in regions with SSA dominance, however deep, but for operations that have successors, no
/// operands, or a result of their own as an operand, and for entries.
///
/// Nothing is erased, and a value without uses is left alone. Values and operations keep their handles; blocks and
/// edges stay.
///
/// Runs are kept of every root that is otherwise fit to run, also of one whose head may not be a root's.
///
/// Asks that the operation is live and is well linked. Answers `Changed` exactly if something folded, and the tree
/// changed; then nothing folds any more.
///
/// Errors: allocation failure. The tree is then one after some folds, each of them whole.
///
/// Cost: that of a dominator tree for each region; twice, once where nothing folds, what the dialect answers for each
/// result with uses and one `successor_operand` for each argument with uses and each edge to its block; for each use
/// that is moved a step, and as much as that for the results of its operation, or for the argument that it is forwarded
/// to. What a fold changes is visited again, and nothing else, where the dialect's `forwarded_from` reports it: else
/// all is, as often as that lessens the count of used values that may fold. A use is moved once for each value that it
/// becomes a use of, so arguments of n nested loops, of which the inner ones fold first, take n squared moves.
pub fn canonicalize<D: Dialect>(
    alloc: Global,
    op: Ptr<Operation>,
    ctx: &mut Context,
) -> Result<IRStatus, OptError>
    requires live { IsLive ctx.old.tree op }
    requires linked { IsWellLinked D.meaning ctx.old.tree op }
    ensures change { IsWholeChange D.meaning ctx.old.tree ctx.new.tree op }
    ensures folded { (fs : List Fold) × AreFolded ⟦<D as HasOperandFolding>⟧.operand_folding op fs ctx.old.tree
        ctx.new.tree × OnOk result (FoldInTurn ⟦<D as HasOperandFolding>⟧.operand_folding op fs ctx.old.tree
        ctx.new.tree) }
    ensures none { IfOk result (λ a. HasFolds ⟦<D as HasOperandFolding>⟧.operand_folding ctx.new.tree op → ⊥) }
    ensures status { IfOk result (λ a. ReportsFolds ⟦<D as HasOperandFolding>⟧.operand_folding ctx.old.tree op a) }
    ensures accurate { IfOk result (λ a. (a ≡ Unchanged) ↔ (ctx.new.tree ≡ ctx.old.tree)) }
    ensures fewer { IfOk result (λ a. foldable_count ctx.new.tree ≤ foldable_count ctx.old.tree) }
    ensures edges { KeepsEdges ctx.old.tree ctx.new.tree }
    ensures links { (root : ℕ) → IsWellLinked D.meaning ctx.old.tree root → IsWellLinked D.meaning ctx.new.tree root }
    ensures memory { IsOkUnless result OptError.Memory }
{
    let mut rewriter = IRRewriter::new();
    canonicalize_through::<D, IRRewriter>(alloc, op, ctx, &mut rewriter)
}

/// Folds what is inside the operation, as `canonicalize` does, and makes each change through this rewriter, which
/// reports it to its listener. The rewriter is asked for room for a whole rewrite before the first change of it.
///
/// Asks that the operation is live and is well linked. Errors: as `canonicalize`, and where the rewriter has no room.
/// Cost: as `canonicalize`, and what the rewriter does at each change.
pub fn canonicalize_through<D: Dialect, R: Rewriter + Room>(
    alloc: Global,
    op: Ptr<Operation>,
    ctx: &mut Context,
    rewriter: &mut R,
) -> Result<IRStatus, OptError>
    requires live { IsLive ctx.old.tree op }
    requires linked { IsWellLinked D.meaning ctx.old.tree op }
    ensures change { IsWholeChange D.meaning ctx.old.tree ctx.new.tree op }
    ensures folded { (fs : List Fold) × AreFolded ⟦<D as HasOperandFolding>⟧.operand_folding op fs ctx.old.tree
        ctx.new.tree × OnOk result (FoldInTurn ⟦<D as HasOperandFolding>⟧.operand_folding op fs ctx.old.tree
        ctx.new.tree) }
    ensures none { IfOk result (λ a. HasFolds ⟦<D as HasOperandFolding>⟧.operand_folding ctx.new.tree op → ⊥) }
    ensures status { IfOk result (λ a. ReportsFolds ⟦<D as HasOperandFolding>⟧.operand_folding ctx.old.tree op a) }
    ensures accurate { IfOk result (λ a. (a ≡ Unchanged) ↔ (ctx.new.tree ≡ ctx.old.tree)) }
    ensures fewer { IfOk result (λ a. foldable_count ctx.new.tree ≤ foldable_count ctx.old.tree) }
    ensures edges { KeepsEdges ctx.old.tree ctx.new.tree }
    ensures links { (root : ℕ) → IsWellLinked D.meaning ctx.old.tree root → IsWellLinked D.meaning ctx.new.tree root }
    ensures memory { IsOkUnless result OptError.Memory }
{
    ctx.well_formed();
    let sites = visited_sites(alloc, op, ctx)?;
    fold_all::<D, R>(alloc, op, &sites, ctx, rewriter)
}
