//! Simplifying the control flow of a tree: branches are folded, unreachable blocks are removed, and pairs of
//! blocks that need not be apart are merged.
//!
//! `folding`, `removal` and `merging` are one each, and know nothing of one another; `visits` says which
//! regions and blocks removal and merging visit. The crate puts the three together.
//!
//! It knows regions as graphs, the rewrites of blocks and what runs read of constants. It knows nothing of the
//! other optimisations, of passes, of any dialect or of the program.
#![tactic(auto)]

ghost use Rattle.std.specs.Prelude.{◌≡◌, ℕ, IfOk, IfErr};
ghost use Rattle.pliron_core.specs.Tree.{IsLive};
ghost use Rattle.pliron_laws.specs.Linked.{IsWellLinked};
ghost use Rattle.pliron_theory.specs.Change.{IsWholeChange};
ghost use Rattle.pliron_opt_cfg.specs.Simplified.{Simplifies, SimplifyFails};

mod folding;
mod merging;
mod removal;
pub mod visits;

pub use folding::fold_branches;
pub use merging::{merge_inside_block, merge_inside_op, merge_inside_region};
use pliron_core::{Context, IRRewriter, IRStatus, Operation, Ptr};
use pliron_laws::{Dialect, OptError};
pub use removal::{
    remove_blocks_inside_block, remove_blocks_inside_op, remove_blocks_inside_region,
};
use std::alloc::Global;

/// Simplifies the control flow inside the operation, once: folds the branches inside by what is known of
/// their operands, as [`fold_branches`], then removes unreachable blocks, as
/// [`remove_blocks_inside_op`], then merges blocks, as [`merge_inside_op`].
///
/// Asks that the operation is live and is well linked. `Changed` exactly if the tree changed. No unreachable
/// block and no mergeable pair is left in what it visits. Runs are kept of every root that is otherwise fit to
/// run, also of one whose head may not be a root's; so it is for the six calls on regions.
///
/// Errors: allocation failure; `LiveUse` where a value of an unreachable block is used outside the unreachable
/// blocks of its region. The tree is then one after some whole rewrites: some folds; all of them, and some
/// regions without their unreachable blocks; all of both, and some merges.
///
/// Cost: that of the three calls, each linear in what it visits and erases.
pub fn simplify_cfg<D: Dialect>(
    alloc: Global,
    op: Ptr<Operation>,
    ctx: &mut Context,
) -> Result<IRStatus, OptError>
    requires live { IsLive ctx.old.tree op }
    requires linked { IsWellLinked D.meaning ctx.old.tree op }
    ensures ok { IfOk result (λ status. Simplifies D.meaning D.can_fold D.can_fold_branch D.constants
        D.BranchOpFoldInterface.outcome op ctx.old.tree ctx.new.tree status) }
    ensures err { IfErr result (λ e. SimplifyFails D.meaning D.can_fold D.can_fold_branch D.constants
        D.BranchOpFoldInterface.outcome op ctx.old.tree ctx.new.tree e) }
    ensures change { IsWholeChange D.meaning ctx.old.tree ctx.new.tree op }
{
    ctx.well_formed();
    let mut rewriter = IRRewriter::new();
    let mut status = fold_branches::<D, IRRewriter>(alloc, op, ctx, &mut rewriter)?;
    ctx.well_formed();
    status |= remove_blocks_inside_op::<D, IRRewriter>(alloc, op, ctx, &mut rewriter)?;
    status |= merge_inside_op::<D, IRRewriter>(alloc, op, ctx, &mut rewriter)?;
    Ok(status)
}
