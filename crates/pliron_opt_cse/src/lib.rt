//! Common subexpression elimination by dominance. An operation is redundant where an equivalent one dominates it: it is
//! erased, and the uses of its results become uses of the results of the dominating operation.
//!
//! It builds on the theory of runs, the laws of dialects and dominance order. It knows nothing of the other
//! optimisations, of passes or of the program.
#![tactic(auto)]

ghost use Rattle.std.specs.Prelude.{◌≡◌, ◌↔◌, ℕ, List, IfOk, OnOk, IsOkUnless};
ghost use Rattle.pliron_core.specs.Tree.{IsLive};
ghost use Rattle.pliron_core.specs.declared.attrs.IRStatus.TheVariants.{Unchanged};
ghost use Rattle.pliron_laws.specs.Linked.{IsWellLinked};
ghost use Rattle.pliron_theory.specs.Change.{IsWholeChange};
ghost use Rattle.pliron_theory.specs.Edges.{KeepsEdges};
ghost use Rattle.pliron_opt_cse.specs.CseLaws.{MergeLaws, ChangingLaw, StayingLaw, UsesLaw};
ghost use Rattle.pliron_opt_cse.specs.Left.{LeavesNoRedundancy, ReportsEquivalent};
ghost use Rattle.pliron_opt_cse.specs.Merges.{Pair, AreMergedSoFar, MergeInTurn};

mod keys;
mod leaders;
mod merge;

use crate::merge::merge_all;
use pliron_core::{Context, IRRewriter, IRStatus, Operation, Ptr, Rewriter};
use pliron_graph_order::dominance_order;
use pliron_laws::{Dialect, OptError, Room};
use std::alloc::Global;

/// Redundant operations may be erased, and the uses of their first results may become uses of their leaders'.
pub fn redundant_operations_go<D: Dialect>()
    ensures { MergeLaws D.meaning D.side_effects }
{}

/// Where a redundant operation inside an operation is erased, the outer one stays live and well linked, and only what
/// is inside it changes.
pub fn merges_are_changes<D: Dialect>()
    ensures { ChangingLaw D.meaning D.side_effects }
{}

/// Where an operation without regions and successors is erased, edges stay, and so does what dominates what.
pub fn dominance_stays()
    ensures { StayingLaw }
{}

/// In a well-defined root each use is behind its definition, so `cse` leaves nothing in it that it could merge.
pub fn uses_are_behind()
    ensures { UsesLaw }
{}

/// Eliminates common subexpressions inside the operation: an operation without side effects, regions and successors
/// is erased if one that dominates it has its head, its operands and as many results; the uses of its results become
/// uses of the results of that one. Without operands both have to be in one region. Operations are visited in the
/// blocks that the entries of their regions reach, in regions with SSA dominance, however deep.
///
/// Values and operations that stay keep their handles; the operation itself stays, and so do all blocks and edges.
///
/// Runs are kept of every root that is otherwise fit to run, also of one whose head may not be a root's.
///
/// Asks that the operation is live and is well linked. Answers `Changed` exactly if an operation was erased.
///
/// Errors: allocation failure. The tree is then one after some whole rewrites: redundant operations were erased, and
/// of one more with several results the uses of the first ones may have been moved, those of one result after the
/// other.
///
/// Cost: that of a dominator tree for each region, for each operation one look-up by a key as long as its head and
/// operands, and one step for each use that is moved. Source: P. Briggs, K. D. Cooper and L. T. Simpson, Value
/// numbering, 1997, section 4, by scopes of the dominator tree.
pub fn cse<D: Dialect>(
    alloc: Global,
    op: Ptr<Operation>,
    ctx: &mut Context,
) -> Result<IRStatus, OptError>
    requires live { IsLive ctx.old.tree op }
    requires linked { IsWellLinked D.meaning ctx.old.tree op }
    ensures change { IsWholeChange D.meaning ctx.old.tree ctx.new.tree op }
    ensures merged { (xs : List Pair) × AreMergedSoFar D.side_effects op xs ctx.old.tree ctx.new.tree × OnOk result
        (MergeInTurn D.side_effects op xs ctx.old.tree ctx.new.tree) }
    ensures none { IfOk result (λ a. LeavesNoRedundancy D.side_effects ctx.old.tree ctx.new.tree op) }
    ensures status { IfOk result (λ a. ReportsEquivalent D.side_effects ctx.old.tree op a) }
    ensures accurate { IfOk result (λ a. (a ≡ Unchanged) ↔ (ctx.new.tree ≡ ctx.old.tree)) }
    ensures edges { KeepsEdges ctx.old.tree ctx.new.tree }
    ensures links { (root : ℕ) → IsWellLinked D.meaning ctx.old.tree root → IsWellLinked D.meaning ctx.new.tree root }
    ensures memory { IsOkUnless result OptError.Memory }
{
    let mut rewriter = IRRewriter::new();
    cse_through::<D, IRRewriter>(alloc, op, ctx, &mut rewriter)
}

/// Eliminates common subexpressions inside the operation, as `cse` does, and makes each change through this rewriter,
/// which reports it to its listener. The rewriter is asked for room for a whole rewrite before the first change of it.
///
/// Asks that the operation is live and is well linked. Errors: as `cse`, and where the rewriter has no room. Cost: as
/// `cse`, and what the rewriter does at each change.
pub fn cse_through<D: Dialect, R: Rewriter + Room>(
    alloc: Global,
    op: Ptr<Operation>,
    ctx: &mut Context,
    rewriter: &mut R,
) -> Result<IRStatus, OptError>
    requires live { IsLive ctx.old.tree op }
    requires linked { IsWellLinked D.meaning ctx.old.tree op }
    ensures change { IsWholeChange D.meaning ctx.old.tree ctx.new.tree op }
    ensures merged { (xs : List Pair) × AreMergedSoFar D.side_effects op xs ctx.old.tree ctx.new.tree × OnOk result
        (MergeInTurn D.side_effects op xs ctx.old.tree ctx.new.tree) }
    ensures none { IfOk result (λ a. LeavesNoRedundancy D.side_effects ctx.old.tree ctx.new.tree op) }
    ensures status { IfOk result (λ a. ReportsEquivalent D.side_effects ctx.old.tree op a) }
    ensures accurate { IfOk result (λ a. (a ≡ Unchanged) ↔ (ctx.new.tree ≡ ctx.old.tree)) }
    ensures edges { KeepsEdges ctx.old.tree ctx.new.tree }
    ensures links { (root : ℕ) → IsWellLinked D.meaning ctx.old.tree root → IsWellLinked D.meaning ctx.new.tree root }
    ensures memory { IsOkUnless result OptError.Memory }
{
    ctx.well_formed();
    let order = dominance_order(alloc, op, ctx)?;
    merge_all::<D, R>(alloc, op, &order, ctx, rewriter)
}
