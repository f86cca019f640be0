//! Edges that are led past blocks that only jump, to where the chains of such blocks end.
//!
//! A block only passes on if it has no arguments and its one operation is a branch without operands, to one block. Each
//! edge of a branch that leads to such a block leads after to the first block behind that does more. On a ring, and where
//! a chain leads into one, there is none, and edges stay. The blocks stay too: where nothing leads to one any more, it is
//! unreachable.
//!
//! It knows the rewrites of edges. It knows nothing of the other optimisations, of passes, of any dialect or of the
//! program.
#![tactic(auto)]

ghost use Rattle.std.specs.Prelude.{◌≡◌, ◌↔◌, ℕ, IfOk, OnOk, OnErr, IsOkUnless};
ghost use Rattle.pliron_core.specs.Tree.{IsLive, block_parent_of};
ghost use Rattle.pliron_core.specs.declared.attrs.IRStatus.TheVariants.{Unchanged};
ghost use Rattle.pliron_laws.specs.Linked.{IsWellLinked};
ghost use Rattle.pliron_theory.specs.Change.{IsWholeChange};
ghost use Rattle.pliron_rewrite_blocks.specs.Links.{KeepsLinks};
ghost use Rattle.pliron_opt_edges.specs.EdgeLaws.{LedLaws};
ghost use Rattle.pliron_opt_edges.specs.Moved.{MovesEdges, MovesSome, LeavesNoChain};

mod chains;
mod moving;

use crate::chains::find_ends;
use crate::moving::{branches_inside, move_all};
use pliron_core::{Context, IRRewriter, IRStatus, Operation, Ptr, Rewriter};
use pliron_dialect_edges::BranchesAtOnce;
use pliron_laws::{Dialect, OptError, Room};
use std::alloc::Global;

/// The edges of a branch may be led to the ends of their chains.
pub fn edges_are_led<D: Dialect + BranchesAtOnce>()
    ensures { LedLaws D.meaning }
{}

/// Leads the edges of all branches inside the operation, however deep, to the ends of their chains. A chain goes over
/// blocks without arguments whose one operation is a branch without operands to one block; where it comes to a ring the
/// edges stay.
///
/// Blocks, their arguments and all operations but branches stay with their handles; a branch some of whose edges move is
/// replaced by one with the same head and operands. Runs are kept of every root that is otherwise fit to run, also of one
/// whose head may not be a root's.
///
/// Asks that the operation is live and is well linked. Answers `Changed` exactly if an edge was moved.
///
/// Errors: allocation failure. The edges of some branches are then led to the ends of their chains, for each branch all or
/// none.
///
/// Cost: one step for each operation inside, and for each of their successors one look-up by its block; a block that only
/// passes on is walked once, however many edges lead to it. Source: S. S. Muchnick, Advanced Compiler Design and
/// Implementation, 1997, chapter 18 (branches to branches).
pub fn thread_edges<D: Dialect + BranchesAtOnce>(
    alloc: Global,
    op: Ptr<Operation>,
    ctx: &mut Context,
) -> Result<IRStatus, OptError>
    requires live { IsLive ctx.old.tree op }
    requires linked { IsWellLinked D.meaning ctx.old.tree op }
    ensures change { IsWholeChange D.meaning ctx.old.tree ctx.new.tree op }
    ensures moved { OnOk result (MovesEdges D.meaning.is_branch op ctx.old.tree ctx.new.tree) }
    ensures none { OnOk result (LeavesNoChain D.meaning.is_branch ctx.new.tree op) }
    ensures accurate { IfOk result (λ status. (status ≡ Unchanged) ↔ (ctx.new.tree ≡ ctx.old.tree)) }
    ensures blocks { (b : ℕ) → block_parent_of ctx.new.tree b ≡ block_parent_of ctx.old.tree b }
    ensures links { KeepsLinks D.meaning ctx.old.tree ctx.new.tree }
    ensures refused { OnErr result (MovesSome D.meaning.is_branch op ctx.old.tree ctx.new.tree) }
    ensures memory { IsOkUnless result OptError.Memory }
{
    let mut rewriter = IRRewriter::new();
    thread_edges_through::<D, IRRewriter>(alloc, op, ctx, &mut rewriter)
}

/// Leads the edges of all branches inside the operation to the ends of their chains, as `thread_edges` does, and makes
/// each change through this rewriter, which reports it to its listener. The rewriter is asked for room for a whole rewrite
/// before the first change of it.
///
/// Asks that the operation is live and is well linked. Errors: as `thread_edges`, and where the rewriter has no room.
/// Cost: as `thread_edges`, and what the rewriter does at each change.
pub fn thread_edges_through<D: Dialect + BranchesAtOnce, R: Rewriter + Room>(
    alloc: Global,
    op: Ptr<Operation>,
    ctx: &mut Context,
    rewriter: &mut R,
) -> Result<IRStatus, OptError>
    requires live { IsLive ctx.old.tree op }
    requires linked { IsWellLinked D.meaning ctx.old.tree op }
    ensures change { IsWholeChange D.meaning ctx.old.tree ctx.new.tree op }
    ensures moved { OnOk result (MovesEdges D.meaning.is_branch op ctx.old.tree ctx.new.tree) }
    ensures none { OnOk result (LeavesNoChain D.meaning.is_branch ctx.new.tree op) }
    ensures accurate { IfOk result (λ status. (status ≡ Unchanged) ↔ (ctx.new.tree ≡ ctx.old.tree)) }
    ensures blocks { (b : ℕ) → block_parent_of ctx.new.tree b ≡ block_parent_of ctx.old.tree b }
    ensures links { KeepsLinks D.meaning ctx.old.tree ctx.new.tree }
    ensures refused { OnErr result (MovesSome D.meaning.is_branch op ctx.old.tree ctx.new.tree) }
    ensures memory { IsOkUnless result OptError.Memory }
{
    ctx.well_formed();
    let branches = branches_inside::<D>(alloc, op, ctx)?;
    let ends = find_ends::<D>(alloc, branches.as_slice(), ctx)?;
    move_all::<D, R>(alloc, op, ctx, branches.as_slice(), &ends, rewriter)
}
