//! Dead code elimination, with arguments of blocks.
//!
//! Candidates for deletion are the operations inside the root that are no terminators and, as the dialect answers,
//! have no side effects; and the arguments of blocks inside the root that the parent operation of the block allows
//! to be removed and to whose block branches alone lead. What is dead is the least set in which
//!
//! 1. a candidate operation is dead if each use that keeps it alive is dead: the uses of its results anywhere, and
//!    those of values defined inside it that are outside it;
//! 2. a candidate argument is dead if each use of it is dead;
//! 3. a use is dead if a dead operation is its user or contains its user, or if an edge forwards it to a dead
//!    argument.
//!
//! So a ring of arguments that feed each other stays: no first one of them is dead.
//!
//! The work is driven by a worklist. A candidate is ready if no use keeps it alive at all. What is ready is erased, one
//! candidate after the other, each as one whole rewrite; whatever lost a use by it is a candidate for the next round.
//! Where nothing is ready any more nothing is dead.
//!
//! The crate builds on the theory of runs and the laws of dialects. It knows nothing of the other optimisations, of
//! graphs, of passes or of the program.
#![tactic(auto)]

ghost use Rattle.std.specs.Prelude.{◌≡◌, ◌↔◌, ℕ, List, IfOk, OnErr, IsTrue, IsOkUnless};
ghost use Rattle.pliron_core.specs.Tree.{IsLive};
ghost use Rattle.pliron_core.specs.declared.attrs.IRStatus.TheVariants.{Unchanged};
ghost use Rattle.pliron_theory.specs.Change.{IsWholeChange};
ghost use Rattle.pliron_theory.specs.Edges.{KeepsEdges};
ghost use Rattle.pliron_laws.specs.Linked.{IsWellLinked};
ghost use Rattle.pliron_opt_dce.specs.DeadLaws.{ReadyLaws, ErasingLaws, PendingLaw};
ghost use Rattle.pliron_opt_dce.specs.Dead.{Item};
ghost use Rattle.pliron_opt_dce.specs.Erasing.{EraseInTurn, AreDeadItems, LeavesNoDead, ReportsDead, SomeHasRegions};

mod around;
mod candidates;
mod erase;
mod incoming;
mod operand_indexing;
mod predecessors;
mod ready;
mod scan_positions;
mod sweep;
mod worklist;

use crate::candidates::all_candidates;
use crate::predecessors::Predecessors;
use crate::scan_positions::ScanPositions;
use crate::sweep::sweep;
use pliron_core::{Context, IRStatus, Operation, Ptr};
use pliron_laws::{Dialect, OptError};
use std::alloc::Global;

/// What is ready is dead, and where nothing is ready nothing is dead.
pub fn ready_is_dead<D: Dialect>()
    ensures { ReadyLaws D.meaning D.side_effects D.removable }
{}

/// Ready candidates are erased in turn: each step keeps all runs and links, and at the end exactly the dead are
/// erased.
pub fn ready_items_are_erased<D: Dialect>()
    ensures { ErasingLaws D.meaning D.shortened D.side_effects D.removable }
{}

/// What is ready after a whole rewrite was ready before it, or is on the worklist.
pub fn ready_items_are_candidates<D: Dialect>()
    ensures { PendingLaw D.meaning D.shortened D.side_effects D.removable }
{}

/// Erases all that is dead inside the operation: operations without side effects that are no terminators, and
/// arguments that the parent operation of their block allows to be removed and to whose block branches alone
/// lead, where only what is dead too uses them. The operands that branches forwarded to such an argument are
/// removed with it. Values and operations that stay keep their handles; the operation itself stays.
///
/// What is dead is a least set: a ring of arguments that feed each other stays.
///
/// Runs are kept of every root that is otherwise fit to run, also of one whose head may not be a root's.
///
/// Asks that the operation is live and is well linked. Answers `Changed` exactly if something was dead; nothing
/// is dead then, so a second call answers `Unchanged`.
///
/// Errors: allocation failure. The tree is then one after some whole rewrites: dead operations with their
/// contents, and dead arguments with the operands forwarded to them.
///
/// Cost: one visit of each operation and argument inside, and two more for each use that it loses. The
/// operations around what loses a use are visited once for all that is lost until nothing else is ready. A
/// visit of an operation scans the uses of what is defined by it and inside it, up to the first use that keeps
/// it alive, and each scan starts where the last one ended; what is erased is scanned once more. The first
/// removed argument of a block asks each edge to the block for all that it forwards (`successor_operands`) and
/// sorts the edges by how much that is. Each removal then asks only the edges that forward to the argument, and
/// one more, for the one operand that they forward there (`successor_operand`), and removes that one. Arguments
/// of a block that die together are removed side by side, last first, so the others are shifted once. Where the
/// removed arguments are far from one another, their list and the operand lists are indexed: a removal then
/// costs a logarithm of the length of each, and the shifts before it at most a few times these lengths. Whether
/// branches alone lead to a block is asked of each edge to it once, at the start, where there are many, and
/// else at each visit of an argument of it that nothing uses.
pub fn dce<D: Dialect>(
    alloc: Global,
    op: Ptr<Operation>,
    ctx: &mut Context,
) -> Result<IRStatus, OptError>
    requires live { IsLive ctx.old.tree op }
    requires linked { IsWellLinked D.meaning ctx.old.tree op }
    ensures change { IsWholeChange D.meaning ctx.old.tree ctx.new.tree op }
    ensures deleted { (deleted : List Item) × EraseInTurn D.meaning D.shortened deleted ctx.old.tree ctx.new.tree ×
        AreDeadItems D.meaning D.side_effects D.removable ctx.old.tree op deleted }
    ensures none { IfOk result (λ a. LeavesNoDead D.meaning D.side_effects D.removable ctx.old.tree ctx.new.tree op) }
    ensures status { IfOk result (λ a. ReportsDead D.meaning D.side_effects D.removable ctx.old.tree op a) }
    ensures accurate { IfOk result (λ a. (a ≡ Unchanged) ↔ (ctx.new.tree ≡ ctx.old.tree)) }
    ensures links { (root : ℕ) → IsWellLinked D.meaning ctx.old.tree root → IsLive ctx.new.tree root
        → IsWellLinked D.meaning ctx.new.tree root }
    ensures memory { IsOkUnless result OptError.Memory }
{
    let (status, _) = dce_with_regions::<D>(alloc, op, ctx)?;
    Ok(status)
}

/// As `dce`; answers too whether an operation with regions was erased. Where none was, the blocks and edges
/// inside each live operation are as before.
///
/// Asks that the operation is live and is well linked. Errors: as `dce`. Cost: as `dce`.
#[doc(hidden)]
pub fn dce_with_regions<D: Dialect>(
    alloc: Global,
    op: Ptr<Operation>,
    ctx: &mut Context,
) -> Result<(IRStatus, bool), OptError>
    requires live { IsLive ctx.old.tree op }
    requires linked { IsWellLinked D.meaning ctx.old.tree op }
    ensures change { IsWholeChange D.meaning ctx.old.tree ctx.new.tree op }
    ensures deleted { (deleted : List Item) × EraseInTurn D.meaning D.shortened deleted ctx.old.tree ctx.new.tree
        × AreDeadItems D.meaning D.side_effects D.removable ctx.old.tree op deleted × IfOk result
        (λ a. IsTrue a.1 ↔ SomeHasRegions ctx.old.tree deleted) }
    ensures none { IfOk result (λ a. LeavesNoDead D.meaning D.side_effects D.removable ctx.old.tree ctx.new.tree op) }
    ensures status { IfOk result (λ a. ReportsDead D.meaning D.side_effects D.removable ctx.old.tree op a.0) }
    ensures accurate { IfOk result (λ a. (a.0 ≡ Unchanged) ↔ (ctx.new.tree ≡ ctx.old.tree)) }
    ensures edges { IfOk result (λ a. (IsTrue a.1 → ⊥) → KeepsEdges ctx.old.tree ctx.new.tree) }
    ensures links { (root : ℕ) → IsWellLinked D.meaning ctx.old.tree root → IsLive ctx.new.tree root
        → IsWellLinked D.meaning ctx.new.tree root }
    ensures memory { IsOkUnless result OptError.Memory }
{
    let mut wide = Vec::new(alloc);
    let worklist = all_candidates(alloc, &mut wide, op, ctx)?;
    let scans = ScanPositions::new(alloc, &worklist, ctx)?;
    let predecessors = Predecessors::new::<D>(alloc, &wide, op, ctx)?;
    sweep::<D>(alloc, op, worklist, scans, &predecessors, ctx)
}
