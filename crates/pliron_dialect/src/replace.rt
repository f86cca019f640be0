//! A branch that becomes a jump.
ghost use Rattle.std.specs.Prelude.{◌≡◌, ◌<◌, ◌≤◌, [], Some, IsSome, OnOk, OnErr, length, IsOkUnless};
ghost use Rattle.pliron_core.specs.declared.rewriter.OpInsertionPoint.TheVariants.{BeforeOperation};
ghost use Rattle.pliron_core.specs.Tree.{IsLive, successors_of, results_of, regions_of, parent_of};
ghost use Rattle.pliron_core.specs.Changes.{IsSameTree};
ghost use Rattle.pliron_laws.specs.Tree.{Operation as OperationOf, op_at};
ghost use Rattle.pliron_dialect.specs.Roles.{head_of_kind as head_without, role_at, allows_at};
ghost use Rattle.pliron_dialect.specs.Outcomes.{BecomesJump};

use crate::edge_ranges::places_at;
use crate::heads::plain_head;
use crate::ranges::operands_at;
use crate::replace_by_jump;
use crate::roles::Roles;
use pliron_core::{Context, Head, Operation, Ptr, Rewriter};
use pliron_laws::{OptError, Room};
use std::alloc::Global;

// The head of a jump.
fn jump_head<K: Roles>(alloc: Global) -> Head
    ensures { result ≡ head_without (K.tables.number_of K.tables.jump) (K.tables.is_ssa K.tables.jump) }
{
    plain_head(alloc, K::jump().number(), K::jump().is_ssa())
}

/// A jump to the target of this edge, with the values that the edge forwards, takes the place of the operation: wholly
/// or not at all.
///
/// Asks that the operation is live in a block, has such an edge, and has no results and no regions, and that the
/// rewriter inserts before it. Errors: allocation failure, which leaves the tree as it was but for erased handles.
/// Cost: linear in the operation's operands and successors, and what the rewriter's listener costs.
pub fn jump_in_place<K: Roles, R: Rewriter + Room>(
    alloc: Global,
    op: Ptr<Operation>,
    ctx: &mut Context,
    edge: usize,
    rewriter: &mut R,
) -> Result<(), OptError>
    requires live { IsLive ctx.old.tree op }
    requires placed { IsSome (parent_of ctx.old.tree op) }
    requires edge { edge < length (successors_of ctx.old.tree op) }
    requires no_results { results_of ctx.old.tree op ≡ [] }
    requires no_regions { regions_of ctx.old.tree op ≡ [] }
    requires point { R.point rewriter.old ≡ BeforeOperation op }
    ensures ok { OnOk result ((o : OperationOf) → op_at ctx.old.tree op ≡ Some o → BecomesJump K.tables.value
        (role_at K.tables) (allows_at K.tables) (K.tables.number_of K.tables.jump) (K.tables.is_ssa K.tables.jump)
        ctx.old.tree ctx.new.tree op o edge) }
    ensures refused { OnErr result (IsSameTree ctx.old.tree ctx.new.tree) }
    ensures memory { IsOkUnless result OptError.Memory }
    ensures longer { length ctx.old.tree.operations ≤ length ctx.new.tree.operations }
{
    ctx.well_formed();
    let places = places_at::<K>(op, ctx, edge);
    let values = operands_at(alloc, op, ctx, places)?;
    let target = op.get_successor(ctx, edge);
    // the insertion, and one erasing: of the old operation, or of the new one on the way back
    rewriter.room(alloc, 2)?;
    replace_by_jump(op, ctx, jump_head::<K>(alloc), &values, target, rewriter)
}
