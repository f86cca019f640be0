//! The whole rewrite that merges a redundant operation into its leader.
ghost use Rattle.std.specs.Prelude.{◌≡◌, OnOk, OnErr, IsOkUnless};
ghost use Rattle.pliron_theory.specs.Keeps.{KeepsAllRuns};
ghost use Rattle.pliron_rewrite_equals.specs.Redundancy.{IsLeader};
ghost use Rattle.pliron_rewrite_equals.specs.Merging.{IsPartlyMerged, results_merged, after_merging};

use pliron_core::{Context, Operation, Ptr, Rewriter};
use pliron_laws::{Dialect, OptError, Room};
use std::alloc::Global;

// All uses of the results of the redundant operation become uses of those of its leader.
fn hand_over<D: Dialect, R: Rewriter>(
    leader: Ptr<Operation>,
    redundant: Ptr<Operation>,
    ctx: &mut Context,
    rewriter: &mut R,
) -> Result<(), OptError>
    requires leads { IsLeader D.side_effects ctx.old.tree leader redundant }
    ensures ok { OnOk result (ctx.new.tree ≡ results_merged ctx.old.tree leader redundant) }
    ensures err { OnErr result (IsPartlyMerged ctx.old.tree ctx.new.tree leader redundant) }
    ensures memory { IsOkUnless result OptError.Memory }
    ensures point { R.point rewriter.new ≡ R.point rewriter.old }
{
    ctx.well_formed();
    for i in 0..redundant.num_result(ctx) {
        ctx.well_formed();
        let old = redundant.get_result(ctx, i);
        let new = leader.get_result(ctx, i);
        rewriter.replace_value_uses_with(ctx, old, new)?;
    }
    Ok(())
}

/// Gives all uses of the results of an operation to those of its leader, which dominates it and does the same,
/// and erases it.
///
/// Asks that the leader is one. The rewriter inserts where it did.
/// Errors: allocation failure, which changes nothing where it has one result or none. Of several results the uses
/// of the first ones may have moved then, those of one result after the other, and it is live.
/// Cost: the uses of its results, and its operands.
pub fn merge_into_leader<D: Dialect, R: Rewriter + Room>(
    alloc: Global,
    leader: Ptr<Operation>,
    redundant: Ptr<Operation>,
    ctx: &mut Context,
    rewriter: &mut R,
) -> Result<(), OptError>
    requires leads { IsLeader D.side_effects ctx.old.tree leader redundant }
    ensures ok { OnOk result (ctx.new.tree ≡ after_merging ctx.old.tree leader redundant) }
    ensures err { OnErr result (IsPartlyMerged ctx.old.tree ctx.new.tree leader redundant) }
    ensures runs { KeepsAllRuns D.meaning ctx.old.tree ctx.new.tree }
    ensures memory { IsOkUnless result OptError.Memory }
    ensures point { R.point rewriter.new ≡ R.point rewriter.old }
{
    ctx.well_formed();
    // a replacement for each result, and erasing
    rewriter.room(alloc, redundant.num_result(ctx).saturating_add(1))?;
    hand_over::<D, R>(leader, redundant, ctx, rewriter)?;
    ctx.well_formed();
    rewriter.erase_operation(ctx, redundant);
    ctx.well_formed();
    Ok(())
}
