//! Redundant operations are erased, one after the other.
ghost use Rattle.std.specs.Prelude.{◌≡◌, ◌⊎◌, ◌↔◌, ◌+◌, ◌<◌, ℕ, List, IfOk, OnOk, OnErr, IfSome, IfNone, Some, IsOkUnless, IsTrue, length, get_or};
ghost use Rattle.pliron_core.specs.Tree.{IsLive};
ghost use Rattle.pliron_laws.specs.Linked.{IsWellLinked};
ghost use Rattle.pliron_opt_cse.specs.Leaders.{leader_with};
ghost use Rattle.pliron_opt_cse.specs.Left.{LeavesNoRedundancy, ReportsEquivalent};
ghost use Rattle.pliron_opt_cse.specs.MergingSteps.{MayMerge, IsMergingOnWay, AreOrderedOperations, LeadsAt, LeadsOn, IsEliminable, MergesInPart, MergesOrStays, ReportsMerging, status_after};
ghost use Rattle.pliron_opt_cse.specs.Merges.{AreMergedSoFar, Pair, MergeInTurn};

use crate::keys::{key_of, region_of_operation};
use crate::leaders::Leaders;
use pliron_core::{Context, IRStatus, Operation, Ptr, Region, Rewriter};
use pliron_graph_order::DominanceOrder;
use pliron_laws::{Dialect, OptError, Room};
use pliron_rewrite_equals::alike::are_alike;
use pliron_rewrite_equals::rewrites::merge_into_leader;
use std::alloc::Global;

// Whether the operation may be erased, or replace another: it has no regions, successors or side effects.
fn is_mergeable<D: Dialect>(op: Ptr<Operation>, ctx: &Context) -> bool
    requires { IsLive ctx.now.tree op }
    ensures { IsTrue result ↔ IsEliminable D.side_effects ctx.now.tree op }
{
    if op.num_region(ctx) != 0 || op.num_successor(ctx) != 0 {
        return false;
    }
    let Some(false) = D::has_side_effects(op, ctx) else {
        return false;
    };
    true
}

// Whether both are one region, or neither is one.
fn is_same_region(first: Option<Ptr<Region>>, second: Option<Ptr<Region>>) -> bool
    ensures { IsTrue result ↔ (first ≡ second) }
{
    first == second
}

// Whether the second does what the first does, and is in its region if it has no operands.
fn may_merge<D: Dialect>(first: Ptr<Operation>, second: Ptr<Operation>, ctx: &Context) -> bool
    requires first { IsLive ctx.now.tree first }
    requires second { IsLive ctx.now.tree second }
    ensures { IsTrue result ↔ MayMerge D.side_effects ctx.now.tree first second }
{
    if !are_alike::<D>(first, second, ctx) {
        return false;
    }
    if second.num_operand(ctx) != 0 {
        return true;
    }
    is_same_region(
        region_of_operation(first, ctx),
        region_of_operation(second, ctx),
    )
}

// The operation at this place.
fn operation_at(order: &DominanceOrder, place: usize) -> Ptr<Operation>
    requires { place < length order.now.operations.items }
    ensures { result ≡ get_or order.now.operations.items place 0 }
{
    order.operations[place]
}

// The operation at the first place, if it is a leader of the one at the second.
fn leader_at<D: Dialect>(
    order: &DominanceOrder,
    leader: usize,
    place: usize,
    ctx: &Context,
) -> Option<Ptr<Operation>>
    requires place { place < length order.now.operations.items }
    requires counted { length order.now.ends.items ≡ length order.now.operations.items }
    requires live { IsLive ctx.now.tree (get_or order.now.operations.items place 0) }
    ensures some { IfSome result (λ a. (a ≡ get_or order.now.operations.items leader 0) × LeadsAt D.side_effects
        ctx.now.tree order.now.operations.items order.now.ends.items leader place) }
    ensures none { IfNone result (LeadsAt D.side_effects ctx.now.tree order.now.operations.items order.now.ends.items
        leader place → ⊥) }
{
    if place <= leader || order.ends[leader] <= place {
        return None;
    }
    let first = order.operations[leader];
    if !first.is_live(ctx) {
        return None;
    }
    if !may_merge::<D>(first, order.operations[place], ctx) {
        return None;
    }
    Some(first)
}

// A leader of the operation at this place, by its key.
fn leader_of<D: Dialect>(
    order: &DominanceOrder,
    leaders: &Leaders,
    key: &Vec<u64>,
    place: usize,
    ctx: &Context,
) -> Option<Ptr<Operation>>
    requires place { place < length order.now.operations.items }
    requires counted { length order.now.ends.items ≡ length order.now.operations.items }
    requires live { IsLive ctx.now.tree (get_or order.now.operations.items place 0) }
    ensures some { IfSome result (λ a. (i : ℕ) × (a ≡ get_or order.now.operations.items i 0) × LeadsAt D.side_effects
        ctx.now.tree order.now.operations.items order.now.ends.items i place) }
    ensures none { IfNone result ((i : ℕ) → leader_with leaders.now key.now.items ≡ Some i → LeadsAt D.side_effects
        ctx.now.tree order.now.operations.items order.now.ends.items i place → ⊥) }
{
    match leaders.find(key) {
        Some(leader) => leader_at::<D>(order, leader, place, ctx),
        None => None,
    }
}

// The operation at this place is erased if it is redundant, and else it may lead those behind it. Answers whether
// it was erased.
fn merge_at<D: Dialect, R: Rewriter + Room>(
    alloc: Global,
    order: &DominanceOrder,
    place: usize,
    leaders: &mut Leaders,
    ctx: &mut Context,
    rewriter: &mut R,
) -> Result<bool, OptError>
    requires place { place < length order.now.operations.items }
    requires ordered { (root : ℕ) × AreOrderedOperations ctx.old.tree root order.now.operations.items
        order.now.ends.items place }
    ensures merged { IfOk result (λ merged. MergesOrStays D.side_effects ctx.old.tree ctx.new.tree
        order.now.operations.items order.now.ends.items place merged) }
    ensures leaders { IfOk result (λ merged. LeadsOn D.side_effects ctx.old.tree order.now.operations.items
        order.now.ends.items place (λ key. leader_with leaders.old key) (λ key. leader_with leaders.new key) merged) }
    ensures refused { OnErr result (MergesInPart D.side_effects ctx.old.tree ctx.new.tree order.now.operations.items
        order.now.ends.items place) }
    ensures memory { IsOkUnless result OptError.Memory }
{
    ctx.well_formed();
    let op = operation_at(order, place);
    if !is_mergeable::<D>(op, ctx) {
        return Ok(false);
    }
    let key = key_of(alloc, op, ctx)?;
    if let Some(first) = leader_of::<D>(order, leaders, &key, place, ctx) {
        merge_into_leader::<D, R>(alloc, first, op, ctx, rewriter)?;
        return Ok(true);
    }
    leaders.put(key, place)?;
    Ok(false)
}

// `Changed` if one was erased, else as before.
fn status_with(status: IRStatus, merged: bool) -> IRStatus
    ensures { result ≡ status_after status merged }
{
    if merged { IRStatus::Changed } else { status }
}

/// The redundant ones among these operations are erased. Answers whether one was.
///
/// Asks for the dominance order of what is inside the root, and that the root is live and is well linked. Errors:
/// allocation failure. Cost: a look-up of the key of each operation, and a step for each use that is moved.
pub fn merge_all<D: Dialect, R: Rewriter + Room>(
    alloc: Global,
    root: Ptr<Operation>,
    order: &DominanceOrder,
    ctx: &mut Context,
    rewriter: &mut R,
) -> Result<IRStatus, OptError>
    requires live { IsLive ctx.old.tree root }
    requires linked { IsWellLinked D.meaning ctx.old.tree root }
    requires ordered { AreOrderedOperations ctx.old.tree root order.now.operations.items order.now.ends.items 0 }
    ensures merged { (xs : List Pair) × AreMergedSoFar D.side_effects root xs ctx.old.tree ctx.new.tree × OnOk result
        (MergeInTurn D.side_effects root xs ctx.old.tree ctx.new.tree) }
    ensures way { IsMergingOnWay D.meaning ctx.old.tree ctx.new.tree root }
    ensures accurate { IfOk result (λ a. ReportsMerging ctx.old.tree ctx.new.tree a) }
    ensures none { IfOk result (λ a. LeavesNoRedundancy D.side_effects ctx.old.tree ctx.new.tree root) }
    ensures status { IfOk result (λ a. ReportsEquivalent D.side_effects ctx.old.tree root a) }
    ensures memory { IsOkUnless result OptError.Memory }
{
    let mut leaders = Leaders::new(alloc);
    let mut status = IRStatus::Unchanged;
    for place in 0..order.operations.len() {
        ctx.well_formed();
        let outcome = merge_at::<D, R>(alloc, order, place, &mut leaders, ctx, rewriter);
        ctx.well_formed();
        let merged = outcome?;
        status = status_with(status, merged);
    }
    ctx.well_formed();
    Ok(status)
}
