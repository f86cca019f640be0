//! What is trivially dead now, and may be erased at once.
//!
//! What most dead operations have in common is tested first: no regions, and no use of any result. Whether an
//! operation is inside the root, which costs its depth, is tested last, and only of one without side effects
//! that nothing uses.
ghost use Rattle.std.specs.Prelude.{◌≡◌, ◌↔◌, Some, IsTrue};
ghost use Rattle.pliron_core.specs.Tree.{IsLive, IsBlock, IsWithin, block_parent_operation_of};
ghost use Rattle.pliron_laws.specs.Linked.{IsWellLinked};
ghost use Rattle.pliron_opt_dce.specs.Dead.{IsHarmless, MayLose};
ghost use Rattle.pliron_opt_dce.specs.Predecessors.{mark_of_block, AreMarked};
ghost use Rattle.pliron_opt_dce.specs.Readiness.{IsReadyOperation, IsReadyArgument, HaveNoUse};

use crate::predecessors::Predecessors;
use crate::scan_positions::ScanPositions;
use pliron_core::{BasicBlock, Context, Def, Operation, Ptr, Value};
use pliron_laws::Dialect;

// Whether the operation is no terminator and answers that it has no side effects.
#[inline(always)]
pub(crate) fn is_harmless<D: Dialect>(op: Ptr<Operation>, ctx: &Context) -> bool
    requires { IsLive ctx.now.tree op }
    ensures { IsTrue result ↔ IsHarmless D.meaning D.side_effects ctx.now.tree op }
{
    match D::has_side_effects(op, ctx) {
        Some(false) => !D::is_terminator(op, ctx),
        _ => false,
    }
}

// Whether no result of the operation is used.
#[inline(always)]
fn is_unused(op: Ptr<Operation>, ctx: &Context) -> bool
    requires { IsLive ctx.now.tree op }
    ensures { IsTrue result ↔ HaveNoUse ctx.now.tree op }
{
    ctx.well_formed();
    for i in 0..op.num_result(ctx) {
        if op.get_result(ctx, i).num_use(ctx) != 0 {
            return false;
        }
    }
    true
}

// Whether the operation may be erased at once.
#[inline(always)]
pub(crate) fn is_ready_operation<D: Dialect>(
    op: Ptr<Operation>,
    scans: &mut ScanPositions,
    root: Ptr<Operation>,
    ctx: &Context,
) -> bool
    requires linked { IsWellLinked D.meaning ctx.now.tree root }
    ensures { IsTrue result ↔ IsReadyOperation D.meaning D.side_effects ctx.now.tree root op }
{
    ctx.well_formed();
    if !op.is_live(ctx) {
        return false;
    }
    if !is_harmless::<D>(op, ctx) {
        return false;
    }
    if scans.is_kept_alive(op, ctx) {
        return false;
    }
    if !is_unused(op, ctx) {
        return false;
    }
    if !op.is_inside(root, ctx) {
        return false;
    }
    if op.num_region(ctx) == 0 {
        return true;
    }
    op.is_self_contained(ctx)
}

// Whether the parent operation of the block allows its arguments to be removed.
#[inline(always)]
fn may_lose<D: Dialect>(block: Ptr<BasicBlock>, holder: Ptr<Operation>, ctx: &Context) -> bool
    requires block { IsBlock ctx.now.tree block }
    requires holder { block_parent_operation_of ctx.now.tree block ≡ Some holder }
    ensures { IsTrue result ↔ MayLose D.removable ctx.now.tree block }
{
    ctx.well_formed();
    let Some(true) = D::can_remove_block_args(holder, ctx, block) else {
        return false;
    };
    true
}

// Whether the operation is the root or is inside it.
#[inline(always)]
pub(crate) fn is_within(op: Ptr<Operation>, root: Ptr<Operation>, ctx: &Context) -> bool
    requires { IsLive ctx.now.tree op }
    ensures { IsTrue result ↔ IsWithin ctx.now.tree root op }
{
    op == root || op.is_inside(root, ctx)
}

// Whether the value is an argument that may be removed at once.
#[inline(always)]
pub(crate) fn is_ready_argument<D: Dialect>(
    value: Value,
    predecessors: &Predecessors,
    root: Ptr<Operation>,
    ctx: &Context,
) -> bool
    requires marked { AreMarked D.meaning ctx.now.tree root (λ b. mark_of_block predecessors.now b) }
    ensures { IsTrue result ↔ IsReadyArgument D.meaning D.removable ctx.now.tree root value }
{
    ctx.well_formed();
    if !value.is_live(ctx) {
        return false;
    }
    if value.num_use(ctx) != 0 {
        return false;
    }
    let Def::Argument(block, _) = value.def(ctx) else {
        return false;
    };
    let holder = parent_operation_of(block, ctx);
    if !is_within(holder, root, ctx) {
        return false;
    }
    if !may_lose::<D>(block, holder, ctx) {
        return false;
    }
    predecessors.are_branches_of::<D>(block, root, ctx)
}

// The parent operation of the block.
#[inline(always)]
pub(crate) fn parent_operation_of(block: Ptr<BasicBlock>, ctx: &Context) -> Ptr<Operation>
    requires { IsBlock ctx.now.tree block }
    ensures holder { block_parent_operation_of ctx.now.tree block ≡ Some result }
    ensures live { IsLive ctx.now.tree result }
{
    ctx.well_formed();
    match block.get_parent_region(ctx) {
        Some(region) => region.get_parent_op(ctx),
        None => unreachable!(),
    }
}
