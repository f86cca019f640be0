//! Searches for the ancestors of an operation or a block. They follow links upwards, take no memory and never
//! fail.
ghost use Rattle.std.specs.Prelude.{◌≡◌, ◌↔◌, IsTrue, IfSome};
ghost use Rattle.pliron_core.specs.Tree.{IsLive, IsBlock, IsInside, parent_of};
ghost use Rattle.pliron_core.specs.Erased.{IsInOperation, IsBlockWithin};
ghost use Rattle.pliron_laws.specs.Answers.{HeadPasses};
ghost use Rattle.pliron_graph_components.specs.Ancestors.{IsAtOrAbove, IsAncestor, IsDirectlyInBlock, IsDirectlyIn, IsDirectlyInRegion, IsBlockInside, FindsNearest, StrictlyPrecedes};

use pliron_core::{BasicBlock, Context, Operation, Ptr, Region};
use pliron_laws::{Dialect, Interface};

// Whether both operations are in one block, or both in none.
fn have_one_parent(ctx: &Context, a: Ptr<Operation>, b: Ptr<Operation>) -> bool
    requires first { IsLive ctx.now.tree a }
    requires second { IsLive ctx.now.tree b }
    ensures { IsTrue result ↔ (parent_of ctx.now.tree a ≡ parent_of ctx.now.tree b) }
{
    a.get_parent_block(ctx) == b.get_parent_block(ctx)
}

/// Whether both operations are in one block, `a` before `b`. No operation precedes itself.
///
/// Asks that both are live (`is_live` tests it). Cost: one step for each operation of the block from `a` to
/// `b`, or to the end of the block if `b` is not after `a`; constant if they are in different blocks.
pub fn strictly_precedes_in_block(ctx: &Context, a: Ptr<Operation>, b: Ptr<Operation>) -> bool
    requires first { IsLive ctx.now.tree a }
    requires second { IsLive ctx.now.tree b }
    ensures { IsTrue result ↔ StrictlyPrecedes ctx.now.tree a b }
{
    ctx.well_formed();
    if !have_one_parent(ctx, a, b) {
        return false;
    }
    let mut at = a.get_next(ctx);
    while let Some(op) = at {
        if op == b {
            return true;
        }
        at = op.get_next(ctx);
    }
    false
}

// Whether the operation is directly in the block.
fn is_directly_in_block(ctx: &Context, op: Ptr<Operation>, block: Ptr<BasicBlock>) -> bool
    requires { IsLive ctx.now.tree op }
    ensures { IsTrue result ↔ IsDirectlyInBlock ctx.now.tree block op }
{
    op.get_parent_block(ctx) == Some(block)
}

// Whether the operation is directly in the region.
fn is_directly_in_region(ctx: &Context, op: Ptr<Operation>, region: Ptr<Region>) -> bool
    requires { IsLive ctx.now.tree op }
    ensures { IsTrue result ↔ IsDirectlyInRegion ctx.now.tree region op }
{
    match op.get_parent_block(ctx) {
        Some(block) => block.get_parent_region(ctx) == Some(region),
        None => false,
    }
}

/// The operation, or else the nearest of its ancestors, that is directly in the region; `None` exactly if there
/// is none.
///
/// Asks that the operation is live (`is_live` tests it). Cost: the depth of the operation.
pub fn find_ancestor_op_of_op_in_region(
    ctx: &Context,
    op: Ptr<Operation>,
    region: Ptr<Region>,
) -> Option<Ptr<Operation>>
    requires { IsLive ctx.now.tree op }
    ensures nearest { FindsNearest (IsInside ctx.now.tree) (IsAtOrAbove ctx.now.tree op)
        (IsDirectlyInRegion ctx.now.tree region) result }
    ensures liveness { IfSome result (λ a. IsLive ctx.now.tree a) }
{
    ctx.well_formed();
    let mut at = Some(op);
    while let Some(here) = at {
        if is_directly_in_region(ctx, here, region) {
            return Some(here);
        }
        at = here.get_parent_op(ctx);
    }
    None
}

/// The operation, or else the nearest of its ancestors, that is directly in the block; `None` exactly if there
/// is none.
///
/// Asks that the operation is live (`is_live` tests it). Cost: the depth of the operation.
pub fn find_ancestor_op_of_op_in_block(
    ctx: &Context,
    op: Ptr<Operation>,
    block: Ptr<BasicBlock>,
) -> Option<Ptr<Operation>>
    requires { IsLive ctx.now.tree op }
    ensures nearest { FindsNearest (IsInside ctx.now.tree) (IsAtOrAbove ctx.now.tree op)
        (IsDirectlyInBlock ctx.now.tree block) result }
    ensures liveness { IfSome result (λ a. IsLive ctx.now.tree a) }
{
    ctx.well_formed();
    let mut at = Some(op);
    while let Some(here) = at {
        if is_directly_in_block(ctx, here, block) {
            return Some(here);
        }
        at = here.get_parent_op(ctx);
    }
    None
}

/// The nearest of the blocks around the operation that is directly in the region; `None` exactly if there is
/// none.
///
/// Asks that the operation is live (`is_live` tests it). Cost: the depth of the operation.
pub fn find_ancestor_block_of_op_in_region(
    ctx: &Context,
    op: Ptr<Operation>,
    region: Ptr<Region>,
) -> Option<Ptr<BasicBlock>>
    requires { IsLive ctx.now.tree op }
    ensures nearest { FindsNearest (IsBlockInside ctx.now.tree) (λ b. IsInOperation ctx.now.tree b op)
        (IsDirectlyIn ctx.now.tree region) result }
    ensures liveness { IfSome result (λ b. IsBlock ctx.now.tree b) }
{
    ctx.well_formed();
    let above = find_ancestor_op_of_op_in_region(ctx, op, region)?;
    above.get_parent_block(ctx)
}

/// The block, or else the nearest of the blocks around it, that is directly in the region; `None` exactly if
/// there is none.
///
/// Asks that the block is live (`is_live` tests it). Cost: the depth of the block.
pub fn find_ancestor_block_of_block_in_region(
    ctx: &Context,
    block: Ptr<BasicBlock>,
    region: Ptr<Region>,
) -> Option<Ptr<BasicBlock>>
    requires { IsBlock ctx.now.tree block }
    ensures nearest { FindsNearest (IsBlockInside ctx.now.tree) (λ b. IsBlockWithin ctx.now.tree b block)
        (IsDirectlyIn ctx.now.tree region) result }
    ensures liveness { IfSome result (λ b. IsBlock ctx.now.tree b) }
{
    ctx.well_formed();
    let own = block.get_parent_region(ctx)?;
    if own == region {
        return Some(block);
    }
    find_ancestor_block_of_op_in_region(ctx, own.get_parent_op(ctx), region)
}

/// The nearest ancestor of the operation that is of this kind; `None` exactly if there is none. The operation
/// itself is not tested.
///
/// Asks that the operation is live (`is_live` tests it). Cost: the depth of the operation.
pub fn find_ancestor_of_op_type<D: Dialect>(
    ctx: &Context,
    op: Ptr<Operation>,
    kind: D::Kind,
) -> Option<Ptr<Operation>>
    requires { IsLive ctx.now.tree op }
    ensures nearest { FindsNearest (IsInside ctx.now.tree) (IsAncestor ctx.now.tree op)
        (HeadPasses (λ h. D.is_of_kind h kind) ctx.now.tree) result }
    ensures liveness { IfSome result (λ a. IsLive ctx.now.tree a) }
{
    ctx.well_formed();
    let mut at = op.get_parent_op(ctx);
    while let Some(above) = at {
        if D::is_kind(above, ctx, kind) {
            return Some(above);
        }
        at = above.get_parent_op(ctx);
    }
    None
}

/// The nearest ancestor of the operation that implements this interface; `None` exactly if there is none. The
/// operation itself is not tested.
///
/// Asks that the operation is live (`is_live` tests it). Cost: the depth of the operation.
pub fn find_ancestor_of_op_interface<D: Dialect>(
    ctx: &Context,
    op: Ptr<Operation>,
    interface: Interface,
) -> Option<Ptr<Operation>>
    requires { IsLive ctx.now.tree op }
    ensures nearest { FindsNearest (IsInside ctx.now.tree) (IsAncestor ctx.now.tree op)
        (HeadPasses (λ h. D.has_interface h interface) ctx.now.tree) result }
    ensures liveness { IfSome result (λ a. IsLive ctx.now.tree a) }
{
    ctx.well_formed();
    let mut at = op.get_parent_op(ctx);
    while let Some(above) = at {
        if D::implements(above, ctx, interface) {
            return Some(above);
        }
        at = above.get_parent_op(ctx);
    }
    None
}
