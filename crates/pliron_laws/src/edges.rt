//! Whether edges are last in their blocks.
ghost use Rattle.std.specs.Prelude.{◌≡◌, ◌≢◌, ◌↔◌, IsTrue, Some, None};
ghost use Rattle.pliron_core.specs.Tree.{IsLive, IsBlock, IsRegion, body_of, block_parent_of, last_of};
ghost use Rattle.pliron_laws.specs.Linked.{EdgesLast};
ghost use Rattle.pliron_laws.specs.EdgeChecks.{HasOwnSuccessors, HasOwnUsers, RegionHasOwnUsers, OpHasOwnUsers, EndsBlockIf, HasLawfulEdges, region_around};

use pliron_core::{BasicBlock, Context, Operation, Ptr, Region};

/// The region of the block. Asks that the block is live (`is_live` tests it). Cost: constant.
pub fn region_of(ctx: &Context, block: Ptr<BasicBlock>) -> Ptr<Region>
    requires { IsBlock ctx.now.tree block }
    ensures { block_parent_of ctx.now.tree block ≡ Some result }
{
    match block.get_parent_region(ctx) {
        Some(region) => region,
        None => unreachable!(),
    }
}

/// Whether the operation is directly in the region. Asks that the operation is live (`is_live` tests it).
/// Cost: constant.
pub fn is_directly_in(ctx: &Context, op: Ptr<Operation>, region: Ptr<Region>) -> bool
    requires { IsLive ctx.now.tree op }
    ensures { IsTrue result ↔ (region_around ctx.now.tree op ≡ Some region) }
{
    match op.get_parent_block(ctx) {
        Some(block) => region_of(ctx, block) == region,
        None => false,
    }
}

// Whether all successors of the operation are blocks of the region of this one.
fn has_own_successors(ctx: &Context, op: Ptr<Operation>, block: Ptr<BasicBlock>) -> bool
    requires live { IsLive ctx.now.tree op }
    requires block { IsBlock ctx.now.tree block }
    ensures { IsTrue result ↔ HasOwnSuccessors ctx.now.tree op block }
{
    let region = region_of(ctx, block);
    for i in 0..op.num_successor(ctx) {
        if region_of(ctx, op.get_successor(ctx, i)) != region {
            return false;
        }
    }
    true
}

/// Whether the operation is the last of the block. Asks that the block is live (`is_live` tests it). Cost:
/// constant.
pub fn is_last(ctx: &Context, op: Ptr<Operation>, block: Ptr<BasicBlock>) -> bool
    requires { IsBlock ctx.now.tree block }
    ensures { IsTrue result ↔ (last_of None (body_of ctx.now.tree block) ≡ Some op) }
{
    match block.get_tail(ctx) {
        Some(last) => last == op,
        None => false,
    }
}

/// Whether the operation, if it has successors, is the last of its block and has only blocks of its own region
/// as successors. Asks that the operation is live (`is_live` tests it). Cost: linear in its successors.
pub fn ends_block(ctx: &Context, op: Ptr<Operation>) -> bool
    requires { IsLive ctx.now.tree op }
    ensures { IsTrue result ↔ EndsBlockIf ctx.now.tree op }
{
    if op.num_successor(ctx) == 0 {
        return true;
    }
    match op.get_parent_block(ctx) {
        Some(block) => is_last(ctx, op, block) && has_own_successors(ctx, op, block),
        None => false,
    }
}

// Whether all operations that have the block as successor are in its region.
fn has_own_users(ctx: &Context, block: Ptr<BasicBlock>) -> bool
    requires { IsBlock ctx.now.tree block }
    ensures { IsTrue result ↔ HasOwnUsers ctx.now.tree block }
{
    ctx.well_formed();
    let region = region_of(ctx, block);
    for i in 0..block.num_use(ctx) {
        let (user, _) = block.get_use(ctx, i);
        if !is_directly_in(ctx, user, region) {
            return false;
        }
    }
    true
}

// Whether this holds of all blocks of the region.
fn region_has_own_users(ctx: &Context, region: Ptr<Region>) -> bool
    requires { IsRegion ctx.now.tree region }
    ensures { IsTrue result ↔ RegionHasOwnUsers ctx.now.tree region }
{
    ctx.well_formed();
    let mut at = region.get_head(ctx);
    while let Some(block) = at {
        if !has_own_users(ctx, block) {
            return false;
        }
        at = block.get_next(ctx);
    }
    true
}

// Whether this holds of all blocks of the regions of the operation.
fn op_has_own_users(ctx: &Context, op: Ptr<Operation>) -> bool
    requires { IsLive ctx.now.tree op }
    ensures { IsTrue result ↔ OpHasOwnUsers ctx.now.tree op }
{
    for i in 0..op.num_region(ctx) {
        if !region_has_own_users(ctx, op.get_region(ctx, i)) {
            return false;
        }
    }
    true
}

// Whether the operation, unless it is the root, ends its block if it has successors, and its own blocks are
// successors only of operations in the same region.
fn has_lawful_edges(ctx: &Context, root: Ptr<Operation>, op: Ptr<Operation>) -> bool
    requires { IsLive ctx.now.tree op }
    ensures { IsTrue result ↔ HasLawfulEdges ctx.now.tree root op }
{
    if op != root && !ends_block(ctx, op) {
        return false;
    }
    op_has_own_users(ctx, op)
}

/// Whether each operation that is inside `root` and has successors, or has a block inside `root` as successor,
/// is the last of its block and has only blocks of its own region as successors.
///
/// Asks that `root` is live. Takes no memory. Cost: one step for each operation, block, region and successor
/// inside `root`, and for each use of such a block.
pub fn edges_last(root: Ptr<Operation>, ctx: &Context) -> bool
    requires { IsLive ctx.now.tree root }
    ensures { IsTrue result ↔ EdgesLast ctx.now.tree root }
{
    ctx.well_formed();
    let mut at = Some(root);
    while let Some(op) = at {
        if !has_lawful_edges(ctx, root, op) {
            return false;
        }
        at = op.next_in_preorder(root, ctx);
    }
    true
}
