//! Unreachable blocks are erased: those of a region in one rewrite, nested regions first.
//!
//! It knows which blocks the entry of a region leads to, and the rewrites of blocks. It knows nothing of branches
//! that fold, of blocks that are merged, of passes or of any dialect.
ghost use Rattle.std.specs.Prelude.{◌≡◌, ◌↔◌, ◌⊎◌, ℕ, Some, IfOk, IfErr};
ghost use Rattle.pliron_core.specs.declared.attrs.IRStatus.TheVariants.{Unchanged};
ghost use Rattle.pliron_core.specs.Tree.{IsLive, IsBlock, IsRegion, block_parent_operation_of, region_parent_of};
ghost use Rattle.pliron_laws.specs.Linked.{IsWellLinked};
ghost use Rattle.pliron_theory.specs.Change.{IsWholeChange};
ghost use Rattle.pliron_rewrite_blocks.specs.Links.{KeepsLinks};
ghost use Rattle.pliron_opt_cfg.specs.Visited.{OfBlock, OfOperation, OfRegion};
ghost use Rattle.pliron_opt_cfg.specs.Visits.{AreVisits};
ghost use Rattle.pliron_opt_cfg.specs.Removed.{RemovesAll, RemovalFails};
ghost use Rattle.pliron_opt_cfg.specs.Internal.Scopes.{start_of_scope, IsScopeLive, IsHolder};
ghost use Rattle.pliron_opt_cfg.specs.Internal.Cleared.{status_after_more};

mod contents;
mod erasing;
mod region;
mod scope;
mod uses;

use crate::removal::contents::set_of_blocks;
use crate::removal::region::clear_region;
use crate::removal::scope::RemovalScope;
use crate::visits::Visits;
use indexmap::IndexSet;
use pliron_core::{BasicBlock, Context, IRStatus, Operation, Ptr, Region, Rewriter, change_laws};
use pliron_laws::{Dialect, OptError, Room};
use pliron_rewrite_blocks::inside::removing_changes_inside;
use pliron_rewrite_blocks::links::removing_keeps_links;
use pliron_theory::theory::whole_passes_compose;
use std::alloc::Global;

// The status after one more part of the work.
fn with_more(status: IRStatus, more: IRStatus) -> IRStatus
    ensures { result ≡ status_after_more more status }
{
    match more {
        IRStatus::Changed => IRStatus::Changed,
        IRStatus::Unchanged => status,
    }
}

// The regions lose their unreachable blocks, the last one first.
fn clear_regions<D: Dialect, R: Rewriter + Room>(
    alloc: Global,
    scope: &RemovalScope,
    ctx: &mut Context,
    mut regions: Vec<Ptr<Region>>,
    reached: &IndexSet<Ptr<BasicBlock>>,
    rewriter: &mut R,
) -> Result<IRStatus, OptError>
    requires liveness { IsScopeLive ctx.old.tree scope.now }
    requires linked { (holder : ℕ) → IsHolder ctx.old.tree scope.now holder → IsWellLinked D.meaning ctx.old.tree
        holder }
    requires visits { AreVisits ctx.old.tree (start_of_scope scope.now ctx.old.tree) regions.items reached.now.keys }
    ensures ok { IfOk result (λ status. RemovesAll (start_of_scope scope.now) ctx.old.tree ctx.new.tree status) }
    ensures err { IfErr result (λ e. RemovalFails (start_of_scope scope.now) ctx.old.tree ctx.new.tree e) }
    ensures change { (holder : ℕ) → IsHolder ctx.old.tree scope.now holder → IsWholeChange D.meaning ctx.old.tree
        ctx.new.tree holder }
    ensures links { KeepsLinks D.meaning ctx.old.tree ctx.new.tree }
{
    whole_passes_compose();
    removing_keeps_links();
    removing_changes_inside();
    change_laws();
    ctx.well_formed();
    let mut status = IRStatus::Unchanged;
    while let Some(region) = regions.pop() {
        ctx.well_formed();
        let cleared = clear_region::<D, R>(alloc, ctx, region, reached, rewriter);
        ctx.well_formed();
        status = with_more(status, cleared?);
    }
    Ok(status)
}

// What is unreachable in the scope is erased.
fn remove_blocks_in<D: Dialect, R: Rewriter + Room>(
    alloc: Global,
    scope: &RemovalScope,
    ctx: &mut Context,
    rewriter: &mut R,
) -> Result<IRStatus, OptError>
    requires liveness { IsScopeLive ctx.old.tree scope.now }
    requires linked { (holder : ℕ) → IsHolder ctx.old.tree scope.now holder → IsWellLinked D.meaning ctx.old.tree
        holder }
    ensures ok { IfOk result (λ status. RemovesAll (start_of_scope scope.now) ctx.old.tree ctx.new.tree status) }
    ensures err { IfErr result (λ e. RemovalFails (start_of_scope scope.now) ctx.old.tree ctx.new.tree e) }
    ensures accurate { IfOk result (λ a. (a ≡ Unchanged) ↔ (ctx.new.tree ≡ ctx.old.tree)) }
    ensures change { (holder : ℕ) → IsHolder ctx.old.tree scope.now holder → IsWholeChange D.meaning ctx.old.tree
        ctx.new.tree holder }
    ensures links { KeepsLinks D.meaning ctx.old.tree ctx.new.tree }
{
    whole_passes_compose();
    ctx.well_formed();
    let Visits { regions, blocks } = scope.visits(alloc, ctx)?;
    let reached = set_of_blocks(alloc, &blocks)?;
    clear_regions::<D, R>(alloc, scope, ctx, regions, &reached, rewriter)
}

/// Removes the unreachable blocks of the regions with SSA dominance inside the operation: all of one region in
/// one rewrite, those of nested regions first. The contents of an unreachable block are not visited, and a
/// region without SSA dominance, which is entered through its first block alone, loses none.
///
/// Asks that the operation is live and is well linked. Answers `Changed` exactly if a block was erased; no
/// unreachable block of such a region is left.
///
/// Errors: allocation failure; `LiveUse` where a value of an unreachable block is used outside the unreachable
/// blocks of its region, of which none is removed then. The tree is then one after some whole rewrites:
/// regions that came before are done.
///
/// Cost: linear in the blocks, edges and operations that are visited and in what is erased, with one table
/// look-up for each of them and for each use of what is erased.
pub fn remove_blocks_inside_op<D: Dialect, R: Rewriter + Room>(
    alloc: Global,
    op: Ptr<Operation>,
    ctx: &mut Context,
    rewriter: &mut R,
) -> Result<IRStatus, OptError>
    requires live { IsLive ctx.old.tree op }
    requires linked { IsWellLinked D.meaning ctx.old.tree op }
    ensures ok { IfOk result (λ status. RemovesAll (OfOperation op) ctx.old.tree ctx.new.tree status) }
    ensures err { IfErr result (λ e. RemovalFails (OfOperation op) ctx.old.tree ctx.new.tree e) }
    ensures accurate { IfOk result (λ a. (a ≡ Unchanged) ↔ (ctx.new.tree ≡ ctx.old.tree)) }
    ensures change { IsWholeChange D.meaning ctx.old.tree ctx.new.tree op }
    ensures links { KeepsLinks D.meaning ctx.old.tree ctx.new.tree }
{
    remove_blocks_in::<D, R>(alloc, &RemovalScope::Operation(op), ctx, rewriter)
}

/// Removes the unreachable blocks of the regions with SSA dominance inside the operations of the block.
///
/// Asks that the block is live and that the parent operation is well linked; answers as
/// [`remove_blocks_inside_op`].
/// Errors: as [`remove_blocks_inside_op`]. Cost: as [`remove_blocks_inside_op`].
pub fn remove_blocks_inside_block<D: Dialect, R: Rewriter + Room>(
    alloc: Global,
    block: Ptr<BasicBlock>,
    ctx: &mut Context,
    rewriter: &mut R,
) -> Result<IRStatus, OptError>
    requires block { IsBlock ctx.old.tree block }
    requires linked { (holder : ℕ) → block_parent_operation_of ctx.old.tree block ≡ Some holder → IsWellLinked D.meaning
        ctx.old.tree holder }
    ensures ok { IfOk result (λ status. RemovesAll (OfBlock block) ctx.old.tree ctx.new.tree status) }
    ensures err { IfErr result (λ e. RemovalFails (OfBlock block) ctx.old.tree ctx.new.tree e) }
    ensures accurate { IfOk result (λ a. (a ≡ Unchanged) ↔ (ctx.new.tree ≡ ctx.old.tree)) }
    ensures change { (holder : ℕ) → block_parent_operation_of ctx.old.tree block ≡ Some holder → IsWholeChange D.meaning
        ctx.old.tree ctx.new.tree holder }
    ensures links { KeepsLinks D.meaning ctx.old.tree ctx.new.tree }
{
    remove_blocks_in::<D, R>(alloc, &RemovalScope::Block(block), ctx, rewriter)
}

/// Removes the unreachable blocks of the region, where it has SSA dominance, and of the regions with SSA
/// dominance inside.
///
/// Asks that the region is live and that the parent operation is well linked; answers as
/// [`remove_blocks_inside_op`].
/// Errors: as [`remove_blocks_inside_op`]. Cost: as [`remove_blocks_inside_op`].
pub fn remove_blocks_inside_region<D: Dialect, R: Rewriter + Room>(
    alloc: Global,
    region: Ptr<Region>,
    ctx: &mut Context,
    rewriter: &mut R,
) -> Result<IRStatus, OptError>
    requires region { IsRegion ctx.old.tree region }
    requires linked { (holder : ℕ) → region_parent_of ctx.old.tree region ≡ Some holder → IsWellLinked D.meaning
        ctx.old.tree holder }
    ensures ok { IfOk result (λ status. RemovesAll (OfRegion region) ctx.old.tree ctx.new.tree status) }
    ensures err { IfErr result (λ e. RemovalFails (OfRegion region) ctx.old.tree ctx.new.tree e) }
    ensures accurate { IfOk result (λ a. (a ≡ Unchanged) ↔ (ctx.new.tree ≡ ctx.old.tree)) }
    ensures change { (holder : ℕ) → region_parent_of ctx.old.tree region ≡ Some holder → IsWholeChange D.meaning
        ctx.old.tree ctx.new.tree holder }
    ensures links { KeepsLinks D.meaning ctx.old.tree ctx.new.tree }
{
    remove_blocks_in::<D, R>(alloc, &RemovalScope::Region(region), ctx, rewriter)
}
