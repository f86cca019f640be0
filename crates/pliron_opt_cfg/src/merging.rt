//! Merging of blocks that need not be apart.
//!
//! Where a branch leads to one block alone, and nothing else leads there, the two blocks are merged: the values
//! that the branch forwards replace the arguments of the second block, the branch is erased, and the operations
//! of the second block become the last of the first one.
//!
//! It knows the regions that are visited, and the rewrites of blocks. It knows nothing of branches that fold, of
//! unreachable blocks, of passes or of any dialect.
//!
//! Not merged: a block with itself; the entry; a block with another predecessor; what ends in no branch; a pair
//! whose branch forwards another number of values than there are arguments, or an argument of the second block.
//! One predecessor is one use, since edges end blocks. Blocks are taken in pliron's order: a search with the
//! last successor first, and after a block those of the regions nested in it. A region without dominance loses
//! no block and merges none.
ghost use Rattle.std.specs.Prelude.{◌≡◌, ◌∷◌, [], ℕ, Some, IfOk, OnOk, OnErr, IsOkUnless};
ghost use Rattle.pliron_core.specs.Tree.{In, IsBlock, IsLive, IsRegion, IsWithin, block_parent_operation_of, region_parent_of};
ghost use Rattle.pliron_laws.specs.Linked.{IsWellLinked};
ghost use Rattle.pliron_theory.specs.Change.{IsWholeChange};
ghost use Rattle.pliron_rewrite_blocks.specs.Links.{KeepsLinks};
ghost use Rattle.pliron_opt_cfg.specs.Visited.{IsUnreachable, OfBlock, OfOperation, OfRegion};
ghost use Rattle.pliron_opt_cfg.specs.Merged.{LosesOperation, MergesAll, MergesPartly};
ghost use Rattle.pliron_opt_cfg.specs.Internal.Chains.{MergesAmong, MergesAmongPartly, HasNoPairAmong, ReportsMerged};

mod joining;
mod pairs;

use crate::merging::joining::merge_pair;
use crate::merging::pairs::find_pair;
use crate::visits::{visits_inside_block, visits_inside_op, visits_inside_region};
use pliron_core::{BasicBlock, Context, IRStatus, Operation, Ptr, Region, Rewriter};
use pliron_laws::{Dialect, OptError, Room};
use std::alloc::Global;

// Merges pairs whose first block this is, until there is none.
fn merge_at<D: Dialect, R: Rewriter + Room>(
    alloc: Global,
    first: Ptr<BasicBlock>,
    ctx: &mut Context,
    rewriter: &mut R,
) -> Result<IRStatus, OptError>
    requires block { IsBlock ctx.old.tree first }
    requires linked { (holder : ℕ) → block_parent_operation_of ctx.old.tree first ≡ Some holder → IsWellLinked D.meaning
        ctx.old.tree holder }
    ensures ok { IfOk result (λ status. MergesAmong D.meaning (first ∷ []) ctx.old.tree ctx.new.tree × HasNoPairAmong
        D.meaning (first ∷ []) ctx.new.tree × ReportsMerged D.meaning (first ∷ []) ctx.old.tree ctx.new.tree status) }
    ensures refused { OnErr result (MergesAmongPartly D.meaning (first ∷ []) ctx.old.tree ctx.new.tree) }
    ensures memory { IsOkUnless result OptError.Memory }
{
    ctx.well_formed();
    let mut status = IRStatus::Unchanged;
    while let Some(pair) = find_pair::<D>(alloc, first, ctx)? {
        let merged = merge_pair::<D, R>(alloc, ctx, &pair, rewriter);
        ctx.well_formed();
        merged?;
        status = IRStatus::Changed;
    }
    Ok(status)
}

// Merges pairs whose first block is one of these, until there is none.
fn merge_among<D: Dialect, R: Rewriter + Room>(
    alloc: Global,
    blocks: &[Ptr<BasicBlock>],
    ctx: &mut Context,
    rewriter: &mut R,
) -> Result<IRStatus, OptError>
    requires linked { (c holder : ℕ) → In c blocks.now → block_parent_operation_of ctx.old.tree c ≡ Some holder
        → IsWellLinked D.meaning ctx.old.tree holder }
    ensures ok { IfOk result (λ status. MergesAmong D.meaning blocks.now ctx.old.tree ctx.new.tree × HasNoPairAmong
        D.meaning blocks.now ctx.new.tree × ReportsMerged D.meaning blocks.now ctx.old.tree ctx.new.tree status) }
    ensures refused { OnErr result (MergesAmongPartly D.meaning blocks.now ctx.old.tree ctx.new.tree) }
    ensures memory { IsOkUnless result OptError.Memory }
{
    ctx.well_formed();
    let mut status = IRStatus::Unchanged;
    for block in blocks {
        ctx.well_formed();
        if block.is_live(ctx) {
            let merged = merge_at::<D, R>(alloc, *block, ctx, rewriter)?;
            status |= merged;
        }
    }
    Ok(status)
}

/// Merges pairs of blocks in the regions with SSA dominance that it visits inside the operation, until none is
/// left whose first block the entry of its region reaches. It visits the regions of the operation, and at those
/// of each operation in a block that the entry reaches, or in the first block where a region has no SSA
/// dominance.
///
/// A pair is a block that ends with a branch to one other block alone, which is not the entry and has no
/// other predecessor, where the branch forwards a value for each argument of that block, none of them one
/// of these arguments.
///
/// Asks that the operation is live and is well linked. Answers `Changed` exactly if there was a pair. No block
/// is made, and each that is unreachable after was unreachable before.
///
/// Errors: allocation failure. Some pairs are merged then, and of one more the uses of some first arguments may
/// name the values forwarded to them.
///
/// Cost: that of the search for what it visits, one read of the end of each block that is reached, one step for
/// each operation that moves and for each use of an argument that is replaced. An operation moves once at most,
/// since a block comes behind its only predecessor in the search.
pub fn merge_inside_op<D: Dialect, R: Rewriter + Room>(
    alloc: Global,
    op: Ptr<Operation>,
    ctx: &mut Context,
    rewriter: &mut R,
) -> Result<IRStatus, OptError>
    requires live { IsLive ctx.old.tree op }
    requires linked { IsWellLinked D.meaning ctx.old.tree op }
    ensures ok { IfOk result (λ status. MergesAll (OfOperation op) D.meaning ctx.old.tree ctx.new.tree status) }
    ensures loses_operation { IfOk result (λ status. LosesOperation status ctx.old.tree ctx.new.tree) }
    ensures unreachable { OnOk result ((b : ℕ) → IsUnreachable (OfOperation op) ctx.new.tree b → IsUnreachable
        (OfOperation op) ctx.old.tree b) }
    ensures blocks { OnOk result ((b : ℕ) → IsBlock ctx.new.tree b → IsBlock ctx.old.tree b) }
    ensures refused { OnErr result (MergesPartly (OfOperation op) D.meaning ctx.old.tree ctx.new.tree) }
    ensures memory { IsOkUnless result OptError.Memory }
    ensures change { IsWholeChange D.meaning ctx.old.tree ctx.new.tree op }
    ensures links { KeepsLinks D.meaning ctx.old.tree ctx.new.tree }
{
    ctx.well_formed();
    let visits = visits_inside_op(alloc, ctx, op)?;
    merge_among::<D, R>(alloc, &visits.blocks, ctx, rewriter)
}

/// Merges pairs of blocks in the regions that it visits inside the operations of the block.
///
/// Asks that the block is live and that the parent operation is well linked; answers as [`merge_inside_op`].
/// Errors: as [`merge_inside_op`]. Cost: as [`merge_inside_op`].
pub fn merge_inside_block<D: Dialect, R: Rewriter + Room>(
    alloc: Global,
    block: Ptr<BasicBlock>,
    ctx: &mut Context,
    rewriter: &mut R,
) -> Result<IRStatus, OptError>
    requires block { IsBlock ctx.old.tree block }
    requires linked { (holder : ℕ) → block_parent_operation_of ctx.old.tree block ≡ Some holder → IsWellLinked D.meaning
        ctx.old.tree holder }
    ensures ok { IfOk result (λ status. MergesAll (OfBlock block) D.meaning ctx.old.tree ctx.new.tree status) }
    ensures loses_operation { IfOk result (λ status. LosesOperation status ctx.old.tree ctx.new.tree) }
    ensures unreachable { OnOk result ((b : ℕ) → IsUnreachable (OfBlock block) ctx.new.tree b → IsUnreachable
        (OfBlock block) ctx.old.tree b) }
    ensures blocks { OnOk result ((b : ℕ) → IsBlock ctx.new.tree b → IsBlock ctx.old.tree b) }
    ensures refused { OnErr result (MergesPartly (OfBlock block) D.meaning ctx.old.tree ctx.new.tree) }
    ensures memory { IsOkUnless result OptError.Memory }
    ensures change { (holder : ℕ) → block_parent_operation_of ctx.old.tree block ≡ Some holder → IsWholeChange D.meaning
        ctx.old.tree ctx.new.tree holder }
    ensures links { KeepsLinks D.meaning ctx.old.tree ctx.new.tree }
{
    ctx.well_formed();
    let visits = visits_inside_block(alloc, ctx, block)?;
    merge_among::<D, R>(alloc, &visits.blocks, ctx, rewriter)
}

/// Merges pairs of blocks in the region, where it has SSA dominance, and in the regions that it visits inside.
///
/// Asks that the region is live and that the parent operation is well linked; answers as [`merge_inside_op`].
/// Errors: as [`merge_inside_op`]. Cost: as [`merge_inside_op`].
pub fn merge_inside_region<D: Dialect, R: Rewriter + Room>(
    alloc: Global,
    region: Ptr<Region>,
    ctx: &mut Context,
    rewriter: &mut R,
) -> Result<IRStatus, OptError>
    requires region { IsRegion ctx.old.tree region }
    requires linked { (holder : ℕ) → region_parent_of ctx.old.tree region ≡ Some holder → IsWellLinked D.meaning
        ctx.old.tree holder }
    ensures ok { IfOk result (λ status. MergesAll (OfRegion region) D.meaning ctx.old.tree ctx.new.tree status) }
    ensures loses_operation { IfOk result (λ status. LosesOperation status ctx.old.tree ctx.new.tree) }
    ensures unreachable { OnOk result ((b : ℕ) → IsUnreachable (OfRegion region) ctx.new.tree b → IsUnreachable
        (OfRegion region) ctx.old.tree b) }
    ensures blocks { OnOk result ((b : ℕ) → IsBlock ctx.new.tree b → IsBlock ctx.old.tree b) }
    ensures refused { OnErr result (MergesPartly (OfRegion region) D.meaning ctx.old.tree ctx.new.tree) }
    ensures memory { IsOkUnless result OptError.Memory }
    ensures change { (holder : ℕ) → region_parent_of ctx.old.tree region ≡ Some holder → IsWholeChange D.meaning
        ctx.old.tree ctx.new.tree holder }
    ensures links { KeepsLinks D.meaning ctx.old.tree ctx.new.tree }
{
    ctx.well_formed();
    let visits = visits_inside_region(alloc, ctx, region)?;
    merge_among::<D, R>(alloc, &visits.blocks, ctx, rewriter)
}
