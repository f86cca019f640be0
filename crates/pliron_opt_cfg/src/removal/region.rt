//! One region loses its unreachable blocks.
ghost use Rattle.std.specs.Prelude.{◌≡◌, ◌↔◌, ◌⊎◌, ℕ, Some, IfOk, IfErr};
ghost use Rattle.pliron_core.specs.Tree.{In, IsDistinct, block_parent_of};
ghost use Rattle.pliron_laws.specs.declared.fault.OptError.TheVariants.{LiveUse, Memory};
ghost use Rattle.pliron_theory.specs.Keeps.{KeepsAllRuns};
ghost use Rattle.pliron_graph_traversal.specs.Regions.{IsLawfulRegion};
ghost use Rattle.pliron_rewrite_blocks.specs.Cutting.{AreCut};
ghost use Rattle.pliron_rewrite_blocks.specs.Leaving.{BlocksMayGo};
ghost use Rattle.pliron_opt_cfg.specs.Visited.{IsReachedIn};
ghost use Rattle.pliron_opt_cfg.specs.Removed.{HasLiveUse};
ghost use Rattle.pliron_opt_cfg.specs.Internal.Clears.{ClearsRegion};

use crate::removal::contents::blocks_left;
use crate::removal::erasing::{drop_uses, erase_each};
use crate::removal::uses::check_uses;
use indexmap::IndexSet;
use pliron_core::{BasicBlock, Context, IRStatus, Ptr, Region, Rewriter};
use pliron_laws::{Dialect, OptError, Room};
use pliron_rewrite_blocks::removal::blocks_go;
use std::alloc::Global;

// The blocks are erased, whatever they use of one another. Takes no memory in the tree.
fn erase_blocks<D: Dialect, R: Rewriter>(
    ctx: &mut Context,
    region: Ptr<Region>,
    blocks: &[Ptr<BasicBlock>],
    rewriter: &mut R,
)
    requires lawful { IsLawfulRegion ctx.old.tree region }
    requires may { BlocksMayGo ctx.old.tree region blocks.now }
    requires distinct { IsDistinct blocks.now }
    ensures cut { AreCut ctx.old.tree ctx.new.tree region blocks.now }
    ensures runs { KeepsAllRuns D.meaning ctx.old.tree ctx.new.tree }
    ensures point { R.point rewriter.new ≡ R.point rewriter.old }
{
    blocks_go();
    ctx.well_formed();
    drop_uses(ctx, blocks);
    ctx.well_formed();
    erase_each(ctx, region, blocks, rewriter);
    ctx.well_formed();
}

// The blocks of the region that are not reached are erased, all in one rewrite.
pub(crate) fn clear_region<D: Dialect, R: Rewriter + Room>(
    alloc: Global,
    ctx: &mut Context,
    region: Ptr<Region>,
    reached: &IndexSet<Ptr<BasicBlock>>,
    rewriter: &mut R,
) -> Result<IRStatus, OptError>
    requires lawful { IsLawfulRegion ctx.old.tree region }
    requires reached { (b : ℕ) → block_parent_of ctx.old.tree b ≡ Some region
        → (In b reached.now.keys ↔ IsReachedIn ctx.old.tree region b) }
    ensures ok { IfOk result (λ status. ClearsRegion D.meaning ctx.old.tree ctx.new.tree region status) }
    ensures err { IfErr result (λ e. (ctx.new.tree ≡ ctx.old.tree)
        × ((e ≡ Memory) ⊎ ((e ≡ LiveUse) × HasLiveUse ctx.old.tree region))) }
{
    ctx.well_formed();
    let blocks = blocks_left(alloc, ctx, region, reached)?;
    if blocks.is_empty() {
        return Ok(IRStatus::Unchanged);
    }
    check_uses(alloc, ctx, &blocks)?;
    rewriter.room(alloc, blocks.len())?;
    erase_blocks::<D, R>(ctx, region, &blocks, rewriter);
    Ok(IRStatus::Changed)
}
