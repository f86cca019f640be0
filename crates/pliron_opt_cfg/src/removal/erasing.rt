//! Blocks are erased, whatever they use of one another.
ghost use Rattle.std.specs.Prelude.{◌≡◌, ℕ, Some};
ghost use Rattle.pliron_core.specs.Tree.{In, IsBlock, IsDistinct, block_parent_of};
ghost use Rattle.pliron_rewrite_blocks.specs.Cutting.{ErasesAll};
ghost use Rattle.pliron_rewrite_blocks.specs.Leaving.{DropsAll};
ghost use Rattle.pliron_opt_cfg.specs.Internal.Unnamed.{IsUnnamedBlock};

use pliron_core::{BasicBlock, Context, Ptr, Region, Rewriter};

// The operations in the blocks, at any depth, lose operands and successors.
pub(crate) fn drop_uses(ctx: &mut Context, blocks: &[Ptr<BasicBlock>])
    requires { (b : ℕ) → In b blocks.now → IsBlock ctx.old.tree b }
    ensures { DropsAll blocks.now ctx.old.tree ctx.new.tree }
{
    for block in blocks {
        BasicBlock::drop_all_uses(ctx, *block);
    }
}

// The blocks of the region are erased, one after the other, where nothing names their contents.
pub(crate) fn erase_each<R: Rewriter>(
    ctx: &mut Context,
    region: Ptr<Region>,
    blocks: &[Ptr<BasicBlock>],
    rewriter: &mut R,
)
    requires own { (b : ℕ) → In b blocks.now → block_parent_of ctx.old.tree b ≡ Some region }
    requires distinct { IsDistinct blocks.now }
    requires unnamed { (b : ℕ) → In b blocks.now → IsUnnamedBlock ctx.old.tree b }
    ensures erased { ErasesAll blocks.now ctx.old.tree ctx.new.tree }
    ensures point { R.point rewriter.new ≡ R.point rewriter.old }
{
    ctx.well_formed();
    let _region = region;
    for block in blocks {
        rewriter.erase_block(ctx, *block);
        ctx.well_formed();
    }
}
