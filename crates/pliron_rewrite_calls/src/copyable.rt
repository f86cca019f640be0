//! What a copy of blocks asks of them, tested.
ghost use Rattle.std.specs.Prelude.{◌≡◌, ◌↔◌, [], ℕ, IsTrue, IfOk, IsOkUnless};
ghost use Rattle.pliron_core.specs.Tree.{In, IsBlock, IsDistinct, body_of, regions_of};
ghost use Rattle.pliron_rewrite_calls.specs.Copyable.{AreCopyable};
ghost use Rattle.pliron_rewrite_calls.specs.Copying.{AreChildless};

use indexmap::IndexSet;
use pliron_core::{BasicBlock, Context, Ptr};
use pliron_laws::OptError;
use std::alloc::Global;

// Whether no operation in the block has regions.
fn is_childless(block: Ptr<BasicBlock>, ctx: &Context) -> bool
    requires { IsBlock ctx.now.tree block }
    ensures { IsTrue result ↔ ((k : ℕ) → In k (body_of ctx.now.tree block) → regions_of ctx.now.tree k ≡ []) }
{
    ctx.well_formed();
    let mut at = block.get_head(ctx);
    while let Some(op) = at {
        if op.num_region(ctx) != 0 {
            return false;
        }
        at = op.get_next(ctx);
    }
    true
}

// Whether the blocks are live, and no operation in them has regions.
fn are_childless(blocks: &[Ptr<BasicBlock>], ctx: &Context) -> bool
    ensures { IsTrue result ↔ (((b : ℕ) → In b blocks.now → IsBlock ctx.now.tree b) × AreChildless ctx.now.tree
        blocks.now) }
{
    for block in blocks {
        if !block.is_live(ctx) {
            return false;
        }
        if !is_childless(*block, ctx) {
            return false;
        }
    }
    true
}

// Whether no block is there twice.
fn are_distinct(alloc: Global, blocks: &[Ptr<BasicBlock>]) -> Result<bool, OptError>
    ensures distinct { IfOk result (λ apart. IsTrue apart ↔ IsDistinct blocks.now) }
    ensures memory { IsOkUnless result OptError.Memory }
{
    let mut seen = IndexSet::new(alloc);
    for block in blocks {
        if !seen.insert(*block)? {
            return Ok(false);
        }
    }
    Ok(true)
}

/// Whether `copy_blocks` may copy these blocks: they are live and apart, and no operation in them has regions. Errors:
/// allocation failure. Cost: linear in the blocks and their operations.
pub fn may_copy_blocks(
    alloc: Global,
    blocks: &[Ptr<BasicBlock>],
    ctx: &Context,
) -> Result<bool, OptError>
    ensures copyable { IfOk result (λ may. IsTrue may ↔ AreCopyable ctx.now.tree blocks.now) }
    ensures memory { IsOkUnless result OptError.Memory }
{
    if !are_childless(blocks, ctx) {
        return Ok(false);
    }
    are_distinct(alloc, blocks)
}
