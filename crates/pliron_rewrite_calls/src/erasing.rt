//! New blocks at the end of a region are erased again.
ghost use Rattle.std.specs.Prelude.{◌≡◌, ◌≤◌, None, Some, IsTrue, ◌↔◌, length};
ghost use Rattle.pliron_core.specs.Tree.{Tree, IsRegion, layout_of, last_of};
ghost use Rattle.pliron_core.specs.Invariant.{IsTree};
ghost use Rattle.pliron_core.specs.Changes.{IsSameTree};
ghost use Rattle.pliron_rewrite_calls.specs.CopySteps.{IsGrownIn, AreBare};

use pliron_core::{BasicBlock, Context, Ptr, Region, Rewriter};

// Whether it is this block.
fn is_block(at: &Option<Ptr<BasicBlock>>, block: Ptr<BasicBlock>) -> bool
    ensures { IsTrue result ↔ (at.now ≡ Some block) }
{
    match at {
        Some(other) => *other == block,
        None => false,
    }
}

// What is in the blocks behind the last one loses operands and successors.
fn drop_new_uses(region: Ptr<Region>, last: &Option<Ptr<BasicBlock>>, ctx: &mut Context)
    ghost t: { Tree }
    requires tree { IsTree t }
    requires region { IsRegion t region }
    requires grown { IsGrownIn t ctx.old.tree region }
    requires last { last.now ≡ last_of None (layout_of t region) }
    ensures grown { IsGrownIn t ctx.new.tree region }
    ensures bare { AreBare t ctx.new.tree }
{
    ctx.well_formed();
    let mut at = region.get_tail(ctx);
    while let Some(block) = at {
        ctx.well_formed();
        if is_block(last, block) {
            return;
        }
        BasicBlock::drop_all_uses(ctx, block);
        at = block.get_prev(ctx);
    }
    ctx.well_formed();
}

// Erases the blocks of the region behind this last one, if it has one, with all that is new.
pub(crate) fn erase_new_blocks<R: Rewriter>(
    region: Ptr<Region>,
    last: &Option<Ptr<BasicBlock>>,
    ctx: &mut Context,
    rewriter: &mut R,
)
    ghost t: { Tree }
    requires tree { IsTree t }
    requires region { IsRegion t region }
    requires grown { IsGrownIn t ctx.old.tree region }
    requires last { last.now ≡ last_of None (layout_of t region) }
    ensures same { IsSameTree t ctx.new.tree }
    ensures longer { length t.operations ≤ length ctx.new.tree.operations }
    ensures point { R.point rewriter.new ≡ R.point rewriter.old }
{
    drop_new_uses(region, last, ctx);
    while let Some(block) = region.get_tail(ctx) {
        ctx.well_formed();
        if is_block(last, block) {
            return;
        }
        rewriter.erase_block(ctx, block);
    }
    ctx.well_formed();
}
