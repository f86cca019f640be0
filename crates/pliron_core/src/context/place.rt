//! The block of an operation, and its place there.
ghost use Rattle.std.specs.Prelude.{◌≡◌, ◌∷◌, ◌++◌, [], Some, None, OnOk, OnErr};
ghost use Rattle.pliron_core.specs.Tree.{IsLive, IsBlock, HoldsBlock, parent_of, body_of};
ghost use Rattle.pliron_core.specs.Lists.{put_before};
ghost use Rattle.pliron_core.specs.Writes.{after_placing, put_last, put_first, taken_out, moved_last};

use super::{Context, NoMemory};
use crate::keys::{BasicBlock, Operation, Ptr};

impl BasicBlock {
    /// The operation becomes the last of the block.
    ///
    /// Asks that both are live, that the operation is in no block, and that it doesn't hold the block
    /// (`is_live`, `get_parent_block` and `holds_block` test it). Errors: allocation failure, which changes
    /// nothing. Cost: constant.
    pub fn push_operation(
        ctx: &mut Context,
        block: Ptr<BasicBlock>,
        op: Ptr<Operation>,
    ) -> Result<(), NoMemory>
        requires block { IsBlock ctx.old.tree block }
        requires live { IsLive ctx.old.tree op }
        requires free { parent_of ctx.old.tree op ≡ None }
        requires outside { HoldsBlock ctx.old.tree op block → ⊥ }
        ensures ok { OnOk result (ctx.new ≡ record ctx.old { tree = put_last ctx.old.tree op block }) }
        ensures err { OnErr result (ctx.new ≡ ctx.old) }
    {
        place_last(ctx, op, block);
        Ok(())
    }
}

// The operation becomes the last of the block.
#[inline(always)]
pub(crate) fn place_last(ctx: &mut Context, op: Ptr<Operation>, block: Ptr<BasicBlock>)
    requires block { IsBlock ctx.old.tree block }
    requires live { IsLive ctx.old.tree op }
    requires free { parent_of ctx.old.tree op ≡ None }
    requires outside { HoldsBlock ctx.old.tree op block → ⊥ }
    ensures { ctx.new ≡ record ctx.old { tree = put_last ctx.old.tree op block } }
{
    ctx.order.push_back(block.index(), op.index());
}

// The operation becomes the first of the block.
pub(crate) fn place_first(ctx: &mut Context, op: Ptr<Operation>, block: Ptr<BasicBlock>)
    requires block { IsBlock ctx.old.tree block }
    requires live { IsLive ctx.old.tree op }
    requires free { parent_of ctx.old.tree op ≡ None }
    requires outside { HoldsBlock ctx.old.tree op block → ⊥ }
    ensures { ctx.new ≡ record ctx.old { tree = put_first ctx.old.tree op block } }
{
    ctx.order.push_front(block.index(), op.index());
}

// The operation becomes the direct predecessor of the operation `at` of this block.
#[inline(always)]
pub(crate) fn place_before(
    ctx: &mut Context,
    op: Ptr<Operation>,
    at: Ptr<Operation>,
    block: Ptr<BasicBlock>,
)
    requires at { parent_of ctx.old.tree at ≡ Some block }
    requires live { IsLive ctx.old.tree op }
    requires free { parent_of ctx.old.tree op ≡ None }
    requires outside { HoldsBlock ctx.old.tree op block → ⊥ }
    ensures { ctx.new ≡ record ctx.old {
      tree = after_placing ctx.old.tree op block
          (put_before at op (body_of ctx.old.tree block));
    } }
{
    ctx.order
        .insert_before(block.index(), at.index(), op.index());
}

// The operation leaves the block that has it, if one does.
#[inline(always)]
pub(crate) fn take_out(ctx: &mut Context, op: Ptr<Operation>)
    requires { IsLive ctx.old.tree op }
    ensures { ctx.new ≡ record ctx.old { tree = taken_out ctx.old.tree op } }
{
    if let Some(block) = ctx.order.owner(op.index()) {
        ctx.order.remove(block, op.index());
    }
}

// The operation leaves the block that has it, if one does, and becomes the last of this one.
pub(crate) fn move_last(ctx: &mut Context, op: Ptr<Operation>, block: Ptr<BasicBlock>)
    requires live { IsLive ctx.old.tree op }
    requires block { IsBlock ctx.old.tree block }
    requires outside { HoldsBlock ctx.old.tree op block → ⊥ }
    ensures { ctx.new ≡ record ctx.old { tree = moved_last ctx.old.tree op block } }
{
    take_out(ctx, op);
    place_last(ctx, op, block);
}
