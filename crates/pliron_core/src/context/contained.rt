//! Whether an operation holds a block, and whether what is defined in an operation or in a block is used
//! outside it. Takes no memory.
ghost use Rattle.std.specs.Prelude.{◌≡◌, Some, IsTrue, ◌↔◌};
ghost use Rattle.pliron_core.specs.Tree.{IsLive, IsBlock, IsRegion, IsDefined, IsWithin, HoldsBlock, block_parent_operation_of};
ghost use Rattle.pliron_core.specs.Erased.{IsSelfContained, IsInOperation, IsSelfContainedBlock};
ghost use Rattle.pliron_core.specs.Contained.{IsInScope, IsValueKept, IsTargetKept, IsBlockKept, IsRegionKept, IsOperationKept, IsPreorderKept, IsBodyKept};

use super::Context;
use crate::keys::{BasicBlock, Operation, Ptr, Region, Value};

// The parent operation of the block.
fn block_parent_operation(ctx: &Context, block: Ptr<BasicBlock>) -> Ptr<Operation>
    requires { IsBlock ctx.now.tree block }
    ensures holder { block_parent_operation_of ctx.now.tree block ≡ Some result }
    ensures live { IsLive ctx.now.tree result }
{
    match block.get_parent_region(ctx) {
        Some(region) => region.get_parent_op(ctx),
        None => unreachable!(),
    }
}

// Whether the operation is `root` or is inside it. The cost is the depth of the operation.
#[inline(always)]
fn is_within(ctx: &Context, root: Ptr<Operation>, op: Ptr<Operation>) -> bool
    requires { IsLive ctx.now.tree op }
    ensures { IsTrue result ↔ IsWithin ctx.now.tree root op }
{
    op == root || op.is_inside(root, ctx)
}

// Whether the operation is in the block, at any depth. The cost is the depth of the operation.
fn is_in_operation(ctx: &Context, block: Ptr<BasicBlock>, op: Ptr<Operation>) -> bool
    requires { IsLive ctx.now.tree op }
    ensures { IsTrue result ↔ IsInOperation ctx.now.tree block op }
{
    ctx.well_formed();
    let mut at = Some(op);
    while let Some(here) = at {
        if let Some(parent) = here.get_parent_block(ctx) {
            if parent == block {
                return true;
            }
        }
        at = here.get_parent_op(ctx);
    }
    false
}

// Where uses of what is visited must lie: within an operation, or in a block.
#[derive(Clone, Copy)]
enum Scope {
    Inside(Ptr<Operation>),
    InBlock(Ptr<BasicBlock>),
}

impl Scope {
    // Whether the operation is in the scope. The cost is the depth of the operation.
    #[inline(always)]
    fn has(&self, op: Ptr<Operation>, ctx: &Context) -> bool
        requires { IsLive ctx.now.tree op }
        ensures { IsTrue result ↔ IsInScope ctx.now.tree self.now op }
    {
        match *self {
            Scope::Inside(root) => is_within(ctx, root, op),
            Scope::InBlock(block) => is_in_operation(ctx, block, op),
        }
    }

    // Whether each use of the value is in the scope.
    #[inline(always)]
    fn keeps_value(&self, value: Value, ctx: &Context) -> bool
        requires { IsDefined ctx.now.tree value }
        ensures { IsTrue result ↔ IsValueKept ctx.now.tree self.now value }
    {
        ctx.well_formed();
        for i in 0..value.num_use(ctx) {
            let (user, _) = value.get_use(ctx, i);
            if !self.has(user, ctx) {
                return false;
            }
        }
        true
    }

    // Whether each use of the block is in the scope.
    fn keeps_target(&self, block: Ptr<BasicBlock>, ctx: &Context) -> bool
        requires { IsBlock ctx.now.tree block }
        ensures { IsTrue result ↔ IsTargetKept ctx.now.tree self.now block }
    {
        ctx.well_formed();
        for i in 0..block.num_use(ctx) {
            let (user, _) = block.get_use(ctx, i);
            if !self.has(user, ctx) {
                return false;
            }
        }
        true
    }

    // Whether each use of the block and of its arguments is in the scope.
    fn keeps_block(&self, block: Ptr<BasicBlock>, ctx: &Context) -> bool
        requires { IsBlock ctx.now.tree block }
        ensures { IsTrue result ↔ IsBlockKept ctx.now.tree self.now block }
    {
        for i in 0..block.num_argument(ctx) {
            if !self.keeps_value(block.get_argument(ctx, i), ctx) {
                return false;
            }
        }
        self.keeps_target(block, ctx)
    }

    // The same for each block of the region.
    fn keeps_region(&self, region: Ptr<Region>, ctx: &Context) -> bool
        requires { IsRegion ctx.now.tree region }
        ensures { IsTrue result ↔ IsRegionKept ctx.now.tree self.now region }
    {
        ctx.well_formed();
        let mut at = region.get_head(ctx);
        while let Some(block) = at {
            if !self.keeps_block(block, ctx) {
                return false;
            }
            at = block.get_next(ctx);
        }
        true
    }

    // The same for the results of the operation, and for each block directly in it.
    #[inline(always)]
    fn keeps_operation(&self, op: Ptr<Operation>, ctx: &Context) -> bool
        requires { IsLive ctx.now.tree op }
        ensures { IsTrue result ↔ IsOperationKept ctx.now.tree self.now op }
    {
        for i in 0..op.num_result(ctx) {
            if !self.keeps_value(op.get_result(ctx, i), ctx) {
                return false;
            }
        }
        for i in 0..op.num_region(ctx) {
            if !self.keeps_region(op.get_region(ctx, i), ctx) {
                return false;
            }
        }
        true
    }

    // The same for the operation and all that is inside it.
    #[inline(always)]
    fn keeps_preorder(&self, root: Ptr<Operation>, ctx: &Context) -> bool
        requires { IsLive ctx.now.tree root }
        ensures { IsTrue result ↔ IsPreorderKept ctx.now.tree self.now root }
    {
        ctx.well_formed();
        let mut at = Some(root);
        while let Some(op) = at {
            if !self.keeps_operation(op, ctx) {
                return false;
            }
            at = op.next_in_preorder(root, ctx);
        }
        true
    }

    // The same for all that is in the block.
    fn keeps_body(&self, block: Ptr<BasicBlock>, ctx: &Context) -> bool
        requires { IsBlock ctx.now.tree block }
        ensures { IsTrue result ↔ IsBodyKept ctx.now.tree self.now block }
    {
        ctx.well_formed();
        let mut at = block.get_head(ctx);
        while let Some(op) = at {
            if !self.keeps_preorder(op, ctx) {
                return false;
            }
            at = op.get_next(ctx);
        }
        true
    }
}

impl Ptr<Operation> {
    /// Whether the operation holds the block, at any depth. Asks that both are live (`is_live` tests it). Cost:
    /// the depth of the block.
    pub fn holds_block(self, block: Ptr<BasicBlock>, ctx: &Context) -> bool
        requires live { IsLive ctx.now.tree self }
        requires block { IsBlock ctx.now.tree block }
        ensures { IsTrue result ↔ HoldsBlock ctx.now.tree self block }
    {
        is_within(ctx, self, block_parent_operation(ctx, block))
    }

    /// Whether no value that is defined by this operation or inside it, and no block in it, is used outside it.
    ///
    /// Asks that the operation is live (`is_live` tests it). Cost: one walk over the operation and its
    /// contents, which stops at the first use outside: a step for each operation, region, block and value
    /// there, and for each use of such a block or value as many steps as the operation that uses it is deep.
    pub fn is_self_contained(self, ctx: &Context) -> bool
        requires { IsLive ctx.now.tree self }
        ensures { IsTrue result ↔ IsSelfContained ctx.now.tree self }
    {
        ctx.well_formed();
        Scope::Inside(self).keeps_preorder(self, ctx)
    }
}

impl Ptr<BasicBlock> {
    /// Whether the block, its arguments, and the values and blocks inside it are used nowhere outside it.
    ///
    /// Asks that the block is live (`is_live` tests it). Cost: one walk over the block and its contents, which
    /// stops at the first use outside: a step for each operation, region, block and value there, and for each
    /// use of such a block or value as many steps as the operation that uses it is deep.
    pub fn is_self_contained(self, ctx: &Context) -> bool
        requires { IsBlock ctx.now.tree self }
        ensures { IsTrue result ↔ IsSelfContainedBlock ctx.now.tree self }
    {
        ctx.well_formed();
        let scope = Scope::InBlock(self);
        scope.keeps_block(self, ctx) && scope.keeps_body(self, ctx)
    }
}
