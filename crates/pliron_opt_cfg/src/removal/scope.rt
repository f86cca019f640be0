//! What a call visits.
ghost use Rattle.std.specs.Prelude.{ℕ, IfOk, IsOkUnless};
ghost use Rattle.pliron_laws.specs.Linked.{EdgesLast};
ghost use Rattle.pliron_opt_cfg.specs.Visits.{AreVisits};
ghost use Rattle.pliron_opt_cfg.specs.Internal.Scopes.{start_of_scope, IsScopeLive, IsHolder};

use crate::visits::{Visits, visits_inside_block, visits_inside_op, visits_inside_region};
use pliron_core::{BasicBlock, Context, Operation, Ptr, Region};
use pliron_laws::OptError;
use std::alloc::Global;

// The regions of an operation, those of the operations of a block, or one region.
#[derive(Clone, Copy)]
pub(crate) enum RemovalScope {
    Operation(Ptr<Operation>),
    Block(Ptr<BasicBlock>),
    Region(Ptr<Region>),
}

impl RemovalScope {
    // The regions and blocks that a call visits there.
    pub(crate) fn visits(&self, alloc: Global, ctx: &Context) -> Result<Visits, OptError>
        requires liveness { IsScopeLive ctx.now.tree self.now }
        requires edges { (holder : ℕ) → IsHolder ctx.now.tree self.now holder → EdgesLast ctx.now.tree holder }
        ensures visits { IfOk result (λ v. AreVisits ctx.now.tree (start_of_scope self.now ctx.now.tree) v.regions.items
            v.blocks.items) }
        ensures memory { IsOkUnless result OptError.Memory }
    {
        match *self {
            RemovalScope::Operation(op) => visits_inside_op(alloc, ctx, op),
            RemovalScope::Block(block) => visits_inside_block(alloc, ctx, block),
            RemovalScope::Region(region) => visits_inside_region(alloc, ctx, region),
        }
    }
}
