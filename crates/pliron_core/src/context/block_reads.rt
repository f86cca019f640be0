//! What can be read of a block.
ghost use Rattle.std.specs.Prelude.{◌≡◌, ◌<◌, length, slice_get, None, Some, IfSome, IsTrue, ◌↔◌};
ghost use Rattle.pliron_core.specs.Tree.{IsLive, IsBlock, IsRegion, IsDefined, arguments_of, block_parent_of, body_of, first_of, last_of};
ghost use Rattle.pliron_core.specs.Reads.{next_block_of, prev_block_of};

use super::Context;
use crate::keys::{BasicBlock, Operation, Ptr, Region, Value};

impl Ptr<BasicBlock> {
    /// Whether the block is live: it was created in this context and not erased since. Cost: constant.
    pub fn is_live(self, ctx: &Context) -> bool
        ensures { IsTrue result ↔ IsBlock ctx.now.tree self }
    {
        if (self.index() as usize) < ctx.arguments.num_blocks() {
            ctx.layout.owner(self.index()).is_some()
        } else {
            false
        }
    }

    /// How many arguments the block has. Asks that the block is live (`is_live` tests it). Cost: constant.
    pub fn num_argument(self, ctx: &Context) -> usize
        requires { IsBlock ctx.now.tree self }
        ensures { result ≡ length (arguments_of ctx.now.tree self) }
    {
        ctx.arguments.len(self)
    }

    /// The argument at this index. Asks that the block is live and has as many (`is_live` and `num_argument`
    /// test it). Cost: constant, and a logarithm where the block has an index (`index_arguments`).
    pub fn get_argument(self, ctx: &Context, i: usize) -> Value
        requires live { IsBlock ctx.now.tree self }
        requires index { i < length (arguments_of ctx.now.tree self) }
        ensures argument { slice_get (arguments_of ctx.now.tree self) i ≡ Some result }
        ensures liveness { IsDefined ctx.now.tree result }
    {
        ctx.well_formed();
        ctx.arguments.get(self, i)
    }

    /// The region that has the block, which is one. Asks that the block is live (`is_live` tests it). Cost:
    /// constant.
    pub fn get_parent_region(self, ctx: &Context) -> Option<Ptr<Region>>
        requires { IsBlock ctx.now.tree self }
        ensures region { result ≡ block_parent_of ctx.now.tree self }
        ensures liveness { IfSome result (λ r. IsRegion ctx.now.tree r) }
    {
        ctx.well_formed();
        ctx.layout.owner(self.index()).map(|key| Ptr::new(key))
    }

    /// The block's first operation, if it has one. Asks that the block is live (`is_live` tests it). Cost:
    /// constant.
    pub fn get_head(self, ctx: &Context) -> Option<Ptr<Operation>>
        requires { IsBlock ctx.now.tree self }
        ensures first { result ≡ first_of (body_of ctx.now.tree self) None }
        ensures liveness { IfSome result (λ op. IsLive ctx.now.tree op) }
    {
        ctx.well_formed();
        ctx.order.head(self.index()).map(|key| Ptr::new(key))
    }

    /// The block's last operation, if it has one. Asks that the block is live (`is_live` tests it). Cost:
    /// constant.
    pub fn get_tail(self, ctx: &Context) -> Option<Ptr<Operation>>
        requires { IsBlock ctx.now.tree self }
        ensures last { result ≡ last_of None (body_of ctx.now.tree self) }
        ensures liveness { IfSome result (λ op. IsLive ctx.now.tree op) }
    {
        ctx.well_formed();
        ctx.order.tail(self.index()).map(|key| Ptr::new(key))
    }

    /// The block directly before this one in its region, if there is one. Asks that the block is live
    /// (`is_live` tests it). Cost: constant.
    pub fn get_prev(self, ctx: &Context) -> Option<Ptr<BasicBlock>>
        requires { IsBlock ctx.now.tree self }
        ensures prev { result ≡ prev_block_of ctx.now.tree self }
        ensures liveness { IfSome result (λ b. IsBlock ctx.now.tree b) }
    {
        ctx.well_formed();
        ctx.layout.prev(self.index()).map(|key| Ptr::new(key))
    }

    /// The block directly after this one in its region, if there is one. Asks that the block is live (`is_live`
    /// tests it). Cost: constant.
    pub fn get_next(self, ctx: &Context) -> Option<Ptr<BasicBlock>>
        requires { IsBlock ctx.now.tree self }
        ensures next { result ≡ next_block_of ctx.now.tree self }
        ensures liveness { IfSome result (λ b. IsBlock ctx.now.tree b) }
    {
        ctx.well_formed();
        ctx.layout.next(self.index()).map(|key| Ptr::new(key))
    }
}
