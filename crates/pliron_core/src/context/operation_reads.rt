//! What can be read of an operation.
ghost use Rattle.std.specs.Prelude.{◌≡◌, ◌<◌, length, slice_get, Some, IfSome, IsTrue, ◌↔◌};
ghost use Rattle.pliron_core.specs.Tree.{IsLive, IsBlock, IsRegion, IsDefined, head_of, operands_of, results_of, successors_of, regions_of, parent_of};
ghost use Rattle.pliron_core.specs.Reads.{next_of, prev_of};

use super::Context;
use crate::attrs::Head;
use crate::keys::{BasicBlock, Operation, Ptr, Region, Value};

impl Ptr<Operation> {
    /// Whether the operation is live: it was created in this context and not erased since. Cost: constant.
    pub fn is_live(self, ctx: &Context) -> bool
        ensures { IsTrue result ↔ IsLive ctx.now.tree self }
    {
        match ctx.operations.get(self.index() as usize) {
            Some(entry) => entry.head.is_some(),
            None => false,
        }
    }

    /// The operation's head. Asks that the operation is live (`is_live` tests it). Cost: constant.
    pub fn head(self, ctx: &Context) -> &Head
        requires { IsLive ctx.now.tree self }
        ensures { head_of ctx.now.tree self ≡ Some result.now }
    {
        match &ctx.operations[self.index() as usize].head {
            Some(head) => head,
            None => unreachable!(),
        }
    }

    /// How many operands the operation has. Asks that the operation is live (`is_live` tests it). Cost:
    /// constant.
    pub fn num_operand(self, ctx: &Context) -> usize
        requires { IsLive ctx.now.tree self }
        ensures { result ≡ length (operands_of ctx.now.tree self) }
    {
        ctx.operands.num_targets(self.index())
    }

    /// The operand at this index. Asks that the operation is live and has as many (`is_live` and `num_operand`
    /// test it). Cost: constant, and a logarithm where the operation has an index (`index_operands`).
    pub fn get_operand(self, ctx: &Context, i: usize) -> Value
        requires live { IsLive ctx.now.tree self }
        requires index { i < length (operands_of ctx.now.tree self) }
        ensures operand { slice_get (operands_of ctx.now.tree self) i ≡ Some result }
        ensures liveness { IsDefined ctx.now.tree result }
    {
        ctx.well_formed();
        Value::new(ctx.operands.target(self.index(), i))
    }

    /// How many results the operation has. Asks that the operation is live (`is_live` tests it). Cost:
    /// constant.
    pub fn num_result(self, ctx: &Context) -> usize
        requires { IsLive ctx.now.tree self }
        ensures { result ≡ length (results_of ctx.now.tree self) }
    {
        ctx.operations[self.index() as usize].results.len()
    }

    /// The result at this index. Asks that the operation is live and has as many (`is_live` and `num_result`
    /// test it). Cost: constant.
    pub fn get_result(self, ctx: &Context, i: usize) -> Value
        requires live { IsLive ctx.now.tree self }
        requires index { i < length (results_of ctx.now.tree self) }
        ensures value { slice_get (results_of ctx.now.tree self) i ≡ Some result }
        ensures liveness { IsDefined ctx.now.tree result }
    {
        ctx.well_formed();
        ctx.operations[self.index() as usize].results.get(i)
    }

    /// How many successors the operation has. Asks that the operation is live (`is_live` tests it). Cost:
    /// constant.
    pub fn num_successor(self, ctx: &Context) -> usize
        requires { IsLive ctx.now.tree self }
        ensures { result ≡ length (successors_of ctx.now.tree self) }
    {
        ctx.successors.num_targets(self.index())
    }

    /// The successor at this index. Asks that the operation is live and has as many (`is_live` and
    /// `num_successor` test it). Cost: constant.
    pub fn get_successor(self, ctx: &Context, i: usize) -> Ptr<BasicBlock>
        requires live { IsLive ctx.now.tree self }
        requires index { i < length (successors_of ctx.now.tree self) }
        ensures successor { slice_get (successors_of ctx.now.tree self) i ≡ Some result }
        ensures liveness { IsBlock ctx.now.tree result }
    {
        ctx.well_formed();
        Ptr::new(ctx.successors.target(self.index(), i))
    }

    /// How many regions the operation has. Asks that the operation is live (`is_live` tests it). Cost:
    /// constant.
    pub fn num_region(self, ctx: &Context) -> usize
        requires { IsLive ctx.now.tree self }
        ensures { result ≡ length (regions_of ctx.now.tree self) }
    {
        ctx.operations[self.index() as usize].regions.len()
    }

    /// The region at this index. Asks that the operation is live and has as many (`is_live` and `num_region`
    /// test it). Cost: constant.
    pub fn get_region(self, ctx: &Context, i: usize) -> Ptr<Region>
        requires live { IsLive ctx.now.tree self }
        requires index { i < length (regions_of ctx.now.tree self) }
        ensures region { slice_get (regions_of ctx.now.tree self) i ≡ Some result }
        ensures liveness { IsRegion ctx.now.tree result }
    {
        ctx.well_formed();
        ctx.operations[self.index() as usize].regions.get(i)
    }

    /// The block that has the operation, if one does. Asks that the operation is live (`is_live` tests it).
    /// Cost: constant.
    pub fn get_parent_block(self, ctx: &Context) -> Option<Ptr<BasicBlock>>
        requires { IsLive ctx.now.tree self }
        ensures block { result ≡ parent_of ctx.now.tree self }
        ensures liveness { IfSome result (λ b. IsBlock ctx.now.tree b) }
    {
        ctx.well_formed();
        ctx.order.owner(self.index()).map(|key| Ptr::new(key))
    }

    /// The operation directly before this one in its block, if there is one. Asks that the operation is live
    /// (`is_live` tests it). Cost: constant.
    pub fn get_prev(self, ctx: &Context) -> Option<Ptr<Operation>>
        requires { IsLive ctx.now.tree self }
        ensures prev { result ≡ prev_of ctx.now.tree self }
        ensures liveness { IfSome result (λ op. IsLive ctx.now.tree op) }
    {
        ctx.well_formed();
        ctx.order.prev(self.index()).map(|key| Ptr::new(key))
    }

    /// The operation directly after this one in its block, if there is one. Asks that the operation is live
    /// (`is_live` tests it). Cost: constant.
    pub fn get_next(self, ctx: &Context) -> Option<Ptr<Operation>>
        requires { IsLive ctx.now.tree self }
        ensures next { result ≡ next_of ctx.now.tree self }
        ensures liveness { IfSome result (λ op. IsLive ctx.now.tree op) }
    {
        ctx.well_formed();
        ctx.order.next(self.index()).map(|key| Ptr::new(key))
    }
}
