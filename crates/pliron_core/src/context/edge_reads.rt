//! What can be read of uses, and of the edges between blocks.
//!
//! A use counts as a predecessor if no earlier edge of the same operation leads to the block; that test scans
//! the shorter of two lists, the operation's earlier successors or the block's uses. `get_pred(i)` bisects,
//! since the blocks of a region are in the order of their handles.
ghost use Rattle.std.specs.Prelude.{◌≡◌, ℕ, ◌<◌, length, filter, slice_get, nat_lt, Some, IsTrue, ◌↔◌, MatchOption};
ghost use Rattle.pliron_core.specs.Tree.{IsLive, IsBlock, IsDefined, successors_of, uses_of};
ghost use Rattle.pliron_core.specs.Edges.{succs_of, preds_of};
ghost use Rattle.pliron_core.specs.EdgeUses.{IsSource, IsFirstPlace, IsEdge, IsFirstEdge};

use super::Context;
use crate::keys::{BasicBlock, Operation, Ptr, Value};
use crate::uses::Use;

impl Value {
    /// How many uses the value has. Asks that the value is live (`is_live` tests it). Cost: constant.
    pub fn num_use(self, ctx: &Context) -> usize
        requires { IsDefined ctx.now.tree self }
        ensures { result ≡ length (uses_of ctx.now.value_uses self) }
    {
        ctx.operands.num_uses(self.index())
    }

    /// The use at this index: an operation, and the index among its operands. The order of uses is open. Asks
    /// that the value is live and has as many (`is_live` and `num_use` test it). Cost: constant, and a
    /// logarithm where that operation has an index (`index_operands`).
    pub fn get_use(self, ctx: &Context, i: usize) -> (Ptr<Operation>, usize)
        requires live { IsDefined ctx.now.tree self }
        requires index { i < length (uses_of ctx.now.value_uses self) }
        ensures listed { slice_get (uses_of ctx.now.value_uses self) i ≡ Some
            (record { user = result.0; place = result.1 }) }
        ensures liveness { IsLive ctx.now.tree result.0 }
    {
        ctx.well_formed();
        let Use { user, place } = ctx.operands.get_use(self.index(), i);
        (Ptr::new(user), place as usize)
    }
}

impl Ptr<BasicBlock> {
    /// How many uses the block has. Asks that the block is live (`is_live` tests it). Cost: constant.
    pub fn num_use(self, ctx: &Context) -> usize
        requires { IsBlock ctx.now.tree self }
        ensures { result ≡ length (uses_of ctx.now.block_uses self) }
    {
        ctx.successors.num_uses(self.index())
    }

    /// The use at this index: an operation, and the index among its successors. The order of uses is open.
    /// Asks that the block is live and has as many (`is_live` and `num_use` test it). Cost: constant.
    pub fn get_use(self, ctx: &Context, i: usize) -> (Ptr<Operation>, usize)
        requires live { IsBlock ctx.now.tree self }
        requires index { i < length (uses_of ctx.now.block_uses self) }
        ensures listed { slice_get (uses_of ctx.now.block_uses self) i ≡ Some
            (record { user = result.0; place = result.1 }) }
        ensures liveness { IsLive ctx.now.tree result.0 }
    {
        ctx.well_formed();
        let Use { user, place } = ctx.successors.get_use(self.index(), i);
        (Ptr::new(user), place as usize)
    }

    /// How many successors the block has: those of its last operation. Asks that the block is live (`is_live`
    /// tests it). Cost: constant.
    pub fn num_succ(self, ctx: &Context) -> usize
        requires { IsBlock ctx.now.tree self }
        ensures { result ≡ length (succs_of ctx.now.tree self) }
    {
        match self.get_tail(ctx) {
            Some(op) => op.num_successor(ctx),
            None => 0,
        }
    }

    /// The successor at this index. Asks that the block is live and has as many (`is_live` and `num_succ` test
    /// it). Cost: constant.
    pub fn get_succ(self, ctx: &Context, i: usize) -> Ptr<BasicBlock>
        requires live { IsBlock ctx.now.tree self }
        requires index { i < length (succs_of ctx.now.tree self) }
        ensures successor { slice_get (succs_of ctx.now.tree self) i ≡ Some result }
        ensures liveness { IsBlock ctx.now.tree result }
    {
        match self.get_tail(ctx) {
            Some(op) => op.get_successor(ctx, i),
            None => unreachable!(),
        }
    }

    /// How many predecessors the block has: blocks of its region whose last operation has it as a successor,
    /// each once.
    ///
    /// Asks that the block is live (`is_live` tests it). Cost: one pass over the block's uses, where each use
    /// scans back to the previous successor of the same operation that is this block, over no more successors
    /// than the block has uses.
    pub fn num_pred(self, ctx: &Context) -> usize
        requires { IsBlock ctx.now.tree self }
        ensures { result ≡ length (preds_of ctx.now.tree self) }
    {
        ctx.well_formed();
        count_below(ctx, self, ctx.arguments.num_blocks())
    }

    /// The predecessor at this index, in the region's order.
    ///
    /// Asks that the block is live and has as many (`is_live` and `num_pred` test it). Cost: as the blocks of a
    /// region are in the order of their handles, this is a bisection on the handle, at most 64 times the cost of
    /// `num_pred`.
    pub fn get_pred(self, ctx: &Context, i: usize) -> Ptr<BasicBlock>
        requires live { IsBlock ctx.now.tree self }
        requires index { i < length (preds_of ctx.now.tree self) }
        ensures predecessor { slice_get (preds_of ctx.now.tree self) i ≡ Some result }
        ensures liveness { IsBlock ctx.now.tree result }
    {
        ctx.well_formed();
        let mut low = 0;
        let mut high = ctx.arguments.num_blocks();
        while high - low > 1 {
            let middle = low + (high - low) / 2;
            if count_below(ctx, self, middle) <= i {
                low = middle;
            } else {
                high = middle;
            }
        }
        ctx.few_blocks();
        Ptr::new(low as u32)
    }

    /// Whether the block has exactly one predecessor. Asks that the block is live (`is_live` tests it). Cost:
    /// one pass over the block's uses, which stops at the second predecessor.
    pub fn has_single_predecessor(self, ctx: &Context) -> bool
        requires { IsBlock ctx.now.tree self }
        ensures { IsTrue result ↔ (length (preds_of ctx.now.tree self) ≡ 1) }
    {
        ctx.well_formed();
        let mut found: Option<Ptr<BasicBlock>> = None;
        for i in 0..self.num_use(ctx) {
            let (user, _) = self.get_use(ctx, i);
            match (found, edge_source(ctx, self, user)) {
                (_, None) => {}
                (None, Some(source)) => found = Some(source),
                (Some(first), Some(source)) => {
                    if first != source {
                        return false;
                    }
                }
            }
        }
        found.is_some()
    }
}

// The block of this block's region that ends with the operation, if one does.
fn edge_source(
    ctx: &Context,
    block: Ptr<BasicBlock>,
    user: Ptr<Operation>,
) -> Option<Ptr<BasicBlock>>
    requires block { IsBlock ctx.now.tree block }
    requires user { IsLive ctx.now.tree user }
    ensures { MatchOption result ((a : ℕ) → IsSource ctx.now.tree block user a → ⊥)
        (λ a. IsSource ctx.now.tree block user a) }
{
    let source = user.get_parent_block(ctx)?;
    let last = source.get_tail(ctx)?;
    let region = source.get_parent_region(ctx)?;
    let here = block.get_parent_region(ctx)?;
    if last == user && region == here {
        Some(source)
    } else {
        None
    }
}

// Whether no place of the user before this one names the block. Scans the user's places backwards and the
// block's uses forwards, both in step, up to the end of the shorter or the first hit.
fn is_first_edge(ctx: &Context, block: Ptr<BasicBlock>, user: Ptr<Operation>, place: usize) -> bool
    requires block { IsBlock ctx.now.tree block }
    requires user { IsLive ctx.now.tree user }
    requires place { place < length (successors_of ctx.now.tree user) }
    ensures { IsTrue result ↔ IsFirstPlace ctx.now.tree block user place }
{
    ctx.well_formed();
    let uses = block.num_use(ctx);
    let steps = if place < uses { place } else { uses };
    for k in 0..steps {
        if user.get_successor(ctx, place - 1 - k) == block {
            return false;
        }
        let (other, before) = block.get_use(ctx, k);
        if other == user && before < place {
            return false;
        }
    }
    true
}

// The block that the use at this index is an edge from, if no place of the user before it is one.
fn first_edge_source(ctx: &Context, block: Ptr<BasicBlock>, i: usize) -> Option<Ptr<BasicBlock>>
    requires block { IsBlock ctx.now.tree block }
    requires index { i < length (uses_of ctx.now.block_uses block) }
    ensures { MatchOption result ((a : ℕ) → IsFirstEdge ctx.now block i a → ⊥) (λ a. IsFirstEdge ctx.now block i a) }
{
    ctx.well_formed();
    let (user, place) = block.get_use(ctx, i);
    let source = edge_source(ctx, block, user)?;
    if is_first_edge(ctx, block, user, place) {
        Some(source)
    } else {
        None
    }
}

// How many predecessors have a handle below the bound.
fn count_below(ctx: &Context, block: Ptr<BasicBlock>, bound: usize) -> usize
    requires { IsBlock ctx.now.tree block }
    ensures { result ≡ length (filter (λ a. nat_lt a bound) (preds_of ctx.now.tree block)) }
{
    ctx.well_formed();
    let mut count = 0;
    for i in 0..block.num_use(ctx) {
        if let Some(source) = first_edge_source(ctx, block, i) {
            if (source.index() as usize) < bound {
                count += 1;
            }
        }
    }
    count
}
