//! The edges to each block, those first that forward most.
//!
//! An edge forwards operands to the first arguments of its block, as many as it has. So those that forward to
//! an argument come first, and the removal of an argument asks them and the first one behind them alone.
//!
//! After it each of them forwards one operand less, and still no less than those behind. So a list is made
//! once, when the first argument of its block is removed, and is right until the block is erased.
//!
//! Beside the list is recorded how far apart the removed arguments of the block were; by that the lists that
//! lose an entry with each of them are indexed.
//!
//! It serves growth alone: without it `shortedges` of `docs/benchmarks/shapes.py` is quadratic.
ghost use Rattle.std.specs.Prelude.{◌≡◌, ℕ, None, Some, IfOk, OnOk, IsSome, IsOkUnless, IsPermutation};
ghost use Rattle.pliron_core.specs.Tree.{IsBlock, HoldsBlock, uses_of};
ghost use Rattle.pliron_laws.specs.Linked.{IsWellLinked};
ghost use Rattle.pliron_opt_dce.specs.Incoming.{edges_of, incoming_of, AreCounted, AreIncoming, AreKnown, BranchesLead, AreFalling};

use crate::operand_indexing::{AllLosses, Indexing, index_chosen, settle_rows};
use indexmap::IndexMap;
use pliron_core::{BasicBlock, Context, Operation, Ptr};
use pliron_laws::{Dialect, OptError};
use std::alloc::{AllocError, Global};

// An edge of a branch.
#[derive(Clone, Copy)]
pub(crate) struct IncomingEdge {
    pub(crate) branch: Ptr<Operation>,
    pub(crate) place: usize,
    // how many operands it forwarded when the list was made
    pub(crate) count: usize,
}

// The edges to each block that lost an argument.
#[derive(Drop)]
pub(crate) struct Incoming {
    lists: IndexMap<Ptr<BasicBlock>, Vec<IncomingEdge>>,
    losses: AllLosses,
}

// The edges to the block, in the order of its uses.
fn count_edges<D: Dialect>(
    alloc: Global,
    block: Ptr<BasicBlock>,
    ctx: &Context,
) -> Result<Vec<IncomingEdge>, OptError>
    requires block { IsBlock ctx.now.tree block }
    requires branches { BranchesLead D.meaning ctx.now.tree block }
    ensures edges { IfOk result (λ edges. edges_of edges.items ≡ uses_of ctx.now.block_uses block) }
    ensures counted { IfOk result (λ edges. AreCounted D.meaning ctx.now.tree edges.items) }
    ensures memory { IsOkUnless result OptError.Memory }
{
    ctx.well_formed();
    let mut edges = Vec::new(alloc);
    for i in 0..block.num_use(ctx) {
        let (branch, place) = block.get_use(ctx, i);
        let count = D::successor_operands(alloc, branch, ctx, place)?.len();
        edges.push(IncomingEdge {
            branch,
            place,
            count,
        })?;
    }
    Ok(edges)
}

// Those that forward most come first.
fn put_widest_first(edges: &mut Vec<IncomingEdge>) -> Result<(), AllocError>
    ensures kept { IsPermutation edges.old.items edges.new.items }
    ensures falling { OnOk result (AreFalling edges.new.items) }
{
    edges.sort_by_key(|edge| usize::MAX - edge.count)?;
    Ok(())
}

// The edges to the block, those first that forward most.
fn make_list<D: Dialect>(
    alloc: Global,
    block: Ptr<BasicBlock>,
    ctx: &Context,
) -> Result<Vec<IncomingEdge>, OptError>
    requires block { IsBlock ctx.now.tree block }
    requires branches { BranchesLead D.meaning ctx.now.tree block }
    ensures edges { IfOk result (λ edges. AreIncoming D.meaning ctx.now.tree block (edges_of edges.items)) }
    ensures memory { IsOkUnless result OptError.Memory }
{
    ctx.well_formed();
    let mut edges = count_edges::<D>(alloc, block, ctx)?;
    put_widest_first(&mut edges)?;
    Ok(edges)
}

impl Incoming {
    // No block has a list.
    pub(crate) fn new(alloc: Global) -> Incoming
        ensures { (block : ℕ) → incoming_of result block ≡ None }
    {
        Incoming {
            lists: IndexMap::new(alloc),
            losses: AllLosses::new(alloc),
        }
    }

    // Makes the list of the block, unless there is one. Answers whether it was made now.
    fn make<D: Dialect>(
        &mut self,
        alloc: Global,
        block: Ptr<BasicBlock>,
        root: Ptr<Operation>,
        ctx: &Context,
    ) -> Result<bool, OptError>
        requires block { IsBlock ctx.now.tree block }
        requires branches { BranchesLead D.meaning ctx.now.tree block }
        requires known { AreKnown D.meaning ctx.now.tree root (λ b. incoming_of self.old b) }
        ensures known { OnOk result (AreKnown D.meaning ctx.now.tree root (λ b. incoming_of self.new b)) }
        ensures there { OnOk result (IsSome (incoming_of self.new block)) }
        ensures memory { IsOkUnless result OptError.Memory }
    {
        if self.lists.contains_key(&block) {
            return Ok(false);
        }
        let list = make_list::<D>(alloc, block, ctx)?;
        self.lists.insert(block, list)?;
        Ok(true)
    }

    // The argument of the block with this index is about to be removed, as the first one or after others.
    // Answers which lists are to be indexed before.
    fn note(
        &mut self,
        block: Ptr<BasicBlock>,
        index: usize,
        is_first: bool,
        ctx: &Context,
    ) -> Result<Indexing, AllocError>
        requires { IsBlock ctx.now.tree block }
        ensures { self.new.lists ≡ self.old.lists }
    {
        let count = block.num_argument(ctx);
        self.losses.note(block, index, count, is_first)
    }

    // Makes the list of the block, unless there is one, and indexes lists where its arguments are removed far
    // from one another. The one with this index is about to be removed.
    pub(crate) fn add<D: Dialect>(
        &mut self,
        alloc: Global,
        block: Ptr<BasicBlock>,
        index: usize,
        root: Ptr<Operation>,
        ctx: &mut Context,
    ) -> Result<(), OptError>
        requires block { IsBlock ctx.old.tree block }
        requires inside { HoldsBlock ctx.old.tree root block }
        requires branches { BranchesLead D.meaning ctx.old.tree block }
        requires known { AreKnown D.meaning ctx.old.tree root (λ b. incoming_of self.old b) }
        ensures same { ctx.new ≡ ctx.old }
        ensures known { OnOk result (AreKnown D.meaning ctx.old.tree root (λ b. incoming_of self.new b)) }
        ensures there { OnOk result (IsSome (incoming_of self.new block)) }
        ensures memory { IsOkUnless result OptError.Memory }
    {
        let is_first = self.make::<D>(alloc, block, root, ctx)?;
        let indexing = self.note(block, index, is_first, ctx)?;
        index_chosen(indexing, block, self.edges_to(block), ctx)?;
        Ok(())
    }

    // The argument and operand lists that were indexed for the blocks that have lists lose their indexes, where
    // they are still live.
    pub(crate) fn settle(&self, ctx: &mut Context)
        ensures { ctx.new ≡ ctx.old }
    {
        for (block, list) in self.lists.iter() {
            settle_rows(*block, list, ctx);
        }
    }

    // The list of the block.
    pub(crate) fn edges_to(&self, block: Ptr<BasicBlock>) -> &[IncomingEdge]
        requires { IsSome (incoming_of self.now block) }
        ensures { incoming_of self.now block ≡ Some result.now }
    {
        match self.lists.get(&block) {
            Some(list) => list,
            None => unreachable!(),
        }
    }
}
