//! Indexes of the lists that lose entries: the arguments of a block, and the operands of the branches that lead
//! to it.
//!
//! A list keeps one gap, which moves to each removal; where that is beside the last one, nothing is cheaper.
//! But arguments that feed one another may be removed at places that are far apart in turn, and the gap would
//! move over the list again and again. An index of the list spares that. So it is made once the gap has moved
//! over the list a few times.
//!
//! Where a branch forwards much along two edges, its operand list loses operands at two places in turn, in
//! whatever order the arguments are removed. Such a list is indexed at once.
//!
//! It serves growth alone: without it `farargs` of `docs/benchmarks/shapes.py` is quadratic.
ghost use Rattle.std.specs.Prelude.{◌≡◌};
ghost use Rattle.pliron_core.specs.Tree.{IsBlock, IsLive};
ghost use Rattle.pliron_theory.specs.Dropping.{AreEdgesTo};
ghost use Rattle.pliron_opt_dce.specs.Incoming.{edges_of};

use crate::incoming::IncomingEdge;
use indexmap::IndexMap;
use pliron_core::{BasicBlock, Context, NoMemory, Operation, Ptr};
use std::alloc::{AllocError, Global};

// How often the gap of a list moves over it before it is indexed.
const FEW_MOVES: usize = 8;

// How many arguments of a block, or operands that other edges of a branch forward, are few.
const FEW_ITEMS: usize = 64;

// Which lists are indexed before an argument is removed.
#[derive(Clone, Copy)]
pub(crate) enum Indexing {
    Nothing,
    WideBranches,
    AllRows,
}

// Which arguments of a block were removed so far.
#[derive(Clone, Copy)]
pub(crate) struct ArgumentLosses {
    // the index of the last one
    last: usize,
    // how many arguments the gap moved over
    moved: usize,
    is_indexed: bool,
}

impl ArgumentLosses {
    // The argument with this index is removed first.
    fn first(index: usize) -> ArgumentLosses {
        ArgumentLosses {
            last: index,
            moved: 0,
            is_indexed: false,
        }
    }

    // The record after one more removal, of so many arguments, and whether all lists are to be indexed before.
    fn after(self, index: usize, count: usize) -> (ArgumentLosses, bool) {
        let moved = self.moved.saturating_add(distance(self.last, index));
        let is_far = !self.is_indexed && moved / FEW_MOVES > count;
        let next = ArgumentLosses {
            last: index,
            moved,
            is_indexed: self.is_indexed || is_far,
        };
        (next, is_far)
    }
}

// The removals of each block with more than a few arguments.
#[derive(Drop)]
pub(crate) struct AllLosses {
    losses: IndexMap<Ptr<BasicBlock>, ArgumentLosses>,
    // of the block of the last removal
    recent: Option<(Ptr<BasicBlock>, ArgumentLosses)>,
}

impl AllLosses {
    // None was removed.
    pub(crate) fn new(alloc: Global) -> AllLosses {
        AllLosses {
            losses: IndexMap::new(alloc),
            recent: None,
        }
    }

    // The record of the block, if one of its arguments was removed.
    fn find(&self, block: Ptr<BasicBlock>) -> Option<ArgumentLosses> {
        if let Some((recent, losses)) = self.recent {
            if recent == block {
                return Some(losses);
            }
        }
        self.losses.get(&block).copied()
    }

    // Those of the block are the recent ones.
    fn keep(&mut self, block: Ptr<BasicBlock>, losses: ArgumentLosses) -> Result<(), AllocError> {
        let before = self.recent;
        if let Some((recent, last)) = before {
            if recent != block {
                self.losses.insert(recent, last)?;
            }
        }
        self.recent = Some((block, losses));
        Ok(())
    }

    // The argument of the block with this index, of so many, is about to be removed, as the first one or after
    // others. Answers which lists are to be indexed before.
    pub(crate) fn note(
        &mut self,
        block: Ptr<BasicBlock>,
        index: usize,
        count: usize,
        is_first: bool,
    ) -> Result<Indexing, AllocError> {
        if is_first {
            return Ok(Indexing::WideBranches);
        }
        if count <= FEW_ITEMS {
            return Ok(Indexing::Nothing);
        }
        let losses = self.find(block).unwrap_or(ArgumentLosses::first(index));
        let (next, is_far) = losses.after(index, count);
        self.keep(block, next)?;
        if is_far {
            Ok(Indexing::AllRows)
        } else {
            Ok(Indexing::Nothing)
        }
    }
}

// How many places the gap moves over from one removal to another one. A removal beside it costs nothing.
fn distance(last: usize, index: usize) -> usize {
    last.abs_diff(index).saturating_sub(1)
}

// The arguments of the block and the operands of each branch that leads to it are indexed.
fn index_rows(
    block: Ptr<BasicBlock>,
    edges: &[IncomingEdge],
    ctx: &mut Context,
) -> Result<(), NoMemory>
    requires block { IsBlock ctx.old.tree block }
    requires edges { AreEdgesTo ctx.old.tree block (edges_of edges.now) }
    ensures { ctx.new ≡ ctx.old }
{
    ctx.well_formed();
    BasicBlock::index_arguments(ctx, block)?;
    for edge in edges {
        Operation::index_operands(ctx, edge.branch)?;
    }
    Ok(())
}

// The operands of each branch are indexed that forwards more than a few along other edges.
fn index_wide(
    block: Ptr<BasicBlock>,
    edges: &[IncomingEdge],
    ctx: &mut Context,
) -> Result<(), NoMemory>
    requires { AreEdgesTo ctx.old.tree block (edges_of edges.now) }
    ensures { ctx.new ≡ ctx.old }
{
    ctx.well_formed();
    for edge in edges {
        index_if_wide(edge.branch, edge.count, ctx)?;
    }
    Ok(())
}

// The operands of the branch are indexed if they are more than so many and a few.
fn index_if_wide(branch: Ptr<Operation>, count: usize, ctx: &mut Context) -> Result<(), NoMemory>
    requires { IsLive ctx.old.tree branch }
    ensures { ctx.new ≡ ctx.old }
{
    if branch.num_operand(ctx) > count.saturating_add(FEW_ITEMS) {
        Operation::index_operands(ctx, branch)?;
    }
    Ok(())
}

// Those of the lists are indexed that are to be.
pub(crate) fn index_chosen(
    indexing: Indexing,
    block: Ptr<BasicBlock>,
    edges: &[IncomingEdge],
    ctx: &mut Context,
) -> Result<(), NoMemory>
    requires block { IsBlock ctx.old.tree block }
    requires edges { AreEdgesTo ctx.old.tree block (edges_of edges.now) }
    ensures { ctx.new ≡ ctx.old }
{
    match indexing {
        Indexing::Nothing => Ok(()),
        Indexing::WideBranches => index_wide(block, edges, ctx),
        Indexing::AllRows => index_rows(block, edges, ctx),
    }
}

// The indexes of those that are still live are dropped.
pub(crate) fn settle_rows(block: Ptr<BasicBlock>, edges: &[IncomingEdge], ctx: &mut Context)
    ensures { ctx.new ≡ ctx.old }
{
    if block.is_live(ctx) {
        BasicBlock::settle_arguments(ctx, block);
    }
    for edge in edges {
        if edge.branch.is_live(ctx) {
            Operation::settle_operands(ctx, edge.branch);
        }
    }
}
