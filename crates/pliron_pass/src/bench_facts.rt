//! Facts of the blocks and operations inside an operation, for tests and the program.
ghost use Rattle.std.specs.Prelude.{◌≡◌, ◌++◌, length, true, OnOk, IfOk, IsOkUnless};
ghost use Rattle.pliron_core.specs.Tree.{IsLive, IsBlock};
ghost use Rattle.pliron_core.specs.Edges.{succs_of};
ghost use Rattle.pliron_core.specs.Walks.{contents};
ghost use Rattle.pliron_pass.specs.BenchFacts.{pairs_of, pairs_at, edge_pairs, fact_kind, HoldsFact, fact_rank, fact_reads_edges_alone, fact_needs, fact_need, pairs_in, operations_in};
ghost use Rattle.pliron_pass.specs.BenchFactLaws.{one_kind, fact_stays, fact_keeps, needs_are_lower};
ghost use Rattle.pliron_pass.specs.Cache.{IsFresh};
ghost use Rattle.pliron_pass.specs.Grown.{cached_at, HasNeeds};

use crate::analyses::Analyses;
use crate::kinds::AnalysisKind;
use crate::manager::AnalysisManager;
use pliron_core::{BasicBlock, Context, Operation, Ptr};
use pliron_laws::OptError;
use std::alloc::Global;

/// The kinds of facts.
#[derive(Clone, Copy, Debug, PartialEq, Eq, Hash)]
pub enum BenchFactKind {
    Edges,
    Size,
    Total,
}

/// A fact of an operation.
#[derive(Drop)]
pub enum BenchFacts {
    /// Each block inside the operation with each of its successors, in pre-order and index order.
    Edges(Vec<(Ptr<BasicBlock>, Ptr<BasicBlock>)>),
    /// How many operations are inside the operation.
    Size(usize),
    /// How many pairs the edges have, and the size added to it.
    Total(u128),
}

// Adds the pairs of a block.
fn push_pairs(
    block: Ptr<BasicBlock>,
    ctx: &Context,
    pairs: &mut Vec<(Ptr<BasicBlock>, Ptr<BasicBlock>)>,
) -> Result<(), OptError>
    requires { IsBlock ctx.now.tree block }
    ensures added { OnOk result (pairs.new.items ≡ pairs.old.items ++ pairs_of (block, succs_of ctx.now.tree block)) }
    ensures memory { IsOkUnless result OptError.Memory }
{
    for i in 0..block.num_succ(ctx) {
        pairs.push((block, block.get_succ(ctx, i)))?;
    }
    Ok(())
}

// Adds the pairs of the block that the operation is the first of.
fn push_pairs_at(
    op: Ptr<Operation>,
    ctx: &Context,
    pairs: &mut Vec<(Ptr<BasicBlock>, Ptr<BasicBlock>)>,
) -> Result<(), OptError>
    requires { IsLive ctx.now.tree op }
    ensures added { OnOk result (pairs.new.items ≡ pairs.old.items ++ pairs_at ctx.now.tree op) }
    ensures memory { IsOkUnless result OptError.Memory }
{
    match op.get_parent_block(ctx) {
        Some(block) if block.get_head(ctx) == Some(op) => push_pairs(block, ctx, pairs),
        _ => Ok(()),
    }
}

// The pairs of all blocks inside the operation: those of a block come with its first operation.
fn pairs_inside(
    alloc: Global,
    op: Ptr<Operation>,
    ctx: &Context,
) -> Result<Vec<(Ptr<BasicBlock>, Ptr<BasicBlock>)>, OptError>
    requires { IsLive ctx.now.tree op }
    ensures pairs { IfOk result (λ pairs. pairs.items ≡ edge_pairs ctx.now.tree op) }
    ensures memory { IsOkUnless result OptError.Memory }
{
    ctx.well_formed();
    let mut pairs = Vec::new(alloc);
    let mut at = op.next_in_preorder(op, ctx);
    while let Some(inner) = at {
        push_pairs_at(inner, ctx, &mut pairs)?;
        at = inner.next_in_preorder(op, ctx);
    }
    Ok(pairs)
}

/// How many operations are inside the operation, at any depth. Asks that it is live (`is_live` tests it). Takes no
/// memory. Cost: one step for each operation, block and region inside.
pub fn count_inside(op: Ptr<Operation>, ctx: &Context) -> usize
    requires { IsLive ctx.now.tree op }
    ensures { result ≡ length (contents ctx.now.tree op) }
{
    ctx.well_formed();
    let mut count = 0;
    let mut at = op.next_in_preorder(op, ctx);
    while let Some(inner) = at {
        count += 1;
        at = inner.next_in_preorder(op, ctx);
    }
    count
}

impl AnalysisManager<BenchFacts> {
    // How many pairs the cached edges have; none where something else was written there.
    fn cached_pairs(&self, op: Ptr<Operation>) -> usize
        ensures { result ≡ pairs_in (cached_at ⟦<BenchFactKind as PartialEq>⟧.eq self.now.cache.entries
            BenchFactKind.Edges op) }
    {
        match self.try_get_analysis(BenchFactKind::Edges, op) {
            Some(BenchFacts::Edges(pairs)) => pairs.len(),
            _ => 0,
        }
    }

    // How many operations the cached size counts; none where something else was written there.
    fn cached_size(&self, op: Ptr<Operation>) -> usize
        ensures { result ≡ operations_in (cached_at ⟦<BenchFactKind as PartialEq>⟧.eq self.now.cache.entries
            BenchFactKind.Size op) }
    {
        match self.try_get_analysis(BenchFactKind::Size, op) {
            Some(BenchFacts::Size(count)) => *count,
            _ => 0,
        }
    }
}

impl AnalysisKind for BenchFacts {
    type Kind = BenchFactKind;

    ghost kind = { fact_kind };

    fn kind(&self) -> BenchFactKind {
        match self {
            BenchFacts::Edges(_) => BenchFactKind::Edges,
            BenchFacts::Size(_) => BenchFactKind::Size,
            BenchFacts::Total(_) => BenchFactKind::Total,
        }
    }
}

impl Analyses for BenchFacts {
    ghost holds = { HoldsFact };

    ghost rank = { fact_rank };

    ghost reads_edges_alone = { fact_reads_edges_alone };

    ghost needs = { fact_needs };

    ghost need = { fact_need };

    fn name(&self) -> &str {
        match self {
            BenchFacts::Edges(_) => "edges",
            BenchFacts::Size(_) => "size",
            BenchFacts::Total(_) => "total",
        }
    }

    /// 1 for a total, else 0.
    fn rank(kind: BenchFactKind) -> u32 {
        match kind {
            BenchFactKind::Edges | BenchFactKind::Size => 0,
            BenchFactKind::Total => 1,
        }
    }

    /// The edges alone do.
    fn reads_edges_alone(kind: BenchFactKind) -> bool {
        match kind {
            BenchFactKind::Edges => true,
            BenchFactKind::Size | BenchFactKind::Total => false,
        }
    }

    /// A total needs two, the others none.
    fn needs(kind: BenchFactKind) -> usize {
        match kind {
            BenchFactKind::Edges | BenchFactKind::Size => 0,
            BenchFactKind::Total => 2,
        }
    }

    /// The edges and then the size.
    fn need(_kind: BenchFactKind, i: usize) -> BenchFactKind {
        match i {
            0 => BenchFactKind::Edges,
            _ => BenchFactKind::Size,
        }
    }

    /// Visits what is inside the operation, for the edges and the size; adds up the two for the total.
    ///
    /// Errors: allocation failure, for the edges. Cost: one step for each operation and edge inside; constant
    /// for the total.
    fn compute(
        alloc: Global,
        kind: BenchFactKind,
        op: Ptr<Operation>,
        ctx: &Context,
        manager: &AnalysisManager<BenchFacts>,
    ) -> Result<BenchFacts, OptError>
        requires live { IsLive ctx.now.tree op }
        requires needs { HasNeeds ⟦<BenchFactKind as PartialEq>⟧.eq fact_needs fact_need kind op
            manager.now.cache.entries }
        ensures kind { IfOk result (λ e. ⟦<BenchFactKind as PartialEq>⟧.eq (fact_kind e) kind ≡ true) }
        ensures holds { IfOk result (λ e. IsFresh ⟦<BenchFactKind as PartialEq>⟧.eq fact_kind HoldsFact ctx.now.tree
            manager.now.cache.entries → HoldsFact e op ctx.now.tree) }
        ensures memory { IsOkUnless result OptError.Memory }
    {
        match kind {
            BenchFactKind::Edges => Ok(BenchFacts::Edges(pairs_inside(alloc, op, ctx)?)),
            BenchFactKind::Size => Ok(BenchFacts::Size(count_inside(op, ctx))),
            BenchFactKind::Total => {
                let total = manager.cached_pairs(op) as u128 + manager.cached_size(op) as u128;
                Ok(BenchFacts::Total(total))
            }
        }
    }

    ghost same = { one_kind };

    ghost stays = { fact_stays };

    ghost keeps = { fact_keeps };

    ghost lower = { needs_are_lower };
}
