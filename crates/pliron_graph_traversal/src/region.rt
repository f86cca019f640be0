//! The blocks of a region as a graph.
//!
//! The `impl` is in the crate of the trait: `impl ControlFlowGraph<Context> for Ptr<Region>` in a third crate
//! is `error[orphan-impl]`.
ghost use Rattle.std.specs.Prelude.{IfOk, IsOkUnless};
ghost use Rattle.pliron_core.specs.Tree.{IsBlock};
ghost use Rattle.pliron_graph_traversal.specs.Regions.{graph_of_region, IsLawfulRegion};
ghost use Rattle.pliron_graph_traversal.specs.Internal.Sources.{AreSources};
ghost use Rattle.pliron_graph_traversal.specs.Internal.RegionLawful.{region_lawful, same_key};

use crate::{ControlFlowGraph, HasLabel};
use pliron_core::{BasicBlock, Context, Ptr, Region};
use pliron_laws::OptError;
use std::alloc::Global;

/// The label of a block is `block`, followed directly by the number of its handle.
impl HasLabel<Context> for Ptr<BasicBlock> {
    fn label(&self, alloc: Global, _ctx: &Context) -> Result<String, OptError> {
        Ok(format!(in alloc; "block{}", self.key())?)
    }
}

// The blocks with an operation that has this block as a successor, one for each use.
fn edge_sources(
    alloc: Global,
    ctx: &Context,
    block: Ptr<BasicBlock>,
) -> Result<Vec<Ptr<BasicBlock>>, OptError>
    requires { IsBlock ctx.now.tree block }
    ensures sources { IfOk result (λ r. AreSources ctx.now.tree block r.items) }
    ensures memory { IsOkUnless result OptError.Memory }
{
    ctx.well_formed();
    let mut sources = Vec::new(alloc);
    for i in 0..block.num_use(ctx) {
        let (user, _) = block.get_use(ctx, i);
        if let Some(source) = user.get_parent_block(ctx) {
            sources.push(source)?;
        }
    }
    Ok(sources)
}

/// The blocks of a region in their order, with the first as the entry. The successors of a block are those of
/// its last operation, its predecessors are in the region's order, each once.
///
/// It may be read where the region is live and `edges_last` of its parent operation is true. That, with what
/// `Context::well_formed` says, is all that a caller shows.
impl ControlFlowGraph<Context> for Ptr<Region> {
    type Node = Ptr<BasicBlock>;

    ghost graph = { λ region c. graph_of_region c.tree region };

    ghost is_lawful = { λ region c. IsLawfulRegion c.tree region };

    ghost laws = { λ region c h. region_lawful c.tree region h _ (λ x y e. same_key x y e) };

    /// How many successors the block has. Cost: constant.
    fn num_successors(&self, ctx: &Context, node: &Ptr<BasicBlock>) -> usize {
        node.num_succ(ctx)
    }

    /// The successor of the block at this index. Cost: constant.
    fn get_successor(&self, ctx: &Context, node: &Ptr<BasicBlock>, i: usize) -> Ptr<BasicBlock> {
        node.get_succ(ctx, i)
    }

    /// How many predecessors the block has. Cost: that of `num_pred` of the block.
    fn num_predecessors(&self, ctx: &Context, node: &Ptr<BasicBlock>) -> usize {
        node.num_pred(ctx)
    }

    /// The predecessor of the block at this index. The cost of `get_pred` of the block.
    fn get_predecessor(&self, ctx: &Context, node: &Ptr<BasicBlock>, i: usize) -> Ptr<BasicBlock> {
        node.get_pred(ctx, i)
    }

    /// The predecessors of the block, by index. They are read off the uses of the block and sorted by
    /// handle, which is the region's order.
    ///
    /// Errors: allocation failure. Cost: n log n for n uses.
    fn predecessors(
        &self,
        alloc: Global,
        ctx: &Context,
        node: &Ptr<BasicBlock>,
    ) -> Result<Vec<Ptr<BasicBlock>>, OptError> {
        let mut sources = edge_sources(alloc, ctx, *node)?;
        sources.sort_unstable_by_key(|block| block.key());
        sources.dedup();
        Ok(sources)
    }

    /// The first block of the region, if it has one. Cost: constant.
    fn entry_node(&self, ctx: &Context) -> Option<Ptr<BasicBlock>> {
        self.get_head(ctx)
    }

    /// The blocks of the region in order.
    ///
    /// Errors: allocation failure. Cost: linear.
    fn nodes(&self, alloc: Global, ctx: &Context) -> Result<Vec<Ptr<BasicBlock>>, OptError> {
        ctx.well_formed();
        let mut blocks = Vec::new(alloc);
        let mut at = self.get_head(ctx);
        while let Some(block) = at {
            blocks.push(block)?;
            at = block.get_next(ctx);
        }
        Ok(blocks)
    }
}
