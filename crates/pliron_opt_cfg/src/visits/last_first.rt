//! The blocks of a region as a graph, with the last successor of a block first.
ghost use Rattle.pliron_graph_traversal.specs.Regions.{IsLawfulRegion};
ghost use Rattle.pliron_graph_traversal.specs.Internal.RegionLawful.{same_key};
ghost use Rattle.pliron_opt_cfg.specs.Internal.LastFirst.{last_first, last_first_lawful};

use pliron_core::{BasicBlock, Context, Ptr, Region};
use pliron_graph_traversal::ControlFlowGraph;
use pliron_laws::OptError;
use std::alloc::Global;

// The graph of the region, but for the order in which a search takes the successors of a block.
#[derive(Drop)]
pub(crate) struct LastFirst {
    pub(crate) region: Ptr<Region>,
}

impl ControlFlowGraph<Context> for LastFirst {
    type Node = Ptr<BasicBlock>;

    ghost graph = { λ g c. last_first c.tree g.region };

    ghost is_lawful = { λ g c. IsLawfulRegion c.tree g.region };

    ghost laws = { λ g c h. last_first_lawful c.tree g.region h _ (λ x y e. same_key x y e) };

    fn num_successors(&self, ctx: &Context, node: &Ptr<BasicBlock>) -> usize {
        self.region.num_successors(ctx, node)
    }

    fn get_successor(&self, ctx: &Context, node: &Ptr<BasicBlock>, i: usize) -> Ptr<BasicBlock> {
        let count = self.region.num_successors(ctx, node);
        self.region.get_successor(ctx, node, count - 1 - i)
    }

    fn num_predecessors(&self, ctx: &Context, node: &Ptr<BasicBlock>) -> usize {
        self.region.num_predecessors(ctx, node)
    }

    fn get_predecessor(&self, ctx: &Context, node: &Ptr<BasicBlock>, i: usize) -> Ptr<BasicBlock> {
        self.region.get_predecessor(ctx, node, i)
    }

    fn entry_node(&self, ctx: &Context) -> Option<Ptr<BasicBlock>> {
        self.region.entry_node(ctx)
    }

    fn nodes(&self, alloc: Global, ctx: &Context) -> Result<Vec<Ptr<BasicBlock>>, OptError> {
        self.region.nodes(alloc, ctx)
    }
}
