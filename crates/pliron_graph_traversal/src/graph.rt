//! The trait of graphs.
ghost use Rattle.std.specs.Prelude.{◌≡◌, ◌<◌, Some, Contains, IfOk, IfSome, IsOkUnless, length, slice_get};
ghost use Rattle.pliron_graph_traversal.specs.ByNumber.{IsByNumber};
ghost use Rattle.pliron_graph_traversal.specs.Digraph.{Digraph, IsLawful};

use crate::AdjacencyList;
use pliron_laws::OptError;
use std::alloc::Global;
use std::hash::Hash;

/// A node that has a text to be shown by.
pub trait HasLabel<C> {
    /// The text that shows the node. Errors: allocation failure.
    fn label(&self, alloc: Global, ctx: &C) -> Result<String, OptError>
        ensures memory { IsOkUnless result OptError.Memory };
}

/// A graph that is read in a context.
///
/// It says by `graph` which mathematical graph it means in a context, and by `is_lawful` when it may be read
/// there. Where it may be read it is lawful: equal nodes are one, its nodes are distinct, its entry, successors
/// and predecessors are nodes, and a node is a predecessor of another exactly if the other is among its
/// successors. A node may be several times among the successors of another.
pub trait ControlFlowGraph<C> {
    /// What names a node. A copy takes no memory.
    type Node: Eq + Hash + Copy + HasLabel<C>;

    // The graph that it means in the context.
    ghost graph: { Self → C → Digraph Self.Node };

    // It may be read in the context.
    ghost is_lawful: { Self → C → Type 0 };

    /// How many successors `node` has. Asks that the graph may be read in the context and has the node. Takes
    /// no memory.
    fn num_successors(&self, ctx: &C, node: &Self::Node) -> usize
        requires lawful { is_lawful self.now ctx.now }
        requires member { Contains (graph self.now ctx.now).nodes node.now }
        ensures { result ≡ length ((graph self.now ctx.now).succ node.now) };

    /// The successor of `node` at index `i`. Asks that the graph may be read in the context, has the node,
    /// and has so many successors of it (`num_successors` tests it). Takes no memory.
    fn get_successor(&self, ctx: &C, node: &Self::Node, i: usize) -> Self::Node
        requires lawful { is_lawful self.now ctx.now }
        requires member { Contains (graph self.now ctx.now).nodes node.now }
        requires in_range { i < length ((graph self.now ctx.now).succ node.now) }
        ensures { slice_get ((graph self.now ctx.now).succ node.now) i ≡ Some result };

    /// The successors of `node`, by index. Asks that the graph may be read in the context and has the node.
    /// Errors: allocation failure. Cost: a read for each successor.
    fn successors(
        &self,
        alloc: Global,
        ctx: &C,
        node: &Self::Node,
    ) -> Result<Vec<Self::Node>, OptError>
        requires lawful { is_lawful self.now ctx.now }
        requires member { Contains (graph self.now ctx.now).nodes node.now }
        ensures list { IfOk result (λ r. r.items ≡ (graph self.now ctx.now).succ node.now) }
        ensures memory { IsOkUnless result OptError.Memory }
    {
        let count = self.num_successors(ctx, node);
        let mut all = Vec::with_capacity(alloc, count)?;
        for i in 0..count {
            all.push(self.get_successor(ctx, node, i))?;
        }
        Ok(all)
    }

    /// How many predecessors `node` has. Asks that the graph may be read in the context and has the node.
    /// Takes no memory.
    fn num_predecessors(&self, ctx: &C, node: &Self::Node) -> usize
        requires lawful { is_lawful self.now ctx.now }
        requires member { Contains (graph self.now ctx.now).nodes node.now }
        ensures { result ≡ length ((graph self.now ctx.now).pred node.now) };

    /// The predecessor of `node` at index `i`. Asks that the graph may be read in the context, has the node,
    /// and has so many predecessors of it (`num_predecessors` tests it). Takes no memory.
    fn get_predecessor(&self, ctx: &C, node: &Self::Node, i: usize) -> Self::Node
        requires lawful { is_lawful self.now ctx.now }
        requires member { Contains (graph self.now ctx.now).nodes node.now }
        requires in_range { i < length ((graph self.now ctx.now).pred node.now) }
        ensures { slice_get ((graph self.now ctx.now).pred node.now) i ≡ Some result };

    /// The predecessors of `node`, by index. Asks that the graph may be read in the context and has the node.
    /// Errors: allocation failure. Cost: a read for each predecessor.
    fn predecessors(
        &self,
        alloc: Global,
        ctx: &C,
        node: &Self::Node,
    ) -> Result<Vec<Self::Node>, OptError>
        requires lawful { is_lawful self.now ctx.now }
        requires member { Contains (graph self.now ctx.now).nodes node.now }
        ensures list { IfOk result (λ r. r.items ≡ (graph self.now ctx.now).pred node.now) }
        ensures memory { IsOkUnless result OptError.Memory }
    {
        let count = self.num_predecessors(ctx, node);
        let mut all = Vec::with_capacity(alloc, count)?;
        for i in 0..count {
            all.push(self.get_predecessor(ctx, node, i))?;
        }
        Ok(all)
    }

    /// The node that a traversal starts from, if there is one. Asks that the graph may be read in the
    /// context. Takes no memory.
    fn entry_node(&self, ctx: &C) -> Option<Self::Node>
        requires { is_lawful self.now ctx.now }
        ensures { result ≡ (graph self.now ctx.now).entry };

    /// All nodes, in the order in which walks start from them. Asks that the graph may be read in the
    /// context. Errors: allocation failure.
    fn nodes(&self, alloc: Global, ctx: &C) -> Result<Vec<Self::Node>, OptError>
        requires { is_lawful self.now ctx.now }
        ensures list { IfOk result (λ r. r.items ≡ (graph self.now ctx.now).nodes) }
        ensures memory { IsOkUnless result OptError.Memory };

    /// The same graph by adjacency lists, if it has them: node k of the lists is the k-th of all nodes, and
    /// the entry is the first. A search then looks up no node. `None` where it does not say. Asks that the
    /// graph may be read in the context. Takes no memory. Cost: constant.
    fn by_number(&self, _ctx: &C) -> Option<&AdjacencyList>
        requires { is_lawful self.now _ctx.now }
        ensures { IfSome result (λ lists. IsByNumber (graph self.now _ctx.now) lists.now) }
    {
        None
    }

    // A graph that may be read is lawful.
    ghost laws: { (g : Self) (c : C) → is_lawful g c → IsLawful Self.Node.eq (graph g c) };
}
