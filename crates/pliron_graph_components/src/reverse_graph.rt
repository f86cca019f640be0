//! The reverse of a graph.
ghost use Rattle.std.specs.Prelude.{◌≡◌, ◌++◌, ◌∷◌, [], Contains, IfOk, IsOkUnless, Some, length, map, refl, slice_get};
ghost use Rattle.std.specs.List.{All, IsDistinct};
ghost use Rattle.pliron_graph_traversal.specs.Search.{IsListed, number_in};
ghost use Rattle.pliron_graph_components.specs.Reverse.{ArePreSentinels, Reversed, FitsReversal, reverse_of, reverse_pred};
ghost use Rattle.pliron_graph_components.specs.Internal.ReverseLawful.{reverse_lawful};

use crate::ReverseNode;
use crate::pre_sentinels::find_pre_sentinels;
use indexmap::IndexSet;
use pliron_graph_traversal::traversal::index_nodes;
use pliron_graph_traversal::{ControlFlowGraph, OrderIter};
use pliron_laws::OptError;
use std::alloc::Global;
use std::marker::Model;

/// The reverse of a graph: its entry is a sentinel, with an edge to each pre-sentinel, and each edge of the
/// graph is reversed.
///
/// A component without an edge to another one is a sink. Its last node in listed order is its pre-sentinel.
///
/// It may be read where its original graph may be, in each context in which the edges of that graph are those
/// that it had when the reverse graph was made.
#[derive(Drop)]
pub struct ReverseGraph<'a, G: ControlFlowGraph<C>, C> {
    original: &'a G,
    pre_sentinels: IndexSet<G::Node>,
    nodes: IndexSet<G::Node>,
    // The predecessors that each node has here. There may be one more than it has successors in the original graph.
    predecessors: Vec<Vec<ReverseNode<G::Node>>>,
}

impl<'a, G: ControlFlowGraph<C>, C> Model for ReverseGraph<'a, G, C> {
    ghost Value = { Reversed G G.Node };

    ghost view = { λ r. record {
      original = r.original.now;
      pre_sentinels = r.pre_sentinels.keys;
      nodes = r.nodes.keys;
      predecessors = map (λ list. list.items) r.predecessors.items;
    } };
}

impl<'a, G: ControlFlowGraph<C>, C> ReverseGraph<'a, G, C> {
    /// The reverse of the graph.
    ///
    /// Asks that the graph may be read in the context. Errors: allocation failure. Cost: that of the components,
    /// two look-ups in a hashed table for each node, and a few reads for each node and each edge of a graph
    /// that has numbers, as many more look-ups of any other.
    pub fn new(alloc: Global, ctx: &C, graph: &'a G) -> Result<Self, OptError>
        requires { G.is_lawful graph.now ctx.now }
        ensures lawful { IfOk result (λ r. ⟦<ReverseGraph<'a, G, C> as ControlFlowGraph<C>>⟧.is_lawful r ctx.now) }
        ensures original { IfOk result (λ r. r.original ≡ graph.now) }
        ensures pre_sentinels { IfOk result (λ r. ArePreSentinels G.Node.eq (G.graph graph.now ctx.now)
            r.pre_sentinels) }
        ensures memory { IsOkUnless result OptError.Memory }
    {
        let listed = graph.nodes(alloc, ctx)?;
        let nodes = index_nodes(alloc, &listed)?;
        let pre_sentinels = find_pre_sentinels(alloc, ctx, graph)?;
        let predecessors = predecessor_lists(alloc, ctx, graph, &listed, &pre_sentinels)?;
        Ok(ReverseGraph {
            original: graph,
            pre_sentinels,
            nodes,
            predecessors,
        })
    }

    /// The graph that this is the reverse of. Takes no memory. Cost: constant.
    pub fn original(&self) -> &'a G
        ensures { result.now ≡ self.now.original }
    {
        self.original
    }

    /// The pre-sentinels, in the order of their components. Takes no memory. Cost: constant.
    pub fn pre_sentinels(&self) -> OrderIter<'_, G::Node>
        ensures { result ≡ self.now.pre_sentinels }
    {
        OrderIter::new(self.pre_sentinels.as_slice())
    }

    // The predecessors of a node that is no sentinel.
    fn predecessors_of(&self, node: &G::Node) -> &[ReverseNode<G::Node>]
        requires listed { IsListed G.Node.eq self.now.nodes node.now }
        requires paired { length self.now.predecessors ≡ length self.now.nodes }
        ensures { slice_get self.now.predecessors (number_in G.Node.eq self.now.nodes node.now) ≡ Some result.now }
    {
        let place = self.nodes.get_index_of(node).unwrap();
        &self.predecessors[place]
    }
}

impl<'a, G: ControlFlowGraph<C>, C> ControlFlowGraph<C> for ReverseGraph<'a, G, C> {
    type Node = ReverseNode<G::Node>;

    ghost graph = { λ r c. reverse_of G.Node.eq (G.graph r.original c) r.pre_sentinels };

    ghost is_lawful = { λ r c. G.is_lawful r.original c × FitsReversal G.Node.eq (G.graph r.original c) r };

    ghost laws = { λ r c h. reverse_lawful G.Node.eq _ (λ x y. refl) (λ y. refl) (λ x. refl) G.Node.Eq.laws.refl
        (G.graph r.original c) r.pre_sentinels (G.laws r.original c h.0) h.1.starts_in };

    fn num_successors(&self, ctx: &C, node: &Self::Node) -> usize {
        match node {
            ReverseNode::Sentinel => self.pre_sentinels.len(),
            ReverseNode::Real(v) => self.original.num_predecessors(ctx, v),
        }
    }

    fn get_successor(&self, ctx: &C, node: &Self::Node, i: usize) -> Self::Node {
        match node {
            ReverseNode::Sentinel => ReverseNode::Real(self.pre_sentinels.as_slice()[i]),
            ReverseNode::Real(v) => ReverseNode::Real(self.original.get_predecessor(ctx, v, i)),
        }
    }

    fn num_predecessors(&self, _ctx: &C, node: &Self::Node) -> usize {
        match node {
            ReverseNode::Sentinel => 0,
            ReverseNode::Real(v) => self.predecessors_of(v).len(),
        }
    }

    fn get_predecessor(&self, _ctx: &C, node: &Self::Node, i: usize) -> Self::Node {
        match node {
            ReverseNode::Sentinel => ReverseNode::Sentinel,
            ReverseNode::Real(v) => self.predecessors_of(v)[i],
        }
    }

    fn entry_node(&self, _ctx: &C) -> Option<Self::Node> {
        Some(ReverseNode::Sentinel)
    }

    fn nodes(&self, alloc: Global, ctx: &C) -> Result<Vec<Self::Node>, OptError> {
        let mut all = Vec::new(alloc);
        all.push(ReverseNode::Sentinel)?;
        for node in &self.original.nodes(alloc, ctx)? {
            all.push(ReverseNode::Real(*node))?;
        }
        Ok(all)
    }
}

// The predecessors that each node has in the reverse graph.
fn predecessor_lists<C, G: ControlFlowGraph<C>>(
    alloc: Global,
    ctx: &C,
    graph: &G,
    nodes: &[G::Node],
    pre_sentinels: &IndexSet<G::Node>,
) -> Result<Vec<Vec<ReverseNode<G::Node>>>, OptError>
    requires lawful { G.is_lawful graph.now ctx.now }
    requires listed { nodes.now ≡ (G.graph graph.now ctx.now).nodes }
    ensures lists { IfOk result (λ r. map (λ list. list.items) r.items ≡ map (λ v. reverse_pred G.Node.eq
        (G.graph graph.now ctx.now) pre_sentinels.now.keys (ReverseNode.Real v)) nodes.now) }
    ensures memory { IsOkUnless result OptError.Memory }
{
    let mut lists = Vec::with_capacity(alloc, nodes.len())?;
    for node in nodes {
        lists.push(predecessor_list(alloc, ctx, graph, node, pre_sentinels)?)?;
    }
    Ok(lists)
}

// The predecessors that a node has in the reverse graph: its successors, and then the sentinel if it is a pre-sentinel.
fn predecessor_list<C, G: ControlFlowGraph<C>>(
    alloc: Global,
    ctx: &C,
    graph: &G,
    node: &G::Node,
    pre_sentinels: &IndexSet<G::Node>,
) -> Result<Vec<ReverseNode<G::Node>>, OptError>
    requires lawful { G.is_lawful graph.now ctx.now }
    requires member { Contains (G.graph graph.now ctx.now).nodes node.now }
    ensures list { IfOk result (λ r. r.items ≡ reverse_pred G.Node.eq (G.graph graph.now ctx.now) pre_sentinels.now.keys
        (ReverseNode.Real node.now)) }
    ensures memory { IsOkUnless result OptError.Memory }
{
    let mut list = Vec::new(alloc);
    for i in 0..graph.num_successors(ctx, node) {
        list.push(ReverseNode::Real(graph.get_successor(ctx, node, i)))?;
    }
    if !pre_sentinels.contains(node) {
        return Ok(list);
    }
    list.push(ReverseNode::Sentinel)?;
    Ok(list)
}
