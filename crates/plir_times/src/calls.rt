//! Calls on graphs, each with a number that tells that it was made.
ghost use Rattle.pliron_graph_traversal.specs.Adjacency.{AreInverse};

use pliron_graph_components::{
    AdjacencyList, ControlFlowGraph, DFSTraversal, ReverseGraph, post_order,
    sccs_in_topological_order,
};
use pliron_graph_dominance::DominatorTree;
use std::alloc::Global;

/// A call that is measured.
#[derive(Clone, Copy)]
pub enum TimedCall {
    Nothing,
    Orders,
    Numbers,
    Components,
    Reverse,
    Dominators,
    Climbs,
    Parents,
}

impl TimedCall {
    /// The call of this name. Cost: constant.
    pub fn from_name(name: &str) -> Option<TimedCall> {
        let call = match name {
            "none" => TimedCall::Nothing,
            "orders" => TimedCall::Orders,
            "numbers" => TimedCall::Numbers,
            "components" => TimedCall::Components,
            "reverse" => TimedCall::Reverse,
            "dominators" => TimedCall::Dominators,
            "climbs" => TimedCall::Climbs,
            "parents" => TimedCall::Parents,
            _ => return None,
        };
        Some(call)
    }

    /// How many the call answers; 0 where memory is refused. Asks that the graph's successors and predecessors are those of one
    /// another, as they are in each that `AdjacencyList::new` makes. Cost: the call's.
    pub fn count(self, alloc: Global, graph: &AdjacencyList) -> usize
        requires { AreInverse graph.now }
    {
        match self {
            TimedCall::Nothing => 0,
            TimedCall::Orders => orders(alloc, graph),
            TimedCall::Numbers => numbers(alloc, graph),
            TimedCall::Components => components(alloc, graph),
            TimedCall::Reverse => reverse(alloc, graph),
            TimedCall::Dominators => dominators(alloc, graph),
            TimedCall::Climbs => climbs(alloc, graph),
            TimedCall::Parents => parents(alloc, graph),
        }
    }
}

fn orders(alloc: Global, graph: &AdjacencyList) -> usize
    requires { AreInverse graph.now }
{
    let Ok(order) = post_order(alloc, &(), graph) else {
        return 0;
    };
    order.len()
}

fn numbers(alloc: Global, graph: &AdjacencyList) -> usize
    requires { AreInverse graph.now }
{
    let Ok(search) = DFSTraversal::new(alloc, &(), graph) else {
        return 0;
    };
    search.pre_order().len()
}

fn components(alloc: Global, graph: &AdjacencyList) -> usize
    requires { AreInverse graph.now }
{
    let Ok(components) = sccs_in_topological_order(alloc, &(), graph) else {
        return 0;
    };
    components.len()
}

fn reverse(alloc: Global, graph: &AdjacencyList) -> usize
    requires { AreInverse graph.now }
{
    let Ok(reverse) = ReverseGraph::new(alloc, &(), graph) else {
        return 0;
    };
    reverse.pre_sentinels().len()
}

fn dominators(alloc: Global, graph: &AdjacencyList) -> usize
    requires { AreInverse graph.now }
{
    let Ok(tree) = DominatorTree::new(alloc, &(), graph) else {
        return 0;
    };
    tree.is_reached(&0) as usize
}

// The same, and the sum of the immediate dominators of all nodes that are reached.
fn parents(alloc: Global, graph: &AdjacencyList) -> usize
    requires { AreInverse graph.now }
{
    let Ok(tree) = DominatorTree::new(alloc, &(), graph) else {
        return 0;
    };
    let Ok(nodes) = graph.nodes(alloc, &()) else {
        return 0;
    };
    let mut sum = 0usize;
    for node in &nodes {
        if tree.is_reached(node) {
            let above = tree.immediate_dominator(node).unwrap_or(0);
            sum = sum.saturating_add(above as usize);
        }
    }
    sum
}

// The same, and whether each node is the nearest common dominator of itself and the next.
fn climbs(alloc: Global, graph: &AdjacencyList) -> usize
    requires { AreInverse graph.now }
{
    let Ok(tree) = DominatorTree::new(alloc, &(), graph) else {
        return 0;
    };
    let Ok(nodes) = graph.nodes(alloc, &()) else {
        return 0;
    };
    let mut count = 0usize;
    for pair in nodes.windows(2) {
        if tree.is_reached(&pair[0]) && tree.is_reached(&pair[1]) {
            let common = tree.nearest_common_dominator(&pair[0], &pair[1]);
            count = count.saturating_add((common == pair[0]) as usize);
        }
    }
    count
}
