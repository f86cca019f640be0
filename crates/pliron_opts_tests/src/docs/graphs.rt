//! docs/GRAPHS.md: orders, searches, components, the reverse and dominance of a graph, and a graph of one's own.
ghost use Rattle.std.specs.Prelude.{IfOk, IfSome};
ghost use Rattle.pliron_graph_traversal.specs.Adjacency.{AreInverse, graph_of};
ghost use Rattle.pliron_graph_traversal.specs.AdjacencyLaws.{adjacency_lawful};

use crate::expect::expect_text;
use pliron_graph_components::{
    AdjacencyList, ControlFlowGraph, DFSTraversal, ReverseGraph, ReverseNode, post_order,
    sccs_in_topological_order, topological_order,
};
use pliron_graph_dominance::DominatorTree;
use pliron_laws::OptError;
use std::alloc::Global;
use std::process::Abort;

// Node 0 leads to 1 and 2, these to 3, and 3 to 0 and 4.
fn sample_graph(alloc: Global) -> Result<Option<AdjacencyList>, OptError>
    ensures { IfOk result (λ found. IfSome found (λ graph. AreInverse graph)) }
{
    let mut rows = Vec::new(alloc);
    for targets in ["1 2", "3", "3", "0 4", ""] {
        rows.push(row(alloc, targets)?)?;
    }
    AdjacencyList::new(alloc, rows)
}

// The numbers of a line.
fn row(alloc: Global, words: &str) -> Result<Vec<u32>, OptError> {
    let mut row = Vec::new(alloc);
    for word in words.split_ascii_whitespace() {
        if let Ok(number) = word.parse::<u32>() {
            row.push(number)?;
        }
    }
    Ok(row)
}

fn orders(alloc: Global, graph: &AdjacencyList) -> Result<String, OptError>
    requires { AreInverse graph.now }
{
    let post = post_order(alloc, &(), graph)?;
    let topological = topological_order(alloc, &(), graph)?;
    Ok(format!(in alloc; "{post:?} {topological:?}")?)
}

fn search(alloc: Global, graph: &AdjacencyList) -> Result<String, OptError>
    requires { AreInverse graph.now }
{
    let search = DFSTraversal::new(alloc, &(), graph)?;
    let order: Vec<u32> = search.pre_order().collect(alloc)?;
    Ok(format!(in alloc; "{order:?} {}", search.is_reached(&4))?)
}

fn components(alloc: Global, graph: &AdjacencyList) -> Result<String, OptError>
    requires { AreInverse graph.now }
{
    let mut text = String::new(alloc);
    for component in &sccs_in_topological_order(alloc, &(), graph)? {
        write!(text, "{:?} {} ", component.nodes, component.is_cyclic)?;
    }
    Ok(text)
}

fn reverse(alloc: Global, graph: &AdjacencyList) -> Result<String, OptError>
    requires { AreInverse graph.now }
{
    let reverse = ReverseGraph::new(alloc, &(), graph)?;
    let exits: Vec<u32> = reverse.pre_sentinels().collect(alloc)?;
    let order = topological_order(alloc, &(), &reverse)?;
    Ok(format!(in alloc; "{exits:?} {order:?}")?)
}

fn dominance(alloc: Global, graph: &AdjacencyList) -> Result<String, OptError>
    requires { AreInverse graph.now }
{
    let tree = DominatorTree::new(alloc, &(), graph)?;
    let said = (tree.dominates(&3, &4), tree.dominates(&1, &3));
    Ok(format!(in alloc; "{said:?}")?)
}

fn list_tree(tree: &DominatorTree<u32>, text: &mut String) -> Result<(), OptError> {
    if !tree.is_reached(&0) || !tree.is_reached(&2) || !tree.is_reached(&4) {
        return Ok(());
    }
    for child in tree.children(&0) {
        write!(text, "{child} ")?;
    }
    for above in tree.dominators(&4) {
        write!(text, "<{above} ")?;
    }
    write!(text, "{}", tree.nearest_common_dominator(&2, &4))?;
    Ok(())
}

// What it lists of the graph.
fn list_graph(alloc: Global, graph: &AdjacencyList) -> Result<String, OptError>
    requires { AreInverse graph.now }
{
    let tree = DominatorTree::new(alloc, &(), graph)?;
    let mut text = String::new(alloc);
    list_tree(&tree, &mut text)?;
    Ok(text)
}

fn post_dominance(alloc: Global, graph: &AdjacencyList) -> Result<String, OptError>
    requires { AreInverse graph.now }
{
    let reverse = ReverseGraph::new(alloc, &(), graph)?;
    let tree = DominatorTree::new(alloc, &(), &reverse)?;
    let first = ReverseNode::Real(0);
    let by_three = tree.dominates(&ReverseNode::Real(3), &first);
    let by_one = tree.dominates(&ReverseNode::Real(1), &first);
    Ok(format!(in alloc; "{by_three} {by_one}")?)
}

/// Which function calls which.
#[derive(Drop)]
pub struct CallGraph {
    calls: AdjacencyList,
}

impl ControlFlowGraph<()> for CallGraph {
    type Node = u32;

    ghost graph = { λ g _. graph_of g.calls };

    ghost is_lawful = { λ g _. AreInverse g.calls };

    ghost laws = { λ g c h. adjacency_lawful g.calls h };

    fn num_successors(&self, ctx: &(), node: &u32) -> usize {
        self.calls.num_successors(ctx, node)
    }

    fn get_successor(&self, ctx: &(), node: &u32, i: usize) -> u32 {
        self.calls.get_successor(ctx, node, i)
    }

    fn num_predecessors(&self, ctx: &(), node: &u32) -> usize {
        self.calls.num_predecessors(ctx, node)
    }

    fn get_predecessor(&self, ctx: &(), node: &u32, i: usize) -> u32 {
        self.calls.get_predecessor(ctx, node, i)
    }

    fn entry_node(&self, ctx: &()) -> Option<u32> {
        self.calls.entry_node(ctx)
    }

    fn nodes(&self, alloc: Global, ctx: &()) -> Result<Vec<u32>, OptError> {
        self.calls.nodes(alloc, ctx)
    }
}

fn callees_first(alloc: Global, graph: &CallGraph) -> Result<Vec<u32>, OptError>
    requires { AreInverse graph.now.calls }
{
    post_order(alloc, &(), graph)
}

fn check(rt: &impl Abort, said: Result<String, OptError>, want: &str) {
    let said = said.expect(rt, "memory");
    expect_text(rt, said.trim(), want, "an answer");
}

#[test]
fn answers(rt: HostRuntime) {
    let alloc = rt.alloc();
    let graph = sample_graph(alloc).expect(&rt, "memory");
    let graph = graph.expect(&rt, "a row for each successor");
    check(
        &rt,
        orders(alloc, &graph),
        "[4, 3, 1, 2, 0] [0, 2, 1, 3, 4]",
    );
    check(&rt, search(alloc, &graph), "[0, 1, 3, 4, 2] true");
    let want = "[2, 3, 1, 0] true [4] false";
    check(&rt, components(alloc, &graph), want);
    let want = "[4] [Sentinel, Real(4), Real(3), Real(2), Real(1), Real(0)]";
    check(&rt, reverse(alloc, &graph), want);
    check(&rt, dominance(alloc, &graph), "(true, false)");
    check(&rt, list_graph(alloc, &graph), "1 3 2 <4 <3 <0 0");
    check(&rt, post_dominance(alloc, &graph), "true false");
    let calls = CallGraph { calls: graph };
    let order = callees_first(alloc, &calls).expect(&rt, "memory");
    assert!(rt; order.first() == Some(&4));
}
