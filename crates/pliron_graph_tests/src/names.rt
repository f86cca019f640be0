//! Each public name of `pliron_graph_components` at its place.
ghost use Rattle.pliron_graph_traversal.specs.Adjacency.{AreInverse};

use crate::cases::{graph_of, rows_of};
use pliron_graph_components::{
    AdjacencyList, ControlFlowGraph, DFSEdgeKind, DFSTraversal, HasLabel, OrderIter, ReverseGraph,
    ReverseNode, ReverseOrderIter, Scc, laws, post_order, post_order_by_component,
    sccs_in_topological_order, topological_order, topological_order_by_component,
};
use std::alloc::Global;
use std::process::Abort;

fn check_first(rt: &impl Abort, nodes: OrderIter<'_, u32>, want: Option<u32>, count: usize) {
    assert!(rt; nodes.len() == count);
    let mut rest = nodes;
    assert!(rt; rest.next() == want);
}

fn check_last(rt: &impl Abort, nodes: ReverseOrderIter<'_, u32>, want: Option<u32>, count: usize) {
    assert!(rt; nodes.len() == count);
    let mut rest = nodes;
    assert!(rt; rest.next() == want);
}

fn check_orders(rt: &impl Abort, alloc: Global, graph: &AdjacencyList)
    requires { AreInverse graph.now }
{
    let order = post_order(alloc, &(), graph).expect(rt, "memory");
    assert!(rt; order.as_slice() == [1, 0].as_slice());
    let order = topological_order(alloc, &(), graph).expect(rt, "memory");
    assert!(rt; order.as_slice() == [0, 1].as_slice());
    let walks = post_order_by_component(alloc, &(), graph).expect(rt, "memory");
    assert!(rt; walks.len() == 1);
    let walks = topological_order_by_component(alloc, &(), graph).expect(rt, "memory");
    assert!(rt; walks.len() == 1);
}

// The first component.
fn check_component(rt: &impl Abort, components: &[Scc<u32>]) {
    let Scc { nodes, is_cyclic } = components.first().expect(rt, "a component");
    assert!(rt; nodes.as_slice() == [0].as_slice());
    assert!(rt; *is_cyclic);
}

fn check_search(rt: &impl Abort, search: &DFSTraversal<u32>) {
    check_first(rt, search.pre_order(), Some(0), 2);
    check_first(rt, search.post_order(), Some(1), 2);
    check_last(rt, search.reverse_post_order(), Some(0), 2);
}

fn check_entry<C, G: ControlFlowGraph<C, Node = u32>>(
    rt: &impl Abort,
    ctx: &C,
    graph: &G,
    entry: Option<u32>,
)
    requires { G.is_lawful graph.now ctx.now }
{
    assert!(rt; graph.entry_node(ctx) == entry);
}

fn check_reverse(rt: &impl Abort, reverse: &ReverseGraph<'_, AdjacencyList, ()>)
    requires { AreInverse reverse.now.original }
{
    let pre_sentinels = reverse.pre_sentinels().clone().expect(rt, "memory");
    check_first(rt, pre_sentinels, Some(1), 1);
    check_entry(rt, &(), reverse.original(), Some(0));
}

fn check_answers(rt: &impl Abort, alloc: Global, graph: &AdjacencyList)
    requires { AreInverse graph.now }
{
    let components = sccs_in_topological_order(alloc, &(), graph).expect(rt, "memory");
    check_component(rt, &components);
    let search = DFSTraversal::new(alloc, &(), graph).expect(rt, "memory");
    check_search(rt, &search);
    let reverse = ReverseGraph::new(alloc, &(), graph).expect(rt, "memory");
    check_reverse(rt, &reverse);
}

#[test]
fn calls_on_a_graph(rt: HostRuntime) {
    let alloc = rt.alloc();
    let graph = graph_of(&rt, alloc, rows_of(&rt, alloc, "0 1;1;"));
    check_entry(&rt, &(), &graph, Some(0));
    check_orders(&rt, alloc, &graph);
    check_answers(&rt, alloc, &graph);
}

fn check_label(rt: &impl Abort, alloc: Global, node: ReverseNode<u32>, want: &str) {
    let label = node.label(alloc, &()).expect(rt, "memory");
    assert!(rt; label.as_str() == want);
}

#[test]
fn labels_of_reverse_nodes(rt: HostRuntime) {
    check_label(&rt, rt.alloc(), ReverseNode::Sentinel, "sentinel");
    check_label(&rt, rt.alloc(), ReverseNode::Real(7), "7");
}

#[test]
fn nodes_behind_reverse_nodes(rt: HostRuntime) {
    let sentinel: ReverseNode<u32> = ReverseNode::Sentinel;
    assert!(rt; sentinel.is_sentinel());
    assert!(rt; sentinel.into_real() == None);
    let real = ReverseNode::Real(7u32);
    assert!(rt; !real.is_sentinel());
    assert!(rt; real.as_real() == Some(&7));
    assert!(rt; real.into_real() == Some(7));
}

#[test]
fn kinds_of_edges(rt: HostRuntime) {
    assert!(rt; DFSEdgeKind::Forward != DFSEdgeKind::Back);
    assert!(rt; DFSEdgeKind::Back != DFSEdgeKind::Cross);
}

#[test]
fn laws_that_users_may_cite(rt: HostRuntime) {
    laws::numbering_is_one::<u32>();
    laws::edge_in_post_order::<u32>();
    laws::edge_in_topological_order::<u32>();
    laws::edge_between_walks::<u32>();
    laws::walk_from_first_node::<u32>();
    laws::back_edge_on_cycle::<u32>();
    laws::edge_between_components::<u32>();
    laws::paths_of_regions();
    laws::sentinel_reaches_all::<u32>();
    laws::no_pre_sentinel_is_spare::<u32>();
    laws::equality_of_reverse_nodes::<u32>();
    laws::hashing_of_reverse_nodes::<u32>();
    let _ = rt;
}
