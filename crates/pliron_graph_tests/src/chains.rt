//! A chain of 65,536 nodes, each with the next as its successor.
ghost use Rattle.pliron_graph_traversal.specs.Adjacency.{AreInverse};

use crate::cases::graph_of;
use pliron_graph_components::{
    AdjacencyList, DFSTraversal, Scc, post_order, sccs_in_topological_order,
};
use std::alloc::Global;
use std::process::Abort;

fn chain(rt: &impl Abort, alloc: Global) -> AdjacencyList
    ensures { AreInverse result }
{
    let mut rows = Vec::new(alloc);
    for next in 1..65_536 {
        let row = [next].to_vec(alloc).expect(rt, "memory");
        rows.push(row).expect(rt, "memory");
    }
    rows.push(Vec::new(alloc)).expect(rt, "memory");
    graph_of(rt, alloc, rows)
}

fn check_order(rt: &impl Abort, order: &[u32]) {
    assert!(rt; order.len() == 65_536);
    assert!(rt; order.first() == Some(&65_535));
    assert!(rt; order.last() == Some(&0));
}

fn check_numbers(rt: &impl Abort, search: &DFSTraversal<u32>) {
    assert!(rt; search.is_reached(&65_535));
    assert!(rt; search.pre_order_number(&65_535) == 65_535);
    assert!(rt; search.post_order_number(&65_535) == 0);
}

fn check_components(rt: &impl Abort, components: &[Scc<u32>]) {
    assert!(rt; components.len() == 65_536);
    assert!(rt; components[65_535].nodes.first() == Some(&65_535));
    assert!(rt; !components[0].is_cyclic);
}

fn check_chain(rt: &impl Abort, alloc: Global, graph: &AdjacencyList)
    requires { AreInverse graph.now }
{
    let order = post_order(alloc, &(), graph).expect(rt, "memory");
    check_order(rt, &order);
    let search = DFSTraversal::new(alloc, &(), graph).expect(rt, "memory");
    check_numbers(rt, &search);
    let components = sccs_in_topological_order(alloc, &(), graph).expect(rt, "memory");
    check_components(rt, &components);
}

#[test]
fn a_long_chain(rt: HostRuntime) {
    let graph = chain(&rt, rt.alloc());
    check_chain(&rt, rt.alloc(), &graph);
}
