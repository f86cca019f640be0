//! The graph of each region, and its reverse: orders, components, searches and dominators.
ghost use Rattle.std.specs.Prelude.{IsTrue};
ghost use Rattle.pliron_core.specs.Tree.{IsRegion};
ghost use Rattle.pliron_graph_traversal.specs.Regions.{IsLawfulRegion};

use super::texts::{TEXTS, name_and_text};
use super::trees::{blocks_of, holders_of};
use pliron_core::{Context, Operation, Ptr, Region};
use pliron_graph_components::{ReverseGraph, sccs_in_topological_order};
use pliron_graph_dominance::DominatorTree;
use pliron_graph_traversal::{
    ControlFlowGraph, DFSTraversal, post_order, post_order_by_component, topological_order,
    topological_order_by_component,
};
use pliron_laws::{OptError, edges_last};
use pliron_test_cases::cases::read;
use std::alloc::Global;
use std::process::Abort;

// How many nodes the lists have together.
fn total<N>(lists: &[Vec<N>]) -> usize {
    let mut total = 0usize;
    for list in lists {
        total = total.saturating_add(list.len());
    }
    total
}

fn check_order<N: Copy>(rt: &impl Abort, order: Result<Vec<N>, OptError>, nodes: usize) {
    let order = order.expect(rt, "memory");
    assert!(rt; order.len() == nodes);
}

fn check_walks<N: Copy>(rt: &impl Abort, walks: Result<Vec<Vec<N>>, OptError>, nodes: usize) {
    let walks = walks.expect(rt, "memory");
    assert!(rt; total(&walks) == nodes);
}

// Each order has so many nodes, and is made of walks that have as many together.
fn check_orders<C, G: ControlFlowGraph<C>>(
    rt: &impl Abort,
    alloc: Global,
    ctx: &C,
    graph: &G,
    nodes: usize,
)
    requires { G.is_lawful graph.now ctx.now }
{
    check_order(rt, post_order(alloc, ctx, graph), nodes);
    check_order(rt, topological_order(alloc, ctx, graph), nodes);
    check_walks(rt, post_order_by_component(alloc, ctx, graph), nodes);
    check_walks(rt, topological_order_by_component(alloc, ctx, graph), nodes);
}

// The components have so many nodes together.
fn check_components<C, G: ControlFlowGraph<C>>(
    rt: &impl Abort,
    alloc: Global,
    ctx: &C,
    graph: &G,
    nodes: usize,
)
    requires { G.is_lawful graph.now ctx.now }
{
    let components = sccs_in_topological_order(alloc, ctx, graph).expect(rt, "memory");
    let mut count = 0usize;
    for component in &components {
        count = count.saturating_add(component.nodes.len());
        assert!(rt; component.nodes.len() < 2 || component.is_cyclic);
    }
    assert!(rt; count == nodes);
}

// A search and the tree of dominators reach the same nodes. The entry dominates each node, and only itself
// dominates the entry.
fn check_dominators<C, G: ControlFlowGraph<C>>(
    rt: &impl Abort,
    alloc: Global,
    ctx: &C,
    graph: &G,
    nodes: usize,
)
    requires { G.is_lawful graph.now ctx.now }
{
    let search = DFSTraversal::new(alloc, ctx, graph).expect(rt, "memory");
    let tree = DominatorTree::new(alloc, ctx, graph).expect(rt, "memory");
    let all = graph.nodes(alloc, ctx).expect(rt, "memory");
    assert!(rt; all.len() == nodes);
    let entry = graph.entry_node(ctx);
    for node in &all {
        assert!(rt; tree.is_reached(node) == search.is_reached(node));
        if let Some(entry) = &entry {
            assert!(rt; tree.dominates(entry, node));
            assert!(rt; tree.dominates(node, entry) == (node == entry));
        }
    }
}

fn check_graph<C, G: ControlFlowGraph<C>>(
    rt: &impl Abort,
    alloc: Global,
    ctx: &C,
    graph: &G,
    nodes: usize,
)
    requires { G.is_lawful graph.now ctx.now }
{
    check_orders(rt, alloc, ctx, graph, nodes);
    check_components(rt, alloc, ctx, graph, nodes);
    check_dominators(rt, alloc, ctx, graph, nodes);
}

// Whether the graph of the region may be read.
fn may_be_read(ctx: &Context, region: Ptr<Region>) -> bool
    requires { IsRegion ctx.now.tree region }
    ensures { IsTrue result → IsLawfulRegion ctx.now.tree region }
{
    ctx.well_formed();
    edges_last(region.get_parent_op(ctx), ctx)
}

fn check_region(rt: &impl Abort, alloc: Global, holder: Ptr<Operation>, ctx: &Context) {
    let nodes = blocks_of(rt, alloc, holder, ctx).len();
    assert!(rt; holder.is_live(ctx));
    assert!(rt; holder.num_region(ctx) == 1);
    let region = holder.get_region(ctx, 0);
    assert!(rt; may_be_read(ctx, region));
    check_graph(rt, alloc, ctx, &region, nodes);
    let reverse = ReverseGraph::new(alloc, ctx, &region).expect(rt, "memory");
    check_graph(rt, alloc, ctx, &reverse, nodes.saturating_add(1));
}

fn check_case(rt: &impl Abort, alloc: Global, ctx: &mut Context, case: &str) {
    let (name, text) = name_and_text(rt, case);
    let whole = read(alloc, ctx, text).expect(rt, name);
    for holder in &holders_of(rt, alloc, whole, ctx) {
        check_region(rt, alloc, *holder, ctx);
    }
}

fn check(rt: &impl Abort, alloc: Global, case: &str) {
    let mut ctx = Context::new(alloc);
    check_case(rt, alloc, &mut ctx, case)
}

#[test]
fn graphs_of_regions(rt: HostRuntime) {
    for case in TEXTS.lines() {
        check(&rt, rt.alloc(), case);
    }
}
