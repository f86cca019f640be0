//! What the calls of `pliron_graph_components` and `pliron_graph_dominance` answer on any graph, as text.
ghost use Rattle.std.specs.Iterator.{IsFinite};
ghost use Rattle.std.specs.Option.{option_to_list};
ghost use Rattle.std.specs.Prelude.{Contains};
ghost use Rattle.pliron_graph_traversal.specs.Search.{IsListed, IsSearch};

use crate::dominance::trees::push_dominators;
use pliron_graph_components::{
    ControlFlowGraph, DFSEdgeKind, DFSTraversal, HasLabel, ReverseGraph, Scc, post_order,
    post_order_by_component, sccs_in_topological_order, topological_order,
    topological_order_by_component,
};
use std::alloc::Global;
use std::hash::Hash;
use std::process::Abort;

/// The answer of a graph, or of its reverse.
pub fn answer<C, G: ControlFlowGraph<C>>(
    rt: &impl Abort,
    alloc: Global,
    ctx: &C,
    graph: &G,
    what: &str,
) -> String
    requires { G.is_lawful graph.now ctx.now }
{
    let mut text = String::new(alloc);
    push_answer(rt, alloc, ctx, graph, what, &mut text);
    text
}

fn push_answer<C, G: ControlFlowGraph<C>>(
    rt: &impl Abort,
    alloc: Global,
    ctx: &C,
    graph: &G,
    what: &str,
    text: &mut String,
)
    requires { G.is_lawful graph.now ctx.now }
{
    match what.strip_prefix("reverse ") {
        Some(what) => push_reversed(rt, alloc, ctx, graph, what, text),
        None => push_plain(rt, alloc, ctx, graph, what, text),
    }
}

fn push_reversed<C, G: ControlFlowGraph<C>>(
    rt: &impl Abort,
    alloc: Global,
    ctx: &C,
    graph: &G,
    what: &str,
    text: &mut String,
)
    requires { G.is_lawful graph.now ctx.now }
{
    let reverse = ReverseGraph::new(alloc, ctx, graph).expect(rt, "memory");
    if what == "pre-sentinels" {
        push_yielded(rt, alloc, ctx, reverse.pre_sentinels(), text);
    } else {
        push_plain(rt, alloc, ctx, &reverse, what, text);
    }
}

fn push_plain<C, G: ControlFlowGraph<C>>(
    rt: &impl Abort,
    alloc: Global,
    ctx: &C,
    graph: &G,
    what: &str,
    text: &mut String,
)
    requires { G.is_lawful graph.now ctx.now }
{
    match what {
        "orders" => push_orders(rt, alloc, ctx, graph, text),
        "searches" => push_searched(rt, alloc, ctx, graph, text),
        "edges" => push_edges(rt, alloc, ctx, graph, text),
        "components" => push_components(rt, alloc, ctx, graph, text),
        "indices" => push_indices(rt, alloc, ctx, graph, text),
        "entry" => push_entry(rt, alloc, ctx, graph, text),
        "immediate dominators" => push_dominators(rt, alloc, ctx, graph, false, text),
        "children and dominators" => push_dominators(rt, alloc, ctx, graph, true, text),
        _ => push_neighbours(rt, alloc, ctx, graph, text),
    }
}

/// Pushes the text.
pub fn push(rt: &impl Abort, text: &mut String, piece: &str) {
    text.push_str(piece).expect(rt, "memory");
}

/// Pushes the label of the node.
pub fn push_label<C, N: HasLabel<C>>(
    rt: &impl Abort,
    alloc: Global,
    ctx: &C,
    node: &N,
    text: &mut String,
) {
    push(rt, text, &node.label(alloc, ctx).expect(rt, "memory"));
}

/// The labels of the nodes, with a text between each two.
pub fn push_labels<C, N: HasLabel<C>>(
    rt: &impl Abort,
    alloc: Global,
    ctx: &C,
    nodes: &[N],
    between: &str,
    text: &mut String,
) {
    for (i, node) in nodes.iter().enumerate() {
        push(rt, text, if i > 0 { between } else { "" });
        push_label(rt, alloc, ctx, node, text);
    }
}

// The labels of what an iterator yields, with a blank between each two.
fn push_yielded<C, N: HasLabel<C> + Copy, I: Iterator<Item = N> + Drop>(
    rt: &impl Abort,
    alloc: Global,
    ctx: &C,
    nodes: I,
    text: &mut String,
)
    requires can { I.can_next nodes }
    requires ends { IsFinite (I.remaining nodes) }
{
    let mut is_first = true;
    for node in nodes {
        push(rt, text, if is_first { "" } else { " " });
        push_label(rt, alloc, ctx, &node, text);
        is_first = false;
    }
}

// Each list of labels in brackets.
fn push_bracketed<C, N: HasLabel<C>>(
    rt: &impl Abort,
    alloc: Global,
    ctx: &C,
    lists: &[Vec<N>],
    text: &mut String,
) {
    for list in lists {
        push(rt, text, "[");
        push_labels(rt, alloc, ctx, list, " ", text);
        push(rt, text, "]");
    }
}

// The walks in both orders, and the nodes in both orders.
fn push_orders<C, G: ControlFlowGraph<C>>(
    rt: &impl Abort,
    alloc: Global,
    ctx: &C,
    graph: &G,
    text: &mut String,
)
    requires { G.is_lawful graph.now ctx.now }
{
    push_walks(rt, alloc, ctx, graph, text);
    let nodes = post_order(alloc, ctx, graph).expect(rt, "memory");
    push(rt, text, " / ");
    push_labels(rt, alloc, ctx, &nodes, " ", text);
    let nodes = topological_order(alloc, ctx, graph).expect(rt, "memory");
    push(rt, text, " / ");
    push_labels(rt, alloc, ctx, &nodes, " ", text);
}

fn push_walks<C, G: ControlFlowGraph<C>>(
    rt: &impl Abort,
    alloc: Global,
    ctx: &C,
    graph: &G,
    text: &mut String,
)
    requires { G.is_lawful graph.now ctx.now }
{
    let walks = post_order_by_component(alloc, ctx, graph).expect(rt, "memory");
    push_bracketed(rt, alloc, ctx, &walks, text);
    let walks = topological_order_by_component(alloc, ctx, graph).expect(rt, "memory");
    push(rt, text, " / ");
    push_bracketed(rt, alloc, ctx, &walks, text);
}

// The reached nodes in the three orders of the search, and the numbers of each node.
fn push_searched<C, G: ControlFlowGraph<C>>(
    rt: &impl Abort,
    alloc: Global,
    ctx: &C,
    graph: &G,
    text: &mut String,
)
    requires { G.is_lawful graph.now ctx.now }
{
    let search = DFSTraversal::new(alloc, ctx, graph).expect(rt, "memory");
    push_search(rt, alloc, ctx, &search, text);
    let nodes = graph.nodes(alloc, ctx).expect(rt, "memory");
    for node in &nodes {
        push_numbers(rt, alloc, ctx, &search, node, text);
    }
}

fn push_search<C, N: HasLabel<C> + Eq + Hash + Copy>(
    rt: &impl Abort,
    alloc: Global,
    ctx: &C,
    search: &DFSTraversal<N>,
    text: &mut String,
) {
    push_yielded(rt, alloc, ctx, search.pre_order(), text);
    push(rt, text, " / ");
    push_yielded(rt, alloc, ctx, search.post_order(), text);
    push(rt, text, " / ");
    push_yielded(rt, alloc, ctx, search.reverse_post_order(), text);
    push(rt, text, " /");
}

// The three numbers of a reached node.
fn push_numbers<C, N: HasLabel<C> + Eq + Hash + Copy>(
    rt: &impl Abort,
    alloc: Global,
    ctx: &C,
    search: &DFSTraversal<N>,
    node: &N,
    text: &mut String,
) {
    push(rt, text, " ");
    push_label(rt, alloc, ctx, node, text);
    if !search.is_reached(node) {
        return push(rt, text, "=-");
    }
    let pre = search.pre_order_number(node);
    let post = search.post_order_number(node);
    let reverse = search.reverse_post_order_number(node);
    write!(text, "={pre}/{post}/{reverse}").expect(rt, "memory");
}

// The edges of reached nodes, nodes in listed order and successors by index, each with its kind.
fn push_edges<C, G: ControlFlowGraph<C>>(
    rt: &impl Abort,
    alloc: Global,
    ctx: &C,
    graph: &G,
    text: &mut String,
)
    requires { G.is_lawful graph.now ctx.now }
{
    let search = DFSTraversal::new(alloc, ctx, graph).expect(rt, "memory");
    let nodes = graph.nodes(alloc, ctx).expect(rt, "memory");
    for node in &nodes {
        if search.is_reached(node) {
            let edges = edges_of(rt, alloc, ctx, graph, &search, node);
            push_each_edge(rt, alloc, ctx, &edges, text);
        }
    }
}

// An edge, and what a search says of it.
#[derive(Drop)]
struct Edge<N> {
    from: N,
    to: N,
    kind: DFSEdgeKind,
}

// The edges of a node that the search from the entry reached.
fn edges_of<C, G: ControlFlowGraph<C>>(
    rt: &impl Abort,
    alloc: Global,
    ctx: &C,
    graph: &G,
    search: &DFSTraversal<G::Node>,
    node: &G::Node,
) -> Vec<Edge<G::Node>>
    requires lawful { G.is_lawful graph.now ctx.now }
    requires member { Contains (G.graph graph.now ctx.now).nodes node.now }
    requires search { IsSearch G.Node.eq (G.graph graph.now ctx.now) (option_to_list (G.graph graph.now ctx.now).entry)
        search.now }
    requires reached { IsListed G.Node.eq search.now.pre node.now }
{
    let mut edges = Vec::new(alloc);
    for i in 0..graph.num_successors(ctx, node) {
        let to = graph.get_successor(ctx, node, i);
        let kind = search.edge_kind(node, &to);
        let from = *node;
        edges.push(Edge { from, to, kind }).expect(rt, "memory");
    }
    edges
}

fn push_each_edge<C, N: HasLabel<C>>(
    rt: &impl Abort,
    alloc: Global,
    ctx: &C,
    edges: &[Edge<N>],
    text: &mut String,
) {
    for edge in edges {
        push_label(rt, alloc, ctx, &edge.from, text);
        push(rt, text, ">");
        push_label(rt, alloc, ctx, &edge.to, text);
        write!(text, ":{:?} ", edge.kind).expect(rt, "memory");
    }
}

fn push_components<C, G: ControlFlowGraph<C>>(
    rt: &impl Abort,
    alloc: Global,
    ctx: &C,
    graph: &G,
    text: &mut String,
)
    requires { G.is_lawful graph.now ctx.now }
{
    let components = sccs_in_topological_order(alloc, ctx, graph).expect(rt, "memory");
    push_each_component(rt, alloc, ctx, &components, text);
}

// Each component in brackets, with a star where it is cyclic.
fn push_each_component<C, N: HasLabel<C>>(
    rt: &impl Abort,
    alloc: Global,
    ctx: &C,
    components: &[Scc<N>],
    text: &mut String,
) {
    for component in components {
        push(rt, text, "[");
        push_labels(rt, alloc, ctx, &component.nodes, " ", text);
        push(rt, text, if component.is_cyclic { "]* " } else { "] " });
    }
}

// The predecessors and the successors of each node around it, by the two lists.
fn push_neighbours<C, G: ControlFlowGraph<C>>(
    rt: &impl Abort,
    alloc: Global,
    ctx: &C,
    graph: &G,
    text: &mut String,
)
    requires { G.is_lawful graph.now ctx.now }
{
    let nodes = graph.nodes(alloc, ctx).expect(rt, "memory");
    for node in &nodes {
        push(rt, text, if text.is_empty() { "" } else { ", " });
        push_lists(rt, alloc, ctx, graph, node, text);
    }
}

fn push_lists<C, G: ControlFlowGraph<C>>(
    rt: &impl Abort,
    alloc: Global,
    ctx: &C,
    graph: &G,
    node: &G::Node,
    text: &mut String,
)
    requires lawful { G.is_lawful graph.now ctx.now }
    requires member { Contains (G.graph graph.now ctx.now).nodes node.now }
{
    let before = graph.predecessors(alloc, ctx, node).expect(rt, "memory");
    push_labels(rt, alloc, ctx, &before, " ", text);
    push(rt, text, ">");
    push_label(rt, alloc, ctx, node, text);
    push(rt, text, ">");
    let after = graph.successors(alloc, ctx, node).expect(rt, "memory");
    push_labels(rt, alloc, ctx, &after, " ", text);
}

// The same by index.
fn push_indices<C, G: ControlFlowGraph<C>>(
    rt: &impl Abort,
    alloc: Global,
    ctx: &C,
    graph: &G,
    text: &mut String,
)
    requires { G.is_lawful graph.now ctx.now }
{
    let nodes = graph.nodes(alloc, ctx).expect(rt, "memory");
    for node in &nodes {
        push(rt, text, if text.is_empty() { "" } else { ", " });
        push_by_index(rt, alloc, ctx, graph, node, text);
    }
}

fn push_by_index<C, G: ControlFlowGraph<C>>(
    rt: &impl Abort,
    alloc: Global,
    ctx: &C,
    graph: &G,
    node: &G::Node,
    text: &mut String,
)
    requires lawful { G.is_lawful graph.now ctx.now }
    requires member { Contains (G.graph graph.now ctx.now).nodes node.now }
{
    for i in 0..graph.num_predecessors(ctx, node) {
        push(rt, text, if i > 0 { " " } else { "" });
        push_label(rt, alloc, ctx, &graph.get_predecessor(ctx, node, i), text);
    }
    push(rt, text, ">");
    push_label(rt, alloc, ctx, node, text);
    push(rt, text, ">");
    for i in 0..graph.num_successors(ctx, node) {
        push(rt, text, if i > 0 { " " } else { "" });
        push_label(rt, alloc, ctx, &graph.get_successor(ctx, node, i), text);
    }
}

fn push_entry<C, G: ControlFlowGraph<C>>(
    rt: &impl Abort,
    alloc: Global,
    ctx: &C,
    graph: &G,
    text: &mut String,
)
    requires { G.is_lawful graph.now ctx.now }
{
    match graph.entry_node(ctx) {
        Some(entry) => push_label(rt, alloc, ctx, &entry, text),
        None => push(rt, text, "none"),
    }
}
