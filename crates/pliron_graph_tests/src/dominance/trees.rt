//! What a tree of dominators says of each node of a graph, as text.
use crate::texts::{push, push_label};
use pliron_graph_dominance::DominatorTree;
use pliron_graph_traversal::{ControlFlowGraph, HasLabel};
use std::alloc::Global;
use std::hash::Hash;
use std::process::Abort;

fn push_immediate<C, N: HasLabel<C> + Eq + Hash + Copy>(
    rt: &impl Abort,
    alloc: Global,
    ctx: &C,
    tree: &DominatorTree<N>,
    node: &N,
    text: &mut String,
) {
    push(rt, text, " ");
    push_label(rt, alloc, ctx, node, text);
    if !tree.is_reached(node) {
        return push(rt, text, "=?");
    }
    push(rt, text, "=");
    match tree.immediate_dominator(node) {
        Some(above) => push_label(rt, alloc, ctx, &above, text),
        None => push(rt, text, "-"),
    }
}

fn push_lists<C, N: HasLabel<C> + Eq + Hash + Copy>(
    rt: &impl Abort,
    alloc: Global,
    ctx: &C,
    tree: &DominatorTree<N>,
    node: &N,
    text: &mut String,
) {
    if !tree.is_reached(node) {
        return;
    }
    push(rt, text, " ");
    push_label(rt, alloc, ctx, node, text);
    push(rt, text, ":");
    for child in tree.children(node) {
        push(rt, text, " ");
        push_label(rt, alloc, ctx, &child, text);
    }
    push(rt, text, " /");
    for above in tree.dominators(node) {
        push(rt, text, " ");
        push_label(rt, alloc, ctx, &above, text);
    }
    push(rt, text, ";");
}

/// The immediate dominators of the nodes, or with `lists` their children and dominators.
pub fn push_dominators<C, G: ControlFlowGraph<C>>(
    rt: &impl Abort,
    alloc: Global,
    ctx: &C,
    graph: &G,
    lists: bool,
    text: &mut String,
)
    requires { G.is_lawful graph.now ctx.now }
{
    let tree = DominatorTree::new(alloc, ctx, graph).expect(rt, "memory");
    let nodes = graph.nodes(alloc, ctx).expect(rt, "memory");
    for node in &nodes {
        if lists {
            push_lists(rt, alloc, ctx, &tree, node, text);
        } else {
            push_immediate(rt, alloc, ctx, &tree, node, text);
        }
    }
}
