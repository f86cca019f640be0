//! Orders of all nodes of a graph.
ghost use Rattle.std.specs.Prelude.{◌≡◌, ◌<◌, IfOk, IsOkUnless, length, map, reverse};
ghost use Rattle.std.specs.List.{All};
ghost use Rattle.pliron_graph_traversal.specs.Internal.Walked.{AreFoundWalks, AreNamedLists};
ghost use Rattle.pliron_graph_traversal.specs.Walks.{concatenation, AreWalks, AreReversedWalks, IsPostOrder, IsTopologicalOrder};

use crate::search::walk_over;
use crate::traversal::nodes_by_number;
use crate::{AdjacencyList, ControlFlowGraph, ListedSet, NumberSet};
use indexmap::IndexSet;
use pliron_laws::OptError;
use std::alloc::Global;

/// The walks of a depth-first search that starts from each node in listed order.
///
/// A walk starts from the first listed node that no earlier walk holds, takes successors by index, and lists
/// a node when all its successors are done. So a walk ends with the node that it started from.
///
/// Asks that the graph may be read in the context. Errors: allocation failure. Cost: a few reads for each node
/// and each edge of a graph that has numbers, and as many look-ups in a hashed table of any other.
pub fn post_order_by_component<C, G: ControlFlowGraph<C>>(
    alloc: Global,
    ctx: &C,
    graph: &G,
) -> Result<Vec<Vec<G::Node>>, OptError>
    requires { G.is_lawful graph.now ctx.now }
    ensures walks { IfOk result (λ r. AreWalks G.Node.eq (G.graph graph.now ctx.now) (map (λ w. w.items) r.items)) }
    ensures memory { IsOkUnless result OptError.Memory }
{
    let Some(lists) = graph.by_number(ctx) else {
        return find_walks::<C, G, IndexSet<G::Node>>(alloc, ctx, graph);
    };
    let nodes = graph.nodes(alloc, ctx)?;
    let found = find_walks::<(), AdjacencyList, NumberSet>(alloc, &(), lists)?;
    named_walks(alloc, &nodes, &found)
}

// The walks, by sets of this kind.
fn find_walks<C, G: ControlFlowGraph<C>, S: ListedSet<G::Node>>(
    alloc: Global,
    ctx: &C,
    graph: &G,
) -> Result<Vec<Vec<G::Node>>, OptError>
    requires { G.is_lawful graph.now ctx.now }
    ensures found { IfOk result (λ r. AreFoundWalks G.Node.eq (G.graph graph.now ctx.now)
        (map (λ w. w.items) r.items)) }
    ensures memory { IsOkUnless result OptError.Memory }
{
    let mut seen = S::empty(alloc);
    let mut walks = Vec::new(alloc);
    let mut stack = Vec::new(alloc);
    let nodes = graph.nodes(alloc, ctx)?;
    for node in &nodes {
        if seen.contains(node) {
            continue;
        }
        let mut post = Vec::new(alloc);
        walk_over(ctx, graph, *node, &mut seen, &mut post, &mut stack)?;
        walks.push(post)?;
    }
    Ok(walks)
}

// The walks of nodes, by those of their numbers.
fn named_walks<N: Copy>(
    alloc: Global,
    nodes: &[N],
    walks: &[Vec<u32>],
) -> Result<Vec<Vec<N>>, OptError>
    requires { All (λ w. All (λ k. k < length nodes.now) w.items) walks.now }
    ensures named { IfOk result (λ r. AreNamedLists nodes.now (map (λ w. w.items) walks.now)
        (map (λ w. w.items) r.items)) }
    ensures memory { IsOkUnless result OptError.Memory }
{
    let mut all = Vec::with_capacity(alloc, walks.len())?;
    for walk in walks {
        all.push(nodes_by_number(alloc, nodes, walk)?)?;
    }
    Ok(all)
}

/// The walks of [`post_order_by_component`], in the same order, each reversed.
///
/// So a walk begins with the node that it started from, and an edge between two walks goes from the later to
/// the earlier.
///
/// Asks that the graph may be read in the context. Errors: allocation failure. Cost: as
/// [`post_order_by_component`].
pub fn topological_order_by_component<C, G: ControlFlowGraph<C>>(
    alloc: Global,
    ctx: &C,
    graph: &G,
) -> Result<Vec<Vec<G::Node>>, OptError>
    requires { G.is_lawful graph.now ctx.now }
    ensures walks { IfOk result (λ r. AreReversedWalks G.Node.eq (G.graph graph.now ctx.now)
        (map (λ w. w.items) r.items)) }
    ensures memory { IsOkUnless result OptError.Memory }
{
    let mut walks = post_order_by_component(alloc, ctx, graph)?;
    reverse_each(&mut walks);
    Ok(walks)
}

/// The walks of [`post_order_by_component`], one after the other.
///
/// Asks that the graph may be read in the context. Errors: allocation failure. Cost: as
/// [`post_order_by_component`].
pub fn post_order<C, G: ControlFlowGraph<C>>(
    alloc: Global,
    ctx: &C,
    graph: &G,
) -> Result<Vec<G::Node>, OptError>
    requires { G.is_lawful graph.now ctx.now }
    ensures order { IfOk result (λ r. IsPostOrder G.Node.eq (G.graph graph.now ctx.now) r.items) }
    ensures memory { IsOkUnless result OptError.Memory }
{
    let walks = post_order_by_component(alloc, ctx, graph)?;
    join(alloc, &walks)
}

/// The walks of [`topological_order_by_component`], one after the other.
///
/// Asks that the graph may be read in the context. Errors: allocation failure. Cost: as
/// [`post_order_by_component`].
pub fn topological_order<C, G: ControlFlowGraph<C>>(
    alloc: Global,
    ctx: &C,
    graph: &G,
) -> Result<Vec<G::Node>, OptError>
    requires { G.is_lawful graph.now ctx.now }
    ensures order { IfOk result (λ r. IsTopologicalOrder G.Node.eq (G.graph graph.now ctx.now) r.items) }
    ensures memory { IsOkUnless result OptError.Memory }
{
    let walks = topological_order_by_component(alloc, ctx, graph)?;
    join(alloc, &walks)
}

// Reverses each of the lists.
fn reverse_each<N>(lists: &mut [Vec<N>])
    ensures { map (λ w. w.items) lists.new ≡ map reverse (map (λ w. w.items) lists.old) }
{
    for list in lists {
        list.reverse();
    }
}

// The lists, one after the other.
fn join<N: Copy>(alloc: Global, lists: &[Vec<N>]) -> Result<Vec<N>, OptError>
    ensures joins { IfOk result (λ r. r.items ≡ concatenation (map (λ w. w.items) lists.now)) }
    ensures memory { IsOkUnless result OptError.Memory }
{
    let mut all = Vec::new(alloc);
    for list in lists {
        all.extend_from_slice(list)?;
    }
    Ok(all)
}
