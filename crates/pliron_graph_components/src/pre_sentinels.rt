//! Pre-sentinels: the nodes that the sentinel of a reverse graph leads to.
ghost use Rattle.std.specs.Prelude.{◌≡◌, ◌↔◌, ◌<◌, ◌≤◌, [], IsTrue, Some, Contains, IfOk, IsOkUnless, length};
ghost use Rattle.std.specs.List.{All, IsDistinct};
ghost use Rattle.pliron_graph_traversal.specs.Search.{number_in};
ghost use Rattle.pliron_graph_traversal.specs.Internal.Forest.{Grew};
ghost use Rattle.pliron_graph_components.specs.Components.{entry_then_nodes};
ghost use Rattle.pliron_graph_components.specs.Reverse.{ArePreSentinels, IsLastListed, IsSink};
ghost use Rattle.pliron_graph_components.specs.Internal.Picking.{IsListedFrom};
ghost use Rattle.pliron_graph_components.specs.Internal.Sinks.{AreFoundSinks};

use crate::components::{is_listed_from, search_all, take_component};
use indexmap::IndexSet;
use pliron_graph_traversal::traversal::{index_nodes, nodes_by_number};
use pliron_graph_traversal::{AdjacencyList, ControlFlowGraph, ListedSet, NumberSet};
use pliron_laws::OptError;
use std::alloc::Global;

/// The last listed node of each component without an edge to another one, in the order of the components.
///
/// Errors: allocation failure. Cost: that of the components, a few reads for each node and each edge of a graph
/// that has numbers, as many look-ups in a hashed table of any other, and one more for each node that is found.
pub(crate) fn find_pre_sentinels<C, G: ControlFlowGraph<C>>(
    alloc: Global,
    ctx: &C,
    graph: &G,
) -> Result<IndexSet<G::Node>, OptError>
    requires { G.is_lawful graph.now ctx.now }
    ensures found { IfOk result (λ r. ArePreSentinels G.Node.eq (G.graph graph.now ctx.now) r.keys) }
    ensures memory { IsOkUnless result OptError.Memory }
{
    let Some(lists) = graph.by_number(ctx) else {
        let sinks = last_of_sinks::<C, G, IndexSet<G::Node>>(alloc, ctx, graph)?;
        return index_nodes(alloc, &sinks);
    };
    let nodes = graph.nodes(alloc, ctx)?;
    let last = last_of_sinks::<(), AdjacencyList, NumberSet>(alloc, &(), lists)?;
    let found = nodes_by_number(alloc, &nodes, &last)?;
    index_nodes(alloc, &found)
}

// The same nodes, by sets of this kind.
fn last_of_sinks<C, G: ControlFlowGraph<C>, S: ListedSet<G::Node>>(
    alloc: Global,
    ctx: &C,
    graph: &G,
) -> Result<Vec<G::Node>, OptError>
    requires { G.is_lawful graph.now ctx.now }
    ensures found { IfOk result (λ r. AreFoundSinks G.Node.eq (G.graph graph.now ctx.now) r.items) }
    ensures memory { IsOkUnless result OptError.Memory }
{
    let (pre, post) = search_all::<C, G, S>(alloc, ctx, graph)?;
    let nodes = graph.nodes(alloc, ctx)?;
    let places = listed_set::<G::Node, S>(alloc, &nodes)?;
    take_sinks(alloc, ctx, graph, &places, &pre, post)
}

// The last listed node of each component that is a sink, by the orders of the search. Each is tested as it is taken.
fn take_sinks<C, G: ControlFlowGraph<C>, S: ListedSet<G::Node>>(
    alloc: Global,
    ctx: &C,
    graph: &G,
    places: &S,
    pre: &S,
    mut post: Vec<G::Node>,
) -> Result<Vec<G::Node>, OptError>
    requires lawful { G.is_lawful graph.now ctx.now }
    requires places { S.listed places.now ≡ (G.graph graph.now ctx.now).nodes }
    requires grew { Grew G.Node.eq (G.graph graph.now ctx.now) (entry_then_nodes (G.graph graph.now ctx.now)) [] []
        (S.listed pre.now) post.items }
    ensures found { IfOk result (λ r. AreFoundSinks G.Node.eq (G.graph graph.now ctx.now) r.items) }
    ensures memory { IsOkUnless result OptError.Memory }
{
    let mut held = S::empty(alloc);
    let mut members = Vec::new(alloc);
    let mut found = Vec::new(alloc);
    while let Some(root) = post.pop() {
        if held.contains(&root) {
            continue;
        }
        let first = held.len();
        take_component(ctx, graph, root, pre, &mut held, &mut members)?;
        let Some(node) = last_of_sink(ctx, graph, places, &held, first, &members) else {
            continue;
        };
        found.push(node)?;
    }
    Ok(found)
}

// The last listed of the nodes of a component, which are held from `first` on, if it has no edge to another one.
fn last_of_sink<C, G: ControlFlowGraph<C>, S: ListedSet<G::Node>>(
    ctx: &C,
    graph: &G,
    places: &S,
    held: &S,
    first: usize,
    members: &[G::Node],
) -> Option<G::Node>
    requires lawful { G.is_lawful graph.now ctx.now }
    requires places { S.listed places.now ≡ (G.graph graph.now ctx.now).nodes }
    requires stand { (v : G.Node) → Contains (G.graph graph.now ctx.now).nodes v
        → (IsListedFrom G.Node.eq (S.listed held.now) first v ↔ Contains members.now v) }
    requires not_empty { 0 < length members.now }
    requires nodes { All (λ v. Contains (G.graph graph.now ctx.now).nodes v) members.now }
    ensures { (v : G.Node) → ((result ≡ Some v) ↔ (IsSink (G.graph graph.now ctx.now) members.now ×
        IsLastListed G.Node.eq (G.graph graph.now ctx.now) members.now v)) }
{
    if !is_sink(ctx, graph, held, first, members) {
        return None;
    }
    Some(last_listed(places, members))
}

// The nodes as a set.
fn listed_set<N: Eq + Copy, S: ListedSet<N>>(alloc: Global, nodes: &[N]) -> Result<S, OptError>
    requires { IsDistinct N.eq nodes.now }
    ensures listed { IfOk result (λ s. S.listed s ≡ nodes.now) }
    ensures memory { IsOkUnless result OptError.Memory }
{
    let mut set = S::empty(alloc);
    for node in nodes {
        set.insert(*node)?;
    }
    Ok(set)
}

// Whether each successor of these nodes is held from `first` on.
fn is_sink<C, G: ControlFlowGraph<C>, S: ListedSet<G::Node>>(
    ctx: &C,
    graph: &G,
    held: &S,
    first: usize,
    members: &[G::Node],
) -> bool
    requires lawful { G.is_lawful graph.now ctx.now }
    requires nodes { All (λ v. Contains (G.graph graph.now ctx.now).nodes v) members.now }
    ensures { IsTrue result ↔ All (λ u. All (IsListedFrom G.Node.eq (S.listed held.now) first)
        ((G.graph graph.now ctx.now).succ u)) members.now }
{
    for node in members {
        if !stays_inside(ctx, graph, held, first, node) {
            return false;
        }
    }
    true
}

// Whether each successor of a node is held from `first` on.
fn stays_inside<C, G: ControlFlowGraph<C>, S: ListedSet<G::Node>>(
    ctx: &C,
    graph: &G,
    held: &S,
    first: usize,
    node: &G::Node,
) -> bool
    requires lawful { G.is_lawful graph.now ctx.now }
    requires member { Contains (G.graph graph.now ctx.now).nodes node.now }
    ensures { IsTrue result ↔ All (IsListedFrom G.Node.eq (S.listed held.now) first)
        ((G.graph graph.now ctx.now).succ node.now) }
{
    for i in 0..graph.num_successors(ctx, node) {
        if !is_listed_from(held, first, &graph.get_successor(ctx, node, i)) {
            return false;
        }
    }
    true
}

// That of the members which is last among the nodes.
fn last_listed<N: Eq + Copy, S: ListedSet<N>>(places: &S, members: &[N]) -> N
    requires not_empty { 0 < length members.now }
    ensures among { Contains members.now result }
    ensures last { All (λ v. number_in N.eq (S.listed places.now) v ≤ number_in N.eq (S.listed places.now) result)
        members.now }
{
    let mut last = members[0];
    for node in members {
        if places.place_of(node) <= places.place_of(&last) {
            continue;
        }
        last = *node;
    }
    last
}
