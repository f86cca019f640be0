//! Strongly connected components.
ghost use Rattle.std.specs.Prelude.{◌≡◌, ◌↔◌, ◌++◌, ◌<◌, ◌≤◌, [], false, Contains, IsTrue, IfOk, OnOk, IsOkUnless, Some, length, drop, nat_eq};
ghost use Rattle.std.specs.List.{All, IsDistinct, list_any};
ghost use Rattle.pliron_graph_components.specs.Components.{AreComponents, IsCyclic, Descends, entry_then_nodes};
ghost use Rattle.pliron_graph_traversal.specs.Search.{IsListed, number_in};
ghost use Rattle.pliron_graph_traversal.specs.Internal.Forest.{Grew};
ghost use Rattle.pliron_graph_components.specs.Internal.Collecting.{TakesIn, Collects, IsTakenOff, AreNumberedComponents};
ghost use Rattle.pliron_graph_components.specs.Internal.Named.{AreNamedComponents};
ghost use Rattle.pliron_graph_traversal.specs.Adjacency.{AreInverse, graph_of};
ghost use Rattle.pliron_graph_components.specs.Internal.Picking.{IsListedFrom};

use indexmap::IndexSet;
use pliron_graph_traversal::search::walk_over;
use pliron_graph_traversal::{AdjacencyList, ControlFlowGraph, ListedSet, NumberSet, traversal};
use pliron_laws::OptError;
use std::alloc::Global;

/// A strongly connected component.
#[derive(Debug, Drop)]
pub struct Scc<N> {
    /// The nodes, each of which reaches the others.
    pub nodes: Vec<N>,
    /// Whether the nodes lie on a cycle: they are more than one, or the one has an edge to itself.
    pub is_cyclic: bool,
}

/// The strongly connected components: two nodes share one exactly if each reaches the other.
///
/// The numbers that follow are those of a depth-first search from the entry and then from each node in listed
/// order. The components are listed by descending greatest post-order number, so an edge between two of them goes
/// from the earlier to the later. The nodes of each are listed by descending pre-order number.
///
/// Two passes: a search gives the orders; then the nodes are taken by descending post-order number, and the
/// nodes that lead to one over nodes without a component are its component.
///
/// Asks that the graph may be read in the context. Errors: allocation failure. Cost: a few reads for each node
/// and each edge of a graph that has numbers, and as many look-ups in a hashed table of any other; and a sort
/// of each component.
/// Source: M. Sharir, A strong-connectivity algorithm and its applications in data flow analysis, 1981.
pub fn sccs_in_topological_order<C, G: ControlFlowGraph<C>>(
    alloc: Global,
    ctx: &C,
    graph: &G,
) -> Result<Vec<Scc<G::Node>>, OptError>
    requires { G.is_lawful graph.now ctx.now }
    ensures components { IfOk result (λ r. AreComponents G.Node.eq (G.graph graph.now ctx.now) r.items) }
    ensures memory { IsOkUnless result OptError.Memory }
{
    let Some(lists) = graph.by_number(ctx) else {
        return find_components(alloc, ctx, graph);
    };
    let nodes = graph.nodes(alloc, ctx)?;
    let (pre, post) = search_all::<(), AdjacencyList, NumberSet>(alloc, &(), lists)?;
    take_named_components(alloc, lists, &nodes, &pre, post)
}

// The components, by a hashed table.
fn find_components<C, G: ControlFlowGraph<C>>(
    alloc: Global,
    ctx: &C,
    graph: &G,
) -> Result<Vec<Scc<G::Node>>, OptError>
    requires { G.is_lawful graph.now ctx.now }
    ensures found { IfOk result (λ r. AreNumberedComponents G.Node.eq (G.graph graph.now ctx.now) r.items) }
    ensures memory { IsOkUnless result OptError.Memory }
{
    let (pre, post) = search_all::<C, G, IndexSet<G::Node>>(alloc, ctx, graph)?;
    take_components(alloc, ctx, graph, &pre, post)
}

// The components of nodes, by the orders of the search by numbers. Each is listed as it is taken, and
// one list of numbers serves for all.
fn take_named_components<N: Copy>(
    alloc: Global,
    graph: &AdjacencyList,
    nodes: &[N],
    pre: &NumberSet,
    mut post: Vec<u32>,
) -> Result<Vec<Scc<N>>, OptError>
    requires lawful { AreInverse graph.now }
    requires counted { length nodes.now ≡ length graph.now.succ }
    requires grew { Grew nat_eq (graph_of graph.now) (entry_then_nodes (graph_of graph.now)) [] [] pre.now post.items }
    ensures named { IfOk result (λ r. AreNamedComponents graph.now nodes.now r.items) }
    ensures memory { IsOkUnless result OptError.Memory }
{
    let mut held = NumberSet::empty(alloc);
    let mut members = Vec::new(alloc);
    let mut all = Vec::new(alloc);
    while let Some(root) = post.pop() {
        if held.contains(&root) {
            continue;
        }
        let is_cyclic = take_component(&(), graph, root, pre, &mut held, &mut members)?;
        let named = traversal::nodes_by_number(alloc, nodes, &members)?;
        all.push(Scc {
            nodes: named,
            is_cyclic,
        })?;
    }
    Ok(all)
}

// The entry, if there is one, and then all nodes.
fn roots<C, G: ControlFlowGraph<C>>(
    alloc: Global,
    ctx: &C,
    graph: &G,
) -> Result<Vec<G::Node>, OptError>
    requires { G.is_lawful graph.now ctx.now }
    ensures list { IfOk result (λ r. r.items ≡ entry_then_nodes (G.graph graph.now ctx.now)) }
    ensures memory { IsOkUnless result OptError.Memory }
{
    let mut roots = graph.nodes(alloc, ctx)?;
    let Some(entry) = graph.entry_node(ctx) else {
        return Ok(roots);
    };
    roots.insert(0, entry)?;
    Ok(roots)
}

/// The nodes in the order in which a search from the entry and then all nodes comes to them, and in the order in
/// which it leaves them. Errors: allocation failure. Cost: a few reads for each node and each edge, or look-ups.
pub(crate) fn search_all<C, G: ControlFlowGraph<C>, S: ListedSet<G::Node>>(
    alloc: Global,
    ctx: &C,
    graph: &G,
) -> Result<(S, Vec<G::Node>), OptError>
    requires { G.is_lawful graph.now ctx.now }
    ensures grew { IfOk result (λ r. Grew G.Node.eq (G.graph graph.now ctx.now)
        (entry_then_nodes (G.graph graph.now ctx.now)) [] [] (S.listed r.0) r.1.items) }
    ensures memory { IsOkUnless result OptError.Memory }
{
    let roots = roots(alloc, ctx, graph)?;
    let mut pre = S::empty(alloc);
    let mut post = Vec::new(alloc);
    let mut stack = Vec::new(alloc);
    for root in &roots {
        if pre.contains(root) {
            continue;
        }
        walk_over(ctx, graph, *root, &mut pre, &mut post, &mut stack)?;
    }
    Ok((pre, post))
}

// The components, by the orders of the search.
fn take_components<C, G: ControlFlowGraph<C>, S: ListedSet<G::Node>>(
    alloc: Global,
    ctx: &C,
    graph: &G,
    pre: &S,
    mut post: Vec<G::Node>,
) -> Result<Vec<Scc<G::Node>>, OptError>
    requires lawful { G.is_lawful graph.now ctx.now }
    requires grew { Grew G.Node.eq (G.graph graph.now ctx.now) (entry_then_nodes (G.graph graph.now ctx.now)) [] []
        (S.listed pre.now) post.items }
    ensures found { IfOk result (λ r. AreNumberedComponents G.Node.eq (G.graph graph.now ctx.now) r.items) }
    ensures memory { IsOkUnless result OptError.Memory }
{
    let mut held = S::empty(alloc);
    let mut components = Vec::new(alloc);
    while let Some(root) = post.pop() {
        if held.contains(&root) {
            continue;
        }
        let mut nodes = Vec::new(alloc);
        let is_cyclic = take_component(ctx, graph, root, pre, &mut held, &mut nodes)?;
        components.push(Scc { nodes, is_cyclic })?;
    }
    Ok(components)
}

/// The nodes that lead to `root` over nodes that are not held, as a component, and whether it is cyclic. They are held
/// then. What the list had is lost.
///
/// Asks that the root is a node that is not held, and that `pre` lists all nodes once. Errors: allocation failure.
/// Cost: that of the edges to the nodes, and of a sort of them.
pub(crate) fn take_component<C, G: ControlFlowGraph<C>, S: ListedSet<G::Node>>(
    ctx: &C,
    graph: &G,
    root: G::Node,
    pre: &S,
    held: &mut S,
    nodes: &mut Vec<G::Node>,
) -> Result<bool, OptError>
    requires lawful { G.is_lawful graph.now ctx.now }
    requires member { Contains (G.graph graph.now ctx.now).nodes root }
    requires unheld { list_any (G.Node.eq root) (S.listed held.old) ≡ false }
    requires listed { All (IsListed G.Node.eq (S.listed pre.now)) (G.graph graph.now ctx.now).nodes }
    requires once { IsDistinct G.Node.eq (S.listed pre.now) }
    ensures taken { IfOk result (λ r. IsTakenOff (G.graph graph.now ctx.now) G.Node.eq (S.listed pre.now) root
        (S.listed held.old) (S.listed held.new) (record { nodes = nodes.new; is_cyclic = r })) }
    ensures memory { IsOkUnless result OptError.Memory }
{
    let first = held.len();
    collect(ctx, graph, root, held)?;
    last_by_falling_number(pre, held, first, nodes)?;
    Ok(is_cyclic(ctx, graph, nodes))
}

// Holds the nodes that lead to `root` over nodes that are not held. The set is its own queue.
fn collect<C, G: ControlFlowGraph<C>, S: ListedSet<G::Node>>(
    ctx: &C,
    graph: &G,
    root: G::Node,
    held: &mut S,
) -> Result<(), OptError>
    requires lawful { G.is_lawful graph.now ctx.now }
    requires member { Contains (G.graph graph.now ctx.now).nodes root }
    requires unheld { list_any (G.Node.eq root) (S.listed held.old) ≡ false }
    ensures collected { OnOk result (Collects (G.graph graph.now ctx.now) G.Node.eq root (S.listed held.old)
        (S.listed held.new)) }
    ensures memory { IsOkUnless result OptError.Memory }
{
    let mut next = held.len();
    held.insert(root)?;
    while next < held.len() {
        let node = held.as_slice()[next];
        next += 1;
        hold_predecessors(ctx, graph, &node, held)?;
    }
    Ok(())
}

// Holds the predecessors of a node.
fn hold_predecessors<C, G: ControlFlowGraph<C>, S: ListedSet<G::Node>>(
    ctx: &C,
    graph: &G,
    node: &G::Node,
    held: &mut S,
) -> Result<(), OptError>
    requires lawful { G.is_lawful graph.now ctx.now }
    requires member { Contains (G.graph graph.now ctx.now).nodes node.now }
    ensures holds { OnOk result (TakesIn G.Node.eq ((G.graph graph.now ctx.now).pred node.now) (S.listed held.old)
        (S.listed held.new)) }
    ensures memory { IsOkUnless result OptError.Memory }
{
    for i in 0..graph.num_predecessors(ctx, node) {
        held.insert(graph.get_predecessor(ctx, node, i))?;
    }
    Ok(())
}

// Lists the nodes that are in `held` from `first` on, by descending place in `order`. Where they are a large part of
// `order`, they are picked from it in turn, and need no sort.
fn last_by_falling_number<N: Eq + Copy, S: ListedSet<N>>(
    order: &S,
    held: &S,
    first: usize,
    nodes: &mut Vec<N>,
) -> Result<(), OptError>
    requires same { (x y : N) → IsTrue (N.eq x y) → x ≡ y }
    requires distinct { IsDistinct N.eq (S.listed held.now) }
    requires once { IsDistinct N.eq (S.listed order.now) }
    requires listed { All (IsListed N.eq (S.listed order.now)) (drop first (S.listed held.now)) }
    requires within { first ≤ length (S.listed held.now) }
    ensures same_nodes { OnOk result ((v : N) → (Contains nodes.new.items v
        ↔ Contains (drop first (S.listed held.now)) v)) }
    ensures descends { OnOk result (Descends (number_in N.eq (S.listed order.now)) nodes.new.items) }
    ensures memory { IsOkUnless result OptError.Memory }
{
    if held.len() - first < order.len() / 8 {
        return by_falling_number(order, &held.as_slice()[first..], nodes);
    }
    pick_by_falling_number(order, held, first, nodes)
}

// The same, by a scan of all of `order`.
fn pick_by_falling_number<N: Eq + Copy, S: ListedSet<N>>(
    order: &S,
    held: &S,
    first: usize,
    nodes: &mut Vec<N>,
) -> Result<(), OptError>
    requires same { (x y : N) → IsTrue (N.eq x y) → x ≡ y }
    requires distinct { IsDistinct N.eq (S.listed held.now) }
    requires once { IsDistinct N.eq (S.listed order.now) }
    requires listed { All (IsListed N.eq (S.listed order.now)) (drop first (S.listed held.now)) }
    requires within { first ≤ length (S.listed held.now) }
    ensures same_nodes { OnOk result ((v : N) → (Contains nodes.new.items v
        ↔ Contains (drop first (S.listed held.now)) v)) }
    ensures descends { OnOk result (Descends (number_in N.eq (S.listed order.now)) nodes.new.items) }
    ensures memory { IsOkUnless result OptError.Memory }
{
    nodes.clear();
    for node in order.as_slice() {
        if !is_listed_from(held, first, node) {
            continue;
        }
        nodes.push(*node)?;
    }
    nodes.reverse();
    Ok(())
}

/// Whether the node is in the set at this place or behind it. Takes no memory. Cost: a look-up of the place.
pub(crate) fn is_listed_from<N: Eq, S: ListedSet<N>>(set: &S, first: usize, node: &N) -> bool
    ensures { IsTrue result ↔ IsListedFrom N.eq (S.listed set.now) first node.now }
{
    let place = set.place_of(node);
    first <= place && place < set.len()
}

// Lists these nodes by descending place in `order`.
fn by_falling_number<N: Eq + Copy, S: ListedSet<N>>(
    order: &S,
    nodes: &[N],
    sorted: &mut Vec<N>,
) -> Result<(), OptError>
    requires same { (x y : N) → IsTrue (N.eq x y) → x ≡ y }
    requires distinct { IsDistinct N.eq nodes.now }
    requires listed { All (IsListed N.eq (S.listed order.now)) nodes.now }
    ensures same_nodes { OnOk result ((v : N) → (Contains sorted.new.items v ↔ Contains nodes.now v)) }
    ensures descends { OnOk result (Descends (number_in N.eq (S.listed order.now)) sorted.new.items) }
    ensures memory { IsOkUnless result OptError.Memory }
{
    sorted.clear();
    if nodes.len() == 1 {
        sorted.push(nodes[0])?;
        return Ok(());
    }
    sorted.extend_from_slice(nodes)?;
    sorted.sort_unstable_by_key(|node| order.place_of(node));
    sorted.reverse();
    Ok(())
}

// Whether these nodes of a component lie on a cycle.
fn is_cyclic<C, G: ControlFlowGraph<C>>(ctx: &C, graph: &G, nodes: &[G::Node]) -> bool
    requires lawful { G.is_lawful graph.now ctx.now }
    requires members { All (λ v. Contains (G.graph graph.now ctx.now).nodes v) nodes.now }
    ensures { IsTrue result ↔ IsCyclic (G.graph graph.now ctx.now) nodes.now }
{
    if nodes.len() > 1 {
        return true;
    }
    let Some(node) = nodes.first() else {
        return false;
    };
    has_self_edge(ctx, graph, node)
}

// Whether a node is its own successor.
fn has_self_edge<C, G: ControlFlowGraph<C>>(ctx: &C, graph: &G, node: &G::Node) -> bool
    requires lawful { G.is_lawful graph.now ctx.now }
    requires member { Contains (G.graph graph.now ctx.now).nodes node.now }
    ensures { IsTrue result ↔ Contains ((G.graph graph.now ctx.now).succ node.now) node.now }
{
    for i in 0..graph.num_successors(ctx, node) {
        if graph.get_successor(ctx, node, i) == *node {
            return true;
        }
    }
    false
}
