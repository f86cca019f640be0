//! A graph as it is drawn: its nodes in order, and what is drawn of each.
ghost use Rattle.std.specs.Prelude.{◌≡◌, ◌↔◌, IfOk, IfSome, IsOkUnless, Contains, None, Some, map};
ghost use Rattle.std.specs.List.{All};
ghost use Rattle.pliron_graph_traversal.specs.Digraph.{Digraph};
ghost use Rattle.pliron_graph_traversal.specs.Search.{IsListed};
ghost use Rattle.pliron_graph_dominance.specs.Dominance.{IsImmediate};
ghost use Rattle.pliron_graph_dominance.specs.NumberTests.{GivesDominance};
ghost use Rattle.pliron_show_graphs.specs.GraphRows.{IsRowOf};

use pliron_graph_dominance::DominatorTree;
use pliron_graph_traversal::ControlFlowGraph;
use pliron_laws::OptError;
use std::alloc::Global;
use std::hash::Hash;

/// A node with its edges, and its place in the tree of dominators.
#[derive(Drop)]
pub struct GraphRow<N> {
    pub node: N,
    /// Whether the entry reaches it.
    pub is_reached: bool,
    /// Its successors, by index.
    pub successors: Vec<N>,
    /// Its immediate dominator, which the entry and unreached nodes lack.
    pub dominator: Option<N>,
}

// The immediate dominator of a node, if it is reached and has one.
fn dominator_of<N: Eq + Hash + Copy>(tree: &DominatorTree<N>, node: N) -> Option<N>
    ensures immediate { (g : Digraph N) → GivesDominance N.eq g tree.now → IfSome result (λ d. IsImmediate g d node) }
    ensures alone { (g : Digraph N) → GivesDominance N.eq g tree.now → IsListed N.eq tree.now.nodes node →
        ((result ≡ None) ↔ (g.entry ≡ Some node)) }
{
    if tree.is_reached(&node) {
        tree.immediate_dominator(&node)
    } else {
        None
    }
}

// What is drawn of a node.
fn row_of<C, G: ControlFlowGraph<C>>(
    alloc: Global,
    ctx: &C,
    graph: &G,
    tree: &DominatorTree<G::Node>,
    node: G::Node,
) -> Result<GraphRow<G::Node>, OptError>
    requires lawful { G.is_lawful graph.now ctx.now }
    requires tree { GivesDominance G.Node.eq (G.graph graph.now ctx.now) tree.now }
    requires member { Contains (G.graph graph.now ctx.now).nodes node }
    ensures node { IfOk result (λ row. row.node ≡ node) }
    ensures row { IfOk result (λ row. IsRowOf (G.graph graph.now ctx.now) row) }
    ensures memory { IsOkUnless result OptError.Memory }
{
    let is_reached = tree.is_reached(&node);
    let dominator = dominator_of(tree, node);
    let successors = graph.successors(alloc, ctx, &node)?;
    Ok(GraphRow {
        node,
        is_reached,
        successors,
        dominator,
    })
}

/// The rows of all nodes of a graph, in order.
///
/// Asks that the graph may be read in the context. Errors: allocation failure. Cost: that of `DominatorTree::new`.
pub fn graph_rows<C, G: ControlFlowGraph<C>>(
    alloc: Global,
    ctx: &C,
    graph: &G,
) -> Result<Vec<GraphRow<G::Node>>, OptError>
    requires { G.is_lawful graph.now ctx.now }
    ensures nodes { IfOk result (λ rows. map (λ row. row.node) rows.items ≡ (G.graph graph.now ctx.now).nodes) }
    ensures rows { IfOk result (λ rows. All (IsRowOf (G.graph graph.now ctx.now)) rows.items) }
    ensures memory { IsOkUnless result OptError.Memory }
{
    let tree = DominatorTree::new(alloc, ctx, graph)?;
    let nodes = graph.nodes(alloc, ctx)?;
    let mut rows = Vec::with_capacity(alloc, nodes.len())?;
    for node in &nodes {
        rows.push(row_of(alloc, ctx, graph, &tree, *node)?)?;
    }
    Ok(rows)
}
