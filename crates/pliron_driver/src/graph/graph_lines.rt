//! What `plir_opt graph` prints.
ghost use Rattle.std.specs.Prelude.{Contains, nat_eq};
ghost use Rattle.std.specs.Option.{option_to_list};
ghost use Rattle.pliron_graph_traversal.specs.Adjacency.{AreInverse, graph_of};
ghost use Rattle.pliron_graph_traversal.specs.Search.{IsSearch, IsListed};

use pliron_graph_components::{
    ControlFlowGraph, DFSTraversal, NumberedGraph, ReverseGraph, post_order_by_component,
    sccs_in_topological_order, topological_order_by_component,
};
use pliron_laws::OptError;
use std::alloc::Global;

// A list of nodes in brackets, after a blank.
fn push_list(
    alloc: Global,
    graph: &NumberedGraph,
    nodes: &[u32],
    text: &mut String,
) -> Result<(), OptError> {
    let mut before = " [";
    for node in nodes {
        text.push_str(&format!(in alloc; "{before}{}", graph.number(*node))?)?;
        before = " ";
    }
    text.push_str("]")?;
    Ok(())
}

// Each list of nodes in brackets.
fn push_lists(
    alloc: Global,
    graph: &NumberedGraph,
    lists: &[Vec<u32>],
    text: &mut String,
) -> Result<(), OptError> {
    for list in lists {
        push_list(alloc, graph, list, text)?;
    }
    Ok(())
}

// The walks, and the same walks reversed.
fn push_orders(alloc: Global, graph: &NumberedGraph, text: &mut String) -> Result<(), OptError>
    requires { AreInverse graph.now.edges }
{
    text.push_str("post-order:")?;
    let walks = post_order_by_component(alloc, &(), &graph.edges)?;
    push_lists(alloc, graph, &walks, text)?;
    text.push_str("\ntopological:")?;
    let reversed = topological_order_by_component(alloc, &(), &graph.edges)?;
    push_lists(alloc, graph, &reversed, text)
}

// The reached nodes by ascending pre-order number, each with its numbers.
fn push_numbers(
    alloc: Global,
    graph: &NumberedGraph,
    search: &DFSTraversal<u32>,
    text: &mut String,
) -> Result<(), OptError> {
    text.push_str("\nnumbers:")?;
    for node in search.pre_order() {
        if search.is_reached(&node) {
            let pre = search.pre_order_number(&node);
            let post = search.post_order_number(&node);
            text.push_str(&format!(in alloc; " {}={pre}/{post}", graph.number(node))?)?;
        }
    }
    Ok(())
}

// The edges of a reached node, successors by index, each with its kind.
fn push_edges_of(
    alloc: Global,
    graph: &NumberedGraph,
    search: &DFSTraversal<u32>,
    node: u32,
    text: &mut String,
) -> Result<(), OptError>
    requires lawful { AreInverse graph.now.edges }
    requires search { IsSearch nat_eq (graph_of graph.now.edges) (option_to_list (graph_of graph.now.edges).entry)
        search.now }
    requires member { Contains (graph_of graph.now.edges).nodes node }
    requires reached { IsListed nat_eq search.now.pre node }
{
    for i in 0..graph.edges.num_successors(&(), &node) {
        let next = graph.edges.get_successor(&(), &node, i);
        let kind = search.edge_kind(&node, &next);
        let (from, to) = (graph.number(node), graph.number(next));
        text.push_str(&format!(in alloc; " {from}>{to}:{kind:?}")?)?;
    }
    Ok(())
}

// The edges of reached nodes, nodes in the order of their lines.
fn push_edges(
    alloc: Global,
    graph: &NumberedGraph,
    search: &DFSTraversal<u32>,
    text: &mut String,
) -> Result<(), OptError>
    requires lawful { AreInverse graph.now.edges }
    requires search { IsSearch nat_eq (graph_of graph.now.edges) (option_to_list (graph_of graph.now.edges).entry)
        search.now }
{
    text.push_str("\nedges:")?;
    for node in &graph.edges.nodes(alloc, &())? {
        if search.is_reached(node) {
            push_edges_of(alloc, graph, search, *node, text)?;
        }
    }
    Ok(())
}

// The components, each with a star if it is cyclic.
fn push_components(alloc: Global, graph: &NumberedGraph, text: &mut String) -> Result<(), OptError>
    requires { AreInverse graph.now.edges }
{
    text.push_str("\ncomponents:")?;
    for component in &sccs_in_topological_order(alloc, &(), &graph.edges)? {
        push_list(alloc, graph, &component.nodes, text)?;
        if component.is_cyclic {
            text.push_str("*")?;
        }
    }
    Ok(())
}

// The pre-sentinels of the reverse graph.
fn push_pre_sentinels(
    alloc: Global,
    graph: &NumberedGraph,
    text: &mut String,
) -> Result<(), OptError>
    requires { AreInverse graph.now.edges }
{
    text.push_str("\npre-sentinels:")?;
    let reverse = ReverseGraph::new(alloc, &(), &graph.edges)?;
    for node in reverse.pre_sentinels() {
        text.push_str(&format!(in alloc; " {}", graph.number(node))?)?;
    }
    Ok(())
}

/// What the program prints of a graph, with the numbers of its nodes: its orders, its search numbers, the
/// kinds of its edges, its components and the pre-sentinels of its reverse, a line each.
///
/// Asks that each node is among the predecessors of exactly its successors. Errors: allocation failure. Cost:
/// linear in the nodes and edges, but for sorting each component.
pub fn print_graph(alloc: Global, graph: &NumberedGraph) -> Result<String, OptError>
    requires { AreInverse graph.now.edges }
{
    let mut text = String::new(alloc);
    push_orders(alloc, graph, &mut text)?;
    let search = DFSTraversal::new(alloc, &(), &graph.edges)?;
    push_numbers(alloc, graph, &search, &mut text)?;
    push_edges(alloc, graph, &search, &mut text)?;
    push_components(alloc, graph, &mut text)?;
    push_pre_sentinels(alloc, graph, &mut text)?;
    text.push_str("\n")?;
    Ok(text)
}
