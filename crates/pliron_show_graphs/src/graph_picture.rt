//! The picture of a graph whose nodes have numbers: cyclic components in frames, and the kinds of edges as colours.
ghost use Rattle.std.specs.Prelude.{◌≡◌, Contains, nat_eq};
ghost use Rattle.std.specs.Option.{option_to_list};
ghost use Rattle.pliron_graph_traversal.specs.Adjacency.{AreInverse, graph_of};
ghost use Rattle.pliron_graph_traversal.specs.Search.{IsListed, IsSearch};

use crate::dot::{Attribute, Dot};
use pliron_graph_components::{
    ControlFlowGraph, DFSEdgeKind, DFSTraversal, NumberedGraph, Scc, read_graph,
    sccs_in_topological_order,
};
use pliron_laws::OptError;
use std::alloc::{AllocError, Global};

/// How all nodes look: in circles.
static CIRCLES: [Attribute<'static>; 1] = [Attribute {
    name: "shape",
    value: "circle",
}];

/// What the entry doesn't reach.
static GREY: [Attribute<'static>; 2] = [
    Attribute {
        name: "color",
        value: "grey",
    },
    Attribute {
        name: "fontcolor",
        value: "grey",
    },
];

/// The entry: in two circles.
static TWICE: [Attribute<'static>; 1] = [Attribute {
    name: "peripheries",
    value: "2",
}];

// The colour of an edge of this kind.
fn colour(kind: DFSEdgeKind) -> &'static str {
    match kind {
        DFSEdgeKind::Forward => "black",
        DFSEdgeKind::Back => "red",
        DFSEdgeKind::Cross => "blue",
    }
}

// How a node looks.
fn look(
    graph: &NumberedGraph,
    search: &DFSTraversal<u32>,
    node: u32,
) -> &'static [Attribute<'static>]
    requires { AreInverse graph.now.edges }
{
    if graph.edges.entry_node(&()) == Some(node) {
        &TWICE
    } else if search.is_reached(&node) {
        &[]
    } else {
        &GREY
    }
}

// Draws the nodes of the components, each cyclic component in a frame, in the order of the search from the entry, since
// Graphviz draws nodes from top to bottom in the order of the text.
fn draw_components(
    graph: &NumberedGraph,
    search: &DFSTraversal<u32>,
    components: &[Scc<u32>],
    dot: &mut Dot,
) -> Result<(), AllocError>
    requires { AreInverse graph.now.edges }
{
    let mut frames: u64 = 0;
    for component in components {
        if component.is_cyclic {
            dot.open_cluster(frames)?;
            frames = frames.saturating_add(1);
        }
        for node in component.nodes.iter().rev() {
            dot.node(graph.number(*node) as u64, look(graph, search, *node))?;
        }
        if component.is_cyclic {
            dot.close_cluster()?;
        }
    }
    Ok(())
}

// Draws the edges of a reached node, each in the colour of its kind.
fn draw_reached(
    graph: &NumberedGraph,
    search: &DFSTraversal<u32>,
    node: u32,
    dot: &mut Dot,
) -> Result<(), AllocError>
    requires lawful { AreInverse graph.now.edges }
    requires search { IsSearch nat_eq (graph_of graph.now.edges) (option_to_list (graph_of graph.now.edges).entry)
        search.now }
    requires member { Contains (graph_of graph.now.edges).nodes node }
    requires reached { IsListed nat_eq search.now.pre node }
{
    for i in 0..graph.edges.num_successors(&(), &node) {
        let next = graph.edges.get_successor(&(), &node, i);
        let kind = search.edge_kind(&node, &next);
        let colour = Attribute {
            name: "color",
            value: colour(kind),
        };
        dot.edge(
            graph.number(node) as u64,
            graph.number(next) as u64,
            &[colour],
        )?;
    }
    Ok(())
}

// Draws the edges of a node that isn't reached.
fn draw_unreached(graph: &NumberedGraph, node: u32, dot: &mut Dot) -> Result<(), AllocError>
    requires lawful { AreInverse graph.now.edges }
    requires member { Contains (graph_of graph.now.edges).nodes node }
{
    for i in 0..graph.edges.num_successors(&(), &node) {
        let next = graph.edges.get_successor(&(), &node, i);
        dot.edge(graph.number(node) as u64, graph.number(next) as u64, &GREY)?;
    }
    Ok(())
}

// The picture of a graph. Asks that each node is among the predecessors of exactly its successors. Errors: allocation
// failure. Cost: linear in the nodes and edges, but for sorting each component.
fn graph_picture(alloc: Global, graph: &NumberedGraph) -> Result<Vec<u8>, OptError>
    requires { AreInverse graph.now.edges }
{
    let components = sccs_in_topological_order(alloc, &(), &graph.edges)?;
    let search = DFSTraversal::new(alloc, &(), &graph.edges)?;
    let mut dot = Dot::new(alloc, "numbers")?;
    dot.all("node", &CIRCLES)?;
    draw_components(graph, &search, &components, &mut dot)?;
    for node in &graph.edges.nodes(alloc, &())? {
        if search.is_reached(node) {
            draw_reached(graph, &search, *node, &mut dot)?;
        } else {
            draw_unreached(graph, *node, &mut dot)?;
        }
    }
    Ok(dot.end()?)
}

/// The picture of a text's graph in the dot language. The text has a line for each node, with its number, a colon, and
/// its successors, each after one blank. Each cyclic component is drawn in a frame, and the colour of an edge shows its
/// kind in a depth-first search: black for forward, red for back, blue for cross, and grey where the search doesn't
/// reach. `None` for another text.
///
/// Errors: allocation failure. Cost: that of `read_graph`, and linear but for sorting each component.
pub fn text_graph(alloc: Global, text: &[u8]) -> Result<Option<Vec<u8>>, OptError> {
    match read_graph(alloc, text)? {
        Some(graph) => Ok(Some(graph_picture(alloc, &graph)?)),
        None => Ok(None),
    }
}
