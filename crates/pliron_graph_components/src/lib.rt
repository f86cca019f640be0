//! Strongly connected components, reverse graphs, and ancestors in a tree, over the graphs of `pliron_graph_traversal`, whose
//! orders and searches are passed on.
//!
//! A graph implements [`ControlFlowGraph`]. [`sccs_in_topological_order`] gives the strongly connected components, by the
//! numbers of the search from the entry and then all nodes. The functions of [`laws`] hold what users may conclude from
//! a search numbering: a node encloses another when it has the smaller pre-order number and the greater post-order
//! number, and the clauses on this relation admit one numbering ([`laws::numbering_is_one`]).
//!
//! A [`ReverseGraph`] is the reverse of a graph, and itself a graph, whose entry leads to one node of each
//! component that no edge leaves.
//!
//! The blocks of a region are such a graph, where edges are last in the blocks of its parent operation. The
//! searches for ancestors go up from an operation or a block of the tree.
//!
//! No recursion follows the graph: each search has a stack of its own.
//!
//! It knows graphs, and the regions of a tree as such. It knows nothing of rewrites, of runs or of
//! optimisations.
#![tactic(auto)]

mod ancestors;
mod components;
pub mod laws;
mod numbered_graph;
mod pre_sentinels;
mod reverse_graph;
mod reverse_node;

pub use ancestors::{
    find_ancestor_block_of_block_in_region, find_ancestor_block_of_op_in_region,
    find_ancestor_of_op_interface, find_ancestor_of_op_type, find_ancestor_op_of_op_in_block,
    find_ancestor_op_of_op_in_region, strictly_precedes_in_block,
};
pub use components::{Scc, sccs_in_topological_order};
pub use numbered_graph::{NumberedGraph, read_graph};
pub use pliron_graph_traversal::{
    AdjacencyList, ControlFlowGraph, DFSEdgeKind, DFSTraversal, HasLabel, OrderIter,
    ReverseOrderIter, post_order, post_order_by_component, topological_order,
    topological_order_by_component,
};
pub use reverse_graph::ReverseGraph;
pub use reverse_node::ReverseNode;
