//! Graphs that are read through a context: depth-first orders, search numbers and edge kinds.
//!
//! A graph implements [`ControlFlowGraph`]; adjacency lists and the regions of a tree do. The crate knows nothing
//! of dialects or of components.
#![tactic(auto)]

mod adjacency;
mod edge_kind;
mod graph;
mod iterators;
mod listed_set;
mod node_set;
mod orders;
mod region;
pub mod search;
pub mod traversal;

pub use adjacency::AdjacencyList;
pub use edge_kind::DFSEdgeKind;
pub use graph::{ControlFlowGraph, HasLabel};
pub use iterators::{OrderIter, ReverseOrderIter};
pub use listed_set::{ListedSet, NumberSet};
pub use node_set::NodeSet;
pub use orders::{
    post_order, post_order_by_component, topological_order, topological_order_by_component,
};
pub use traversal::DFSTraversal;
