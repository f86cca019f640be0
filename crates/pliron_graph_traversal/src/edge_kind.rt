//! Kinds of edges.

/// The kind of an edge in a depth-first search.
///
/// The search keeps no tree, so an edge of its tree is a `Forward` edge like any other that leads to a node
/// found below its source.
#[derive(Clone, Copy, Debug, PartialEq, Eq)]
pub enum DFSEdgeKind {
    /// To a node that was found below the source.
    Forward,
    /// To the source itself, or to a node that the source was found below.
    Back,
    /// To a node that was left before the source was found.
    Cross,
}
