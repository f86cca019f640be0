//! The nodes of a reverse graph.
ghost use Rattle.std.specs.Prelude.{◌≡◌, ◌↔◌, IsTrue, Some};
ghost use Rattle.std.specs.Option.{option_copied};

use pliron_graph_traversal::HasLabel;
use pliron_laws::OptError;
use std::alloc::Global;

/// A node of a [`ReverseGraph`](crate::ReverseGraph).
#[derive(Clone, Copy, Debug, PartialEq, Eq, Hash)]
pub enum ReverseNode<N> {
    /// The entry of the reverse graph, in front of the pre-sentinels. It is no node of the original graph.
    Sentinel,
    /// A node of the original graph.
    Real(N),
}

impl<N> ReverseNode<N> {
    /// Whether this is the sentinel. Takes no memory. Cost: constant.
    pub fn is_sentinel(&self) -> bool
        ensures { IsTrue result ↔ (self.now ≡ ReverseNode.Sentinel) }
    {
        matches!(self, ReverseNode::Sentinel)
    }

    /// The node of the original graph, or `None` for the sentinel. Takes no memory. Cost: constant.
    pub fn as_real(&self) -> Option<&N>
        ensures { (node : N) → ((option_copied result ≡ Some node) ↔ (self.now ≡ ReverseNode.Real node)) }
    {
        match self {
            ReverseNode::Sentinel => None,
            ReverseNode::Real(node) => Some(node),
        }
    }

    /// The node of the original graph, or `None` for the sentinel. Takes no memory. Cost: constant.
    pub fn into_real(self) -> Option<N>
        ensures { (node : N) → ((result ≡ Some node) ↔ (self ≡ ReverseNode.Real node)) }
    {
        match self {
            ReverseNode::Sentinel => None,
            ReverseNode::Real(node) => Some(node),
        }
    }
}

impl<C, N: HasLabel<C>> HasLabel<C> for ReverseNode<N> {
    fn label(&self, alloc: Global, ctx: &C) -> Result<String, OptError> {
        match self {
            ReverseNode::Sentinel => Ok("sentinel".to_string(alloc)?),
            ReverseNode::Real(node) => node.label(alloc, ctx),
        }
    }
}
