//! What follows from the contracts of the orders, the traversal, the components and the reverse graph. Each
//! function does nothing: its contract is the law.
ghost use Rattle.pliron_graph_components.specs.Laws.{EdgeInPostOrder, EdgeInTopologicalOrder, EdgeBetweenWalks, WalkFromFirstNode, BackEdgeOnCycle, EdgeBetweenComponents, PathsOfRegion};
ghost use Rattle.pliron_graph_components.specs.NumberingLaws.{NumberingIsOne, OrdersAreOne, WalksAreOne};
ghost use Rattle.std.specs.Prelude.{◌≡◌, IsTrue, true, false};
ghost use Rattle.pliron_graph_components.specs.ReverseLaws.{SentinelReachesAll, NoPreSentinelIsSpare};

use crate::ReverseNode;
use std::hash::Hash;

/// The clauses of a depth-first numbering admit one numbering: any two that meet them, from the same roots,
/// give each node that the roots reach the same two numbers. So a graph has one pair of orders from its entry
/// ([`DFSTraversal`](crate::DFSTraversal)), and one list of walks
/// ([`post_order_by_component`](crate::post_order_by_component)).
pub fn numbering_is_one<N: Eq>()
    ensures numbers { NumberingIsOne N }
    ensures orders { OrdersAreOne N.eq }
    ensures walks { WalksAreOne N.eq }
{}

/// In [`post_order`](crate::post_order) the target of an edge is before its source, or reaches it.
pub fn edge_in_post_order<N: Eq>()
    ensures { EdgeInPostOrder N.eq }
{}

/// In a list of [`topological_order_by_component`](crate::topological_order_by_component) the source of an edge
/// is before its target, or the target reaches it.
pub fn edge_in_topological_order<N: Eq>()
    ensures { EdgeInTopologicalOrder N.eq }
{}

/// An edge between two walks goes from the later to the earlier.
pub fn edge_between_walks<N: Eq>()
    ensures { EdgeBetweenWalks N.eq }
{}

/// A walk's first node in topological order is the first listed node that no earlier walk holds, and the walk
/// is what that node reaches and no earlier walk holds.
pub fn walk_from_first_node<N: Eq>()
    ensures { WalkFromFirstNode N.eq }
{}

/// Some edge of what the entry reaches is a back edge exactly if that part has a cycle.
pub fn back_edge_on_cycle<N: Eq>()
    ensures { BackEdgeOnCycle N.eq }
{}

/// An edge between two components goes from the earlier to the later.
pub fn edge_between_components<N: Eq>()
    ensures { EdgeBetweenComponents N.eq }
{}

/// In a region that may be read as a graph, the paths of the meaning from a block lead where those of the graph lead.
pub fn paths_of_regions()
    ensures { PathsOfRegion }
{}

/// The sentinel of a [`ReverseGraph`](crate::ReverseGraph) reaches every node.
pub fn sentinel_reaches_all<N: Eq>()
    ensures { SentinelReachesAll N.eq }
{}

/// With any one pre-sentinel left out, the sentinel would not reach that node.
pub fn no_pre_sentinel_is_spare<N: Eq>()
    ensures { NoPreSentinelIsSpare N.eq }
{}

/// Nodes of the original graph are equal in a [`ReverseGraph`](crate::ReverseGraph) exactly if they are so
/// there, and the sentinel is equal to itself alone.
pub fn equality_of_reverse_nodes<N: Eq>()
    ensures real { (x y : N) → ⟦<ReverseNode<N> as PartialEq>⟧.eq (ReverseNode.Real x) (ReverseNode.Real y) ≡ N.eq x y }
    ensures sentinel { ⟦<ReverseNode<N> as PartialEq>⟧.eq ReverseNode.Sentinel ReverseNode.Sentinel ≡ true }
    ensures apart { (x : N) → (⟦<ReverseNode<N> as PartialEq>⟧.eq ReverseNode.Sentinel (ReverseNode.Real x) ≡ false) ×
        (⟦<ReverseNode<N> as PartialEq>⟧.eq (ReverseNode.Real x) ReverseNode.Sentinel ≡ false) }
{}

/// Equal nodes of a [`ReverseGraph`](crate::ReverseGraph) write the same to a hasher.
pub fn hashing_of_reverse_nodes<N: Eq + Hash>()
    ensures { (x y : ReverseNode N) → IsTrue (⟦<ReverseNode<N> as PartialEq>⟧.eq x y)
        → ⟦<ReverseNode<N> as Hash>⟧.hash_input x ≡ ⟦<ReverseNode<N> as Hash>⟧.hash_input y }
{}
