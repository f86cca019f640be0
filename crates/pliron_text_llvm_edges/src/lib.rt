//! Edges between the blocks of a function in LLVM's textual IR, and what they pass to the phis that they lead to.
#![tactic(auto)]

mod edges;
mod entries;
mod function;
mod incoming;
mod phis;
mod stop;
mod targets;

pub use edges::{BlockEdge, push_edges};
pub use entries::PhiEntry;
pub use function::{EdgeForm, FunctionEdges, read_edges};
pub use incoming::incoming_edges;
pub use phis::{BlockPhi, PhiPlace, push_phis};
pub use stop::{EdgeFault, EdgeRefusal, EdgeStop, KeptForEdges};
pub use targets::{bytes_at, is_successor_at, place_of_hole, target_at};
