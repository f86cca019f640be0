//! The theory of runs: which rewrites keep every run, for every lawful dialect, and the calls that make
//! them whole.
//!
//! It knows the laws of dialects alone, and no dialect, no text and no graph.
#![tactic(auto)]

mod arguments;
mod folding;
pub mod rewrites;
pub mod theory;

pub use arguments::lose_forwarded;
pub use folding::HasFolding;
