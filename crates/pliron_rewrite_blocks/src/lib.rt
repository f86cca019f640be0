//! The theory of rewrites of blocks: what forwarding, erasing and merging keep.
//!
//! As in the theory of runs, a call here does nothing when it runs: its contract is a law, for every
//! dialect that keeps the laws which it names.
//!
//! It knows the theory of runs and the laws of dialects, and no graph, no dialect and no optimisation.
#![tactic(auto)]

pub mod forwarding;
pub mod inside;
pub mod joining;
pub mod links;
pub mod pairs;
pub mod removal;
