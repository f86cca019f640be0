//! The evaluator, which is for tests: what is seen of a run of any dialect that implements `Evaluate`. `Bench` does, and
//! the tiny dialect, which is here too; `pliron_role_runs` does it for dialects by roles.
//!
//! It knows the laws of dialects and these two dialects; of texts and of rewrites it knows nothing.
#![tactic(auto)]

pub mod evaluator;
mod tiny;

pub use tiny::{Tiny, TinyKind};
