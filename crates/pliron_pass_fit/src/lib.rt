//! Whether an operation is fit to run, what is wrong with it if it is not, and passes on a tree of which
//! nothing is known.
//!
//! It knows the laws of dialects, graphs and passes, and no dialect and no text.
#![tactic(auto)]

mod blocks;
mod contents;
mod definitions;
mod dominated;
mod find;
mod nesting;
mod operations;
mod run;
mod violation;
mod violations;

pub use find::{find_violation, fit_roots, is_fit};
pub use run::{CheckedRun, RunError, run_checked, run_checked_for};
pub use violation::Violation;
pub use violations::find_violations;
