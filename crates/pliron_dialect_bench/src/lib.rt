//! `Bench`, a small dialect of sixteen kinds that keeps all laws and folds monotonely.
//!
//! It knows the laws of dialects; of its notation, of runs that are compared and of optimisations it knows
//! nothing.
#![tactic(auto)]

mod dialect;
pub mod heads;
pub mod jumps;
mod kind;
pub mod laws;
pub mod numbers;
pub mod tables;

pub use dialect::Bench;
pub use kind::BenchKind;
