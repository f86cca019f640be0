//! What tests of trees share: cases as lines of a text, trees of the tiny dialect that are made by steps, what
//! a dialect answers as texts, observations of runs, branches that lose a value, and a rewriter that counts; and
//! what a program means and what a dialect owes, under the names that users take.
//!
//! It holds no test. What it passes on is defined in the crates below. A call answers nothing where its case
//! can't be read or done, or an allocation fails.
//!
//! A dialect implements [`Dialect`] and its parents, and proves the laws that are members there.
//! `docs/DIALECTS.md` says how, on the dialect [`Tiny`]. The functions of [`theory`] hold what passes conclude
//! from the laws: which rewrites keep every run.
#![tactic(auto)]

pub mod answers;
pub mod bench;
pub mod cases;
pub mod listener;
pub mod losses;
pub mod runs;
pub mod trees;

pub use pliron_evaluator::{Tiny, TinyKind, evaluator};
pub use pliron_laws::{
    BlockArgRemoval, BranchOpFoldInterface, ConstFoldInterface, Dialect, HasMeaning, Interface,
    OptError, RegionBranchOpInterface, Room, SideEffects, edges_last,
};
pub use pliron_theory::{lose_forwarded, rewrites, theory};
