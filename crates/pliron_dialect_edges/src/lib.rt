//! Branches whose edges lead elsewhere: which dialects have branches that go at once, and a branch in the place of one
//! like it, with other successors.
//!
//! It knows the laws of dialects, and dialects by roles, since it says that theirs go at once. It knows no theory of
//! runs and no optimisation.
#![tactic(auto)]

mod at_once;
mod lengthen;
mod replace;

pub use at_once::BranchesAtOnce;
pub use lengthen::{LengthensEdges, LongerBranch};
pub use replace::lead_elsewhere;
