//! Dialects by roles, under any interpretation, and what branches of dialects share: operands in a row that an edge
//! forwards, counts of them in attributes, and a jump in the place of a branch.
#![tactic(auto)]

mod by_roles;
mod choices;
pub mod counts;
mod edge_ranges;
mod folds;
mod form;
mod given;
mod heads;
mod identity;
mod jumps;
pub mod laws;
mod numbers;
mod operand_folds;
pub mod ranges;
mod replace;
mod roles;
mod tables;
mod verify;

pub use by_roles::ByRoles;
pub use choices::admits_head;
pub use form::{Counting, Form, Otherwise};
pub use identity::{Absorption, Annihilator, Identity};
pub use jumps::replace_by_jump;
pub use ranges::EdgeRange;
pub use roles::Roles;
