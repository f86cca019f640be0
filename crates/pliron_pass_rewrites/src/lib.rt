//! Rewrites for passes of authors: each keeps runs, as those of `pliron_theory::rewrites`, and says that what it
//! does inside an operation is what a pass on that operation may do.
//!
//! It knows no dialect, no optimisation and no graph.
#![tactic(auto)]

mod rewrites;

pub use rewrites::{erase_unused_inside, is_defined_inside, replace_by_constant_inside};
