//! Loops that are rotated: a header is copied for the edges that enter, so that the test of the loop stands at its end.
//!
//! A header's values are passed to the two blocks to which it leads, so that it is closed; then it is copied, and the
//! operations that enter the loop lead to the copy. Runs are kept in any case.
//!
//! It knows the theories of loops and of copies, and the copying of blocks. It knows no graph and no optimisation.
#![tactic(auto)]

mod header;
mod rotating;

pub use header::copy_header;
pub use rotating::{Rotation, rotate_loop};
