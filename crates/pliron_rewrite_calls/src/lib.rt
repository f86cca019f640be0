//! Calls that change a tree as inlining asks: a block is split behind an operation, a call is prepared, blocks are copied,
//! and a call becomes a jump to a copy of its callee's blocks.
//!
//! Each is wholly done or not at all, whatever it answers. A contract here says what the tree became. `prepare_call` keeps
//! runs. The others alone don't: a block that was split ends without a jump until the caller puts one.
//!
//! It knows the laws of dialects, and no graph, no dialect and no optimisation.
#![tactic(auto)]

mod copies;
mod copyable;
mod copying;
mod erasing;
mod inlining;
mod preparing;
mod splitting;

pub use copies::Copies;
pub use copyable::may_copy_blocks;
pub use copying::copy_blocks;
pub use inlining::inline_call;
pub use preparing::prepare_call;
pub use splitting::split_block_behind;
