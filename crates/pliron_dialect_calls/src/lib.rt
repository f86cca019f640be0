//! Calls of functions by name, in dialects by roles: which kinds call and which are functions, the calling convention that
//! follows, and what an inliner asks of a dialect.
//!
//! It knows linked runs, inlined calls and dialects by roles, and no tree that is rewritten.
#![tactic(auto)]

mod calls;
mod inlining_dialect;

pub use calls::Calls;
pub use inlining_dialect::InliningDialect;
