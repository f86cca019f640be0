//! Calls that are inlined: which functions may take the place of a call, how large they are, and which call one another.
//!
//! It knows the rewrite that inlines one call, functions by name and their calls, and what a dialect answers of them. It
//! knows nothing of the other optimisations, of any dialect or of the program.
#![tactic(auto)]

mod answer;
mod callee;
mod components;
mod facts;
mod inlining;
mod laws;
mod one_call;
mod policy;
mod size;

pub use answer::{InlinedCall, InlinedCalls, InliningReason, MadeValue};
pub use callee::may_be_inlined;
pub use components::call_components;
pub use inlining::{InliningOptions, inline_calls};
pub use laws::calls_are_inlined_in_turn;
pub use policy::InliningPolicy;
pub use size::{may_be_copied, size_of};
