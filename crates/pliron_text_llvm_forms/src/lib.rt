//! Forms of statements in LLVM's textual IR: what a tree keeps of their texts beside operands and successors.
#![tactic(auto)]

mod form;
mod statement;

pub use form::form_from;
pub use statement::{form_of_statement, holes_of_statement};
