//! The heads of statements in LLVM's textual IR and of the constants in them: what passes read of each, by its form.
#![tactic(auto)]

mod constants;
mod statements;

pub use constants::head_of_constant;
pub use statements::head_of_statement;
