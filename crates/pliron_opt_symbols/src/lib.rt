//! Functions of a module that nothing names: which are kept, and the erasing of the others.
//!
//! It knows functions by name and their calls, the order of a graph, and the law on functions that are erased. It knows nothing of
//! the other optimisations, of any dialect or of the program.
#![tactic(auto)]

mod erasing;
mod policy;
mod rows;
mod traced;
mod within;

pub use erasing::symbol_dce;
pub use policy::SymbolPolicy;
