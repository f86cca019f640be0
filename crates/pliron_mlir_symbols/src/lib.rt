//! What modules of MLIR say of names: which functions nobody names but calls in their module.
//!
//! It knows the texts of operations, and what erasing of functions asks of a driver. A function is private if its linkage or its
//! visibility says so and no text of the module has its name behind `@`, but as the callee of a call.
#![tactic(auto)]

mod lists;
mod mentions;
mod policy;

pub use policy::ModuleSymbols;
