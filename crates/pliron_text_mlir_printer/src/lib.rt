//! Printing a module in MLIR's generic form, and comparing two modules.
#![tactic(auto)]

mod comparison;
mod constants;
mod naming;
mod operations;
mod printer;

pub use comparison::{ModuleView, is_same_module};
pub use constants::{datum_of, form_of_datum, form_of_head, write_signed, write_type};
pub use naming::{ByHandle, Naming};
pub use printer::{print_module, print_module_named};
