//! Modules of MLIR through passes: the generic form as a notation of modules.
//!
//! It knows how modules of MLIR are read and printed, and what is told of them; what programs do with modules of any notation
//! is in `pliron_driver_modules`, whose names it passes on.
#![tactic(auto)]

mod closed;
mod failure;
mod fitness;
mod notation;
mod other_form;

pub use closed::ClosedForm;
pub use failure::{ModuleFailure, ModuleFault, failure_of};
pub use fitness::{Fitness, Unfit};
pub use notation::{GenericForm, ModuleDocument};
pub use pliron_driver_modules::{
    MAX_TEXT, ModuleNotation, ModuleOptions, ModuleOutcome, ModuleSource, Request,
    misspelling_outcome, print_after_each, read_plan, run_on, run_passes,
};
