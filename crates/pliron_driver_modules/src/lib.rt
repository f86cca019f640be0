//! Modules through passes, in any notation of modules: what programs do with texts of whole modules.
//!
//! It knows notations, passes, what is reported about them, and streams; of MLIR's and LLVM's texts, words and files it knows
//! nothing.
#![tactic(auto)]

mod each_pass;
mod failure;
mod module_observer;
mod notation;
mod outcome;
mod plans;
mod program;
mod report;
mod source;
mod stages;
mod tally;

pub use each_pass::print_after_each;
pub use failure::failure_status;
pub use module_observer::{ModuleCounts, ModuleObserver, ModuleOptions};
pub use notation::{DocumentView, ModuleNotation};
pub use outcome::{ModuleOutcome, misspelling_outcome, run_passes};
pub use plans::read_plan;
pub use program::{MAX_TEXT, Request, run_on};
pub use source::ModuleSource;
pub use stages::StageCounts;
pub use tally::ClassTally;
