//! Calls for other languages: from texts in memory to an answer in the caller's buffer, with a status.
//!
//! It knows lists of passes, texts of any notation and buffers; of pointers, arguments, files and streams it knows
//! nothing.
#![tactic(auto)]

mod buffer;
mod fault;
mod graph;
mod optimise;
mod optimise_module;
mod status;

pub use fault::{Place, find_fault_into, find_module_fault_into};
pub use graph::describe_graph_into;
pub use optimise::{optimise_by_list, optimise_into};
pub use optimise_module::{MAX_MODULE, ModulePass, ModulePipeline, optimise_module_into};
pub use pliron_driver::{BenchNotation, Notation};
pub use status::{CallFailure, Status};
