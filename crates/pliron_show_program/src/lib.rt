//! Programs with commands for people: texts of a notation are run, optimised, checked, drawn and explained.
//!
//! It knows words, files, streams and an exit status. What each command does is in `pliron_show_commands`; which texts a
//! program takes, the program says.
#![tactic(auto)]

mod command;
mod commands;
mod format;
mod help;
mod host;
mod inner;
mod input;
mod optimise;
mod output;
mod pipeline;
mod program;

pub use commands::{input_failure, no_operation_outcome, outcome_in, run_as_asked, unread_outcome};
pub use format::TextFormat;
pub use host::run_program;
pub use input::{CommandInput, bytes_of, input_name};
pub use pipeline::pipeline_and_file;
pub use program::Program;
