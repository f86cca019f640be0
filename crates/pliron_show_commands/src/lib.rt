//! The work of each command of `plir`, the command-line program, as functions from texts and options to texts.
//!
//! It knows what users want to see of texts and runs, and of notations how to read, print and run their texts; of
//! words, files and streams it knows nothing.
#![tactic(auto)]

mod checking;
mod comparing;
mod drawing;
mod ending;
mod explaining;
mod failure;
mod graph_fault;
mod live_use;
mod one_by_one;
mod optimising;
mod outcome;
mod refusal;
mod report;
mod running;
mod statistics;
mod strict;
mod table;
mod unfit_report;
mod violation_message;

pub use checking::{CheckOutcome, check, check_text};
pub use comparing::{CompareOptions, SeenRuns, Sights, compare, compare_text};
pub use drawing::{draw_flow, draw_graph};
pub use explaining::{ExplainOptions, explain};
pub use failure::CommandFailure;
pub use optimising::{OptOptions, misspelling_outcome, opt};
pub use outcome::Outcome;
pub use pliron_driver::BenchNotation;
pub use pliron_driver_instrument::{InstrumentationOptions, PipelineText, PlanError, Progress};
pub use pliron_evaluator::evaluator::Datum;
pub use pliron_show::{EffectSink, RunOptions, Runnable, ShownNotation};
pub use pliron_show_graphs::FlowOptions;
pub use pliron_show_places::{
    JsonObject, LineAndColumn, MessageForm, Source, SourceMark, TextRange, blank_comments, in_form,
    isolate, mark_source, operation_range, position_of, without_mark,
};
pub use running::{run, run_streamed};
pub use strict::{opt_with_check, unfit_warning};
