//! Pipelines of passes that are instrumented, and the words that ask for them.
//!
//! It knows passes and notations of any dialect; of marks, tables, arguments, files and streams it knows nothing.
#![tactic(auto)]

mod comparison;
mod contents_count;
mod instrumented;
mod pipeline;
mod progress;
mod run_records;

pub use comparison::{ContentsComparison, RewriteCounts};
pub use contents_count::ContentsCount;
pub use instrumented::{Instrumentation, InstrumentedStep, has_fault, is_short};
pub use pipeline::{InstrumentationOptions, InstrumentedPipeline, instrumented_pipeline};
pub use pliron_driver::{PipelineText, PlanError, WordFault};
pub use progress::{Progress, Timeless};
pub use run_records::{InstrumentationRecord, RoundRecord, RunNote};
