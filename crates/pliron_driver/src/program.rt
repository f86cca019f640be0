//! What every program has: words that ask for a pass pipeline, streams, and the ways to end without an answer.
//!
//! It knows no tree, no pass and no notation.
mod blanks;
mod failure;
mod pipeline_text;
mod streams;

pub use blanks::without_blanks;
pub use failure::Failure;
pub use pipeline_text::{PipelineText, PlanError, WordFault};
pub use streams::{MAX_TEXT, read_input, write_answer, write_bytes};
