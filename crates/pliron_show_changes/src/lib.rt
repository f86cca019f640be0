//! What passes change, in the names of the text: trees between passes, the lines that each run changed, and an answer
//! whose values and blocks keep their names.
//!
//! It knows what people ask of notations, and passes; of words of a process, files and streams it knows nothing.
#![tactic(auto)]

mod line_diff;
mod named_answer;
mod names;
mod stages;
mod subjects;
mod written_changes;

pub use line_diff::{LineChange, changed_lines};
pub use named_answer::{write_named_answer, write_renamed_answer};
pub use stages::{StageOptions, StageReport, run_stages};
pub use written_changes::write_changes;
