//! From words and a text to an answer: the pipeline that a word asks for, how texts are read and printed, and what
//! passes make of a text.
mod answer;
mod build;
mod closed;
mod command;
mod notation;
mod observer;

pub use answer::{OptimisedText, optimise, optimise_text, run_alone};
pub use build::{PlainPasses, StepFactory, build_pipeline, passes_of};
pub use closed::ClosedNotation;
pub use command::{Command, read_command, read_pipeline};
pub use notation::{BenchNotation, Document, KindNotation, Notation, TextFailure};
pub use observer::{NoObserver, Observer};
