//! Stages in front of passes: what is done to a module once it is read.
//!
//! It knows notations of modules; of any stage, of passes, words and streams it knows nothing.
#![tactic(auto)]

mod notation;
mod stage;

pub use notation::{StagedForm, apply_stage};
pub use stage::ModuleStage;
