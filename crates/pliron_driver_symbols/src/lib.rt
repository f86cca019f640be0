//! The stage that erases the functions of a module of MLIR that nothing names.
//!
//! It knows what modules of MLIR say of names, and the erasing of functions; of notations, passes, words and streams it knows
//! nothing.
#![tactic(auto)]

mod stage;

pub use stage::{ErasingStage, SYMBOL_STAGE};
