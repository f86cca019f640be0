//! The stage that rotates the loops of a module of MLIR.
//!
//! It knows the rotation of loops and the types in a module's sheet; of notations, passes, words and streams it knows nothing.
#![tactic(auto)]

mod stage;

pub use stage::{ROTATION_STAGE, RotatingStage};
