//! What the texts of functions in LLVM's textual IR say beside their trees: forms of statements, texts of constants, and
//! names.
#![tactic(auto)]

mod constants;
mod sheet;

pub use constants::{ConstantTable, TextConstant};
pub use sheet::{LlvmSheet, ValueNote, ValueOrigin};
