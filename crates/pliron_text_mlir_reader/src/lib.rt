//! Reading a text in MLIR's generic form to its syntax, with the class of each operation, and to a tree with a sheet
//! beside it.
#![tactic(auto)]

mod build;
mod heads;
mod known;
mod operations;
mod owned;
mod parse;
mod read;
mod reader;
mod taken;
mod taken_head;

pub use parse::{ParsedModule, parse_text};
pub use pliron_text_mlir_syntax::{
    Expectation, Fault, LineAndColumn, OperationForm, Sheet, position_of,
};
pub use read::{Module, read_module};
pub use taken_head::TakenHead;
