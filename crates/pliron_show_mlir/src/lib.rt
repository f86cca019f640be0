//! Modules of MLIR as people see them: where their texts leave the generic form, where operations, blocks and values are
//! in them, what an edge is called, which constants operations make, and how functions run.
//!
//! It knows the generic form and what people ask of notations; of passes, arguments, files and streams it knows nothing.
#![tactic(auto)]

mod constants;
mod edges;
mod lost_numbers;
mod notation;
mod parts;
mod runs;
mod shown;
mod words;

pub use constants::constant_of;
pub use edges::{edge_names, edge_way};
pub use notation::MlirNotation;
pub use parts::{module_parts, module_range};
pub use runs::{FunctionPlace, functions_of};
