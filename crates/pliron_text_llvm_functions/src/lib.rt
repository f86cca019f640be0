//! Functions of LLVM's textual IR: what they define, by their names and numbers, and what each operand and each successor
//! names.
#![tactic(auto)]

mod defining;
mod function;
mod parameters;
mod stop;

pub use defining::{DefiningFault, push_body_definitions};
pub use function::{FunctionForm, FunctionReading, read_function};
pub use parameters::{ParameterScan, ParameterState, push_parameters};
pub use stop::{FunctionFault, KeptFor, Refusal};
