//! Names of values and blocks of a function in LLVM's textual IR: what its definitions are called, by words or by numbers,
//! and which of them each operand and each successor names.
#![tactic(auto)]

mod definitions;
mod names;
mod table;
mod uses;

pub use definitions::{DefinitionKind, LocalDefinition, NamingFault, name_definitions};
pub use names::{LocalName, NameFault, bytes_in, label_name, local_name};
pub use table::LocalNameTable;
pub use uses::{UseFault, resolve_uses};
