//! The functions of a module by their names, and which calls which.
//!
//! It knows the dialects whose calls may be inlined, and the regions of a tree as such. It knows nothing of runs, of
//! linked programs or of rewrites.
#![tactic(auto)]

mod call_sites;
mod children;
mod function_name;
mod function_table;

pub use call_sites::CallSite;
pub use function_table::FunctionTable;
