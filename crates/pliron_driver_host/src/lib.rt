//! Programs that run passes on modules: their words, files, streams and exit status.
//!
//! What they do with texts is in `pliron_driver_modules`; which notation the texts are in, each program says.
#![tactic(auto)]

mod clock;
mod command;
mod program;
mod running;
mod target;

pub use clock::ProcessClock;
pub use command::ProgramHelp;
pub use program::{ModuleProgram, run_module_program};
pub use running::{run_on_words, run_to};
pub use target::Target;
