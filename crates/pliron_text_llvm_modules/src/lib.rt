//! Modules in LLVM's textual IR: their parts, which are the text. A part is raw, a function that was read with its edges,
//! or a function that is kept as it is written. They are printed again with other texts for the functions that were read.
//!
//! It knows which bytes are functions, and of each that it reads the blocks, what operands and successors name, and what
//! edges pass to phis. It keeps a function with something that isn't in the table, or with a byte that stands for a hole.
//! That it keeps no other one is tested, and no clause says it.
//! It doesn't know who takes the address of a block (`blockaddress`) or counts its uses (`uselistorder_bb`): such a
//! function is read as any other, so who gives another text for it looks for these words first. It makes no text of a
//! function itself, and no tree. Begin at `read_module`.
#![tactic(auto)]

mod function;
mod module;
mod print;
mod stop;

pub use function::{ModuleFunction, ReadFunction};
pub use module::{ReadPart, read_module};
pub use print::print_module;
pub use stop::{KeptFunction, LlvmModuleFault, ModuleRefusal};
