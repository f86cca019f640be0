//! What a program means, and what a dialect owes: the errors, the traits of a dialect with their laws as
//! members, and the first calls that need no more than these.
//!
//! It knows nothing of rewrites that keep every run, of any dialect but the one at hand, or of texts.
//! `docs/DIALECTS.md` says how a dialect is written.
#![tactic(auto)]

mod dialect;
pub mod edges;
mod fault;
mod linked;
pub mod materialise;
mod materialised_constants;
mod operand_folds;
pub mod reads;
mod room;

pub use dialect::{
    BlockArgRemoval, BranchOpFoldInterface, ConstFoldInterface, Dialect, HasMeaning, Interface,
    RegionBranchOpInterface, SideEffects,
};
pub use edges::edges_last;
pub use fault::OptError;
pub use linked::{is_admitted, is_well_linked};
pub use materialised_constants::MaterialisedConstant;
pub use operand_folds::{OpFoldResult, OperandFoldInterface};
pub use room::Room;
