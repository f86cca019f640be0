//! Sparse conditional constant propagation, over blocks, branches and nested regions.
//!
//! Source: Wegman and Zadeck, Constant Propagation with Conditional Branches (1991), section 3. Each value has a
//! lattice value, and each block is executable or not:
//!
//! ```text
//!         undetermined                 top: nothing is known yet
//!      /    |    |    \
//! ..  c1   c2   c3   c4  ..            one constant
//!      \    |    |    /
//!        not a constant                bottom: it may differ from run to run, or from visit to visit
//! ```
//!
//! A value is lowered, never raised, and so at most twice; a block becomes executable, at most once. The meet of two
//! lattice values is the greatest one at or below both: of two constants that differ it is bottom.
//!
//! 1. Start. All values inside the root are undetermined, and no block is executable. Then the entries of the root's
//!    regions become executable, and their arguments not constant (`search::start`).
//! 2. Propagate. A visit of an operation in an executable block reads the lattice values of its operands, writes the
//!    constraints that its transfer function puts on values and blocks, and lowers what doesn't satisfy them
//!    (`constraints`). A block that becomes executable is put on one worklist, a value that is lowered on another
//!    one; operations with many operands are deferred. This ends where both worklists are empty and nothing is
//!    deferred: there the lattice values are a fixpoint (`search`). What follows where an operand was lowered, and what
//!    waits, is `reactions`.
//! 3. List. In executable blocks, in pre-order, the operations that fold and the arguments that are constants
//!    (`search::find`).
//! 4. Rewrite. Each listed operation is folded in place by the constants of its operands; then a constant is put for
//!    each listed argument (`rewrite::rewrite`).
//!
//! The tables of the lattice values, the executable blocks and the worklists are `lattice_tables`. "Facts" in names
//! and contracts are the lattice values of all values, with the set of executable blocks.
//!
//! The crate builds on the theory of runs and knows nothing of the other optimisations, of passes or of the program.
#![tactic(auto)]

mod constraints;
mod deferred;
mod direct_mapped_index;
mod entry_operands;
mod feasible_edges;
mod inside;
mod lattice_tables;
mod propagation;
mod reactions;
mod rewrite;
mod search;

pub use propagation::{sccp, sccp_counted, sccp_through};
