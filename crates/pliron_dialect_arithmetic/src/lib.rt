//! `Arithmetic`, a small dialect: numbers of 64 signed bits, jumps and branches, and functions.
//!
//! It is the pattern that `tools/new_dialect` copies.
#![tactic(auto)]

mod kind;
mod moves;
mod tables;
mod words;

pub use kind::ArithmeticKind;
use pliron_dialect::ByRoles;

/// The dialect of these kinds.
///
/// | Kind | What it does |
/// |---|---|
/// | `function` | invokes its region once with its inputs, and ends with the invocation's values |
/// | `lit` | gives its number |
/// | `add`, `mul` | give the wrapped sum, product |
/// | `neg` | gives its operand subtracted from 0, wrapped |
/// | `less` | gives 1 if its first operand is below the second one, else 0 |
/// | `jump` | jumps to its block with its operands |
/// | `branch` | jumps to its first block unless its first operand is 0, else to its second |
/// | `return` | leaves the region with its operands |
/// | `if` | invokes its first region unless its first operand is 0, else its second, with the other operands,
/// and gives what the invocation gives |
/// | `while` | invokes its region with its operands, and again with the values of each invocation until the
/// first of them is 0; then gives the others |
///
/// Where an operation passes or gives more values than there are places for, the last ones are cut; where it has
/// fewer, the others are 0.
pub type Arithmetic = ByRoles<ArithmeticKind>;
