//! The theory of functions that are erased because nothing calls them.
//!
//! As in the theory of runs, a call here does nothing when it runs: its contract is a law, for every meaning and every
//! calling convention.
//!
//! It knows linked runs, and which operations of a dialect by roles call by name. It knows no graph and no optimisation.
#![tactic(auto)]

ghost use Rattle.pliron_rewrite_symbols.specs.ErasedFunctions.{ErasedFunctionsLaw};
ghost use Rattle.pliron_rewrite_symbols.specs.CallersByRole.{CallersLaw};

use pliron_dialect_calls::Calls;

/// Functions may be erased from a module where runs are kept and what is left can call none of them. Linked runs show the
/// same, with recursion, and with callbacks by the world of what is left.
pub fn functions_are_erased()
    ensures { ErasedFunctionsLaw }
{}

/// In a dialect by roles, what shows its kind, its attributes and its operands alone calls its callee alone.
pub fn callees_are_called<K: Calls>()
    ensures { CallersLaw K.tables K.calls }
{}
