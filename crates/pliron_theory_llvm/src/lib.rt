//! What MLIR's operations mean in LLVM, with poison and undefined behaviour, and which changes of a tree refine there.
//!
//! As in the theory of runs, a call here does nothing when it runs: its contract is a law, for every target.
//!
//! Not as in LLVM: `undef` is one answer of the world for all its uses; a pure operation is a function of its operands, also
//! where a floating result may be any of several; a `select` with fast-math flags is one without.
//!
//! It knows the theory of refinement and MLIR's dialect, and no text, no graph and no optimisation.
#![tactic(auto)]

ghost use Rattle.pliron_theory_llvm.specs.LlvmLaws.{LlvmOrders, LlvmLaw, SomeTarget, LlvmRefining};
ghost use Rattle.pliron_theory_llvm.specs.Examples.{Verdicts};

/// LLVM's operations are monotone: on better defined data they do the same on better defined data, and are undefined
/// behaviour no more often.
pub fn llvm_is_monotone()
    ensures orders { LlvmOrders }
    ensures law { LlvmLaw }
{}

/// Some target is monotone, so that what is said of each such target says something.
pub fn some_target_is_monotone()
    ensures { SomeTarget }
{}

/// What keeps runs in LLVM's meaning refines, and refinements compose. Dead pure operations, divisions among them, may be
/// erased, and operands may be renamed to values that are less poison.
pub fn llvm_refines()
    ensures { LlvmRefining }
{}

/// What LLVM's operations do on some data: divisions by 0 and by poison, broken promises, wide shifts, choices by poison.
pub fn verdicts_hold()
    ensures { Verdicts }
{}
