//! The theory of refinement: when the runs of one tree may take the place of another's, where a datum may become a
//! better defined one, as poison any, and where after undefined behaviour, which is a trap, all is allowed.
//!
//! As in the theory of runs, a call here does nothing when it runs: its contract is a law, for every meaning.
//!
//! It knows the theory of runs and the laws of dialects, and no graph, no dialect and no optimisation.
#![tactic(auto)]

ghost use Rattle.pliron_theory_refinement.specs.RefinementLaws.{RefinementLaws, SweepingRefines};

/// What does the same refines; refinement is transitive; where the operations are monotone, runs on better defined data
/// refine, and operands may be renamed to better defined values.
pub fn runs_refine()
    ensures { RefinementLaws }
{}

/// Dead operations that give at once or are undefined behaviour, as an unused division, may be erased, with blocks that
/// no run comes to.
pub fn dead_operations_may_be_undefined()
    ensures { SweepingRefines }
{}
