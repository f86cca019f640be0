//! Equivalent operations: what the results of an earlier operation still say, and the rewrites that rest on it.
//!
//! As in the theory of runs, a call here does nothing when it runs: its contract is a law, for every
//! dialect that keeps the laws which it names.
//!
//! It knows the theory of runs and the laws of dialects, and no graph, no dialect and no optimisation.
//!
//! An operation is redundant if an equivalent one dominates it: its leader.
#![tactic(auto)]

pub mod alike;
pub mod rewrites;

ghost use Rattle.pliron_rewrite_equals.specs.Given.{GivenLaw};
ghost use Rattle.pliron_rewrite_equals.specs.Current.{CurrentLaw};
ghost use Rattle.pliron_rewrite_equals.specs.Redundancy.{AlikeLaw, LeaderLaw};
ghost use Rattle.pliron_rewrite_equals.specs.Merging.{MergingLaw};
ghost use Rattle.pliron_rewrite_equals.specs.Putting.{InsertingLaw};
ghost use Rattle.pliron_rewrite_equals.specs.Passing.{PassingLaw};

use pliron_laws::Dialect;

/// Wherever a run comes to an operation behind one without successors, the results of that one are what it
/// gave on the data that its operands have there.
pub fn results_are_as_given()
    ensures { GivenLaw }
{}

/// Wherever a run comes to an operation behind one that gives at once, the results of that one are what it
/// would give there.
pub fn results_are_current()
    ensures { CurrentLaw }
{}

/// The uses of a result of an operation may become uses of the same result of one that dominates it and does
/// the same.
pub fn leaders_replace_redundant_operations<D: Dialect>()
    ensures { LeaderLaw D.meaning D.side_effects }
{}

/// The uses of all results of an operation may become uses of those of its leader, and then nothing uses it.
pub fn redundant_operations_merge<D: Dialect>()
    ensures { MergingLaw D.meaning D.side_effects }
{}

/// Operations that give at once may be made and put into blocks, where what they use may be used.
pub fn operations_are_put()
    ensures { InsertingLaw }
{}

/// The uses of a result that is one of its operation's operands may become uses of the operand.
pub fn operands_replace_results()
    ensures { PassingLaw }
{}

/// The uses of a result may become uses of the same result of an operation that does the same, wherever the two
/// are, if that one dominates each of the uses.
pub fn alike_results_replace_one_another<D: Dialect>()
    ensures { AlikeLaw D.meaning D.side_effects }
{}
