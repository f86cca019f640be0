//! Arguments of blocks that are one value: when an argument may be replaced by what the edges to its block forward,
//! and the whole rewrite that does so.
//!
//! As in the theory of runs, a call of this file does nothing when it runs: its contract is a law, for every
//! dialect that keeps the laws which it names.
//!
//! It knows the theory of runs and the laws of dialects, and no graph, no dialect and no optimisation.
#![tactic(auto)]

pub mod finding;
pub mod rewrites;

ghost use Rattle.pliron_rewrite_arguments.specs.ArgumentLaws.{OneValueLaw, OneValueChanges, OneValueStays};

use pliron_laws::Dialect;

/// The uses of an argument of a block may become uses of a value, where each edge to the block forwards that value or
/// the argument itself (a trivial φ function: Braun and others, Simple and Efficient Construction of Static Single
/// Assignment Form, section 2.2). That the value dominates the block needn't be asked: in a root that is fit to run
/// it follows.
pub fn one_value_replaces_argument<D: Dialect>()
    ensures { OneValueLaw D.meaning }
{}

/// This is a change that a pass may make to an operation around the block, and links and edges stay.
pub fn one_value_changes_inside<D: Dialect>()
    ensures { OneValueChanges D.meaning }
{}

/// Where the uses of a value become uses of another one, which arguments are one value stays as it was, but in blocks
/// to which an operation leads that used the value.
pub fn one_value_stays()
    ensures { OneValueStays }
{}
