//! Rewrite rules: what an equation on the data of pure operations says of values, that the uses of one value may then
//! become uses of the other, and that what a rule builds may be put just before the operation that it rewrites.
//!
//! As in the theory of runs, a call with no body is a law: its contract holds for every dialect.
//!
//! The operations of a pattern may have other users, and stand in other blocks or in a region around. Loops need no case
//! of their own: where a run reads the result, each of them still says what it gives on the data that its operands have.
//!
//! Authors state rules as clauses of a table from views (what a rule sees of an operation, two operations deep) to terms.
//! The author writes the clause in `specs/`, the same `match` in Rust, and proves that the term has the datum of the view,
//! for all data of the values in it. Trees, dominance and runs stay out of sight: here it is proved once that such a term
//! may have the uses of the result.
//!
//! A set of rules is applied to an operation by a whole rewrite: the term of a rule is put just before it, and has the uses
//! of its result. It is done wholly or not at all, whatever memory is refused, and keeps runs.
#![tactic(auto)]

ghost use Rattle.pliron_rewrite_rules.specs.Equations.{EquationLaw};
ghost use Rattle.pliron_rewrite_rules.specs.Replacements.{LeafLaw, ResultBeforeLaw};
ghost use Rattle.pliron_rewrite_rules.specs.Insertions.{InsertedLaws};
ghost use Rattle.pliron_rewrite_rules.specs.Rewriting.{TermLaws};

mod application;
pub mod rewrites;
mod rules;
pub mod seeing;
mod tables;
mod term;
mod terms;
mod view;

pub use application::{apply_rules, apply_term, ask_rules};
use pliron_laws::Dialect;
pub use rules::Rules;
pub use tables::HasRuleTables;
pub use term::{Atom, Atoms, Term};
pub use view::{Leaf, Leaves, Operand, Operands, View};

/// The uses of a value may become uses of another one, if an equation holds for all data that the operations of a
/// pattern may have, and the other one may be used there.
pub fn equal_values_replace_one_another<D: Dialect>()
    ensures { EquationLaw D.meaning D.side_effects }
{}

/// The same, where the new value is a leaf of the old one's pattern: it may be used wherever the old one is.
pub fn leaves_replace_results<D: Dialect>()
    ensures { LeafLaw D.meaning D.side_effects }
{}

/// The same, where the new value is a result of what is before the operation that makes the old one, in its block.
pub fn results_before_replace_results<D: Dialect>()
    ensures { ResultBeforeLaw D.meaning D.side_effects }
{}

/// An operation that gives at once may be put just before another one, where its operands are leaves of the pattern of
/// that one's result, or made before it in its block.
pub fn operations_are_inserted<D: Dialect>()
    ensures { InsertedLaws D.meaning }
{}

/// A term that has the datum of a view may have the uses of the result of each operation that is seen so.
pub fn terms_replace_results<D: Dialect>()
    ensures { TermLaws ⟦<D as HasRuleTables>⟧.rule_tables }
{}
