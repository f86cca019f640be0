//! The theory of loops: arguments that are added to blocks, and the uses that they take over, as where a loop's header is
//! copied and what it defines is used behind it.
//!
//! As in the theory of runs, a call of this file does nothing when it runs: its contract is a law, for every dialect that
//! keeps the laws which it names.
//!
//! It knows the theories of runs, of copies and of arguments that are one value, and what a dialect says of a branch that
//! forwards one value more. It knows no graph and no optimisation.
#![tactic(auto)]

ghost use Rattle.pliron_laws.specs.Datum.{Head};
ghost use Rattle.std.specs.Prelude.{Bool};
ghost use Rattle.pliron_theory.specs.Keeps.{with_roots};
ghost use Rattle.pliron_rewrite_loops.specs.OneMore.{ForwardedLaw};
ghost use Rattle.pliron_rewrite_loops.specs.Lengthening.{LengtheningLaw};
ghost use Rattle.pliron_rewrite_loops.specs.Pushing.{PushingLaw};
ghost use Rattle.pliron_rewrite_loops.specs.Closing.{ClosingLaw};

mod adding;
mod closing;
mod passing;

pub use adding::add_argument;
pub use closing::{Gate, close_header};
pub use passing::{pass_value, pass_values};
use pliron_laws::Dialect;
use pliron_rewrite_arguments::one_value_replaces_argument;

/// A block may get one more argument, where each edge to it forwards one more value and nothing uses the argument yet.
/// Runs are kept from the tree before to the tree after, and from the tree after to the tree before, whatever heads may
/// be those of roots.
pub fn forwarded_arguments_are_added<D: Dialect>()
    ensures { (chosen : Head → Bool) → ForwardedLaw (with_roots D.meaning chosen) D.shortened }
{}

/// Edges that forward one value more, as the dialect's own answer says, lose it again: so edges that were lengthened one
/// after the other are what the law on added arguments asks for.
pub fn edges_are_lengthened<D: Dialect>()
    ensures { LengtheningLaw D.meaning D.shortened }
{}

/// Uses of a value may become uses of an argument to which each edge forwards it, where the users may name that: so a
/// value that was passed along all edges to a block may be used in the place of itself behind. Runs are kept from the
/// tree before to the tree after, and from the tree after to the tree before, whatever heads may be those of roots.
/// Cost: constant, as of each law.
pub fn arguments_are_pushed<D: Dialect>()
    ensures { PushingLaw D.meaning }
{
    one_value_replaces_argument::<D>()
}

/// Values of a block that is left along two edges, as a loop's header, are used by operations of that block alone once
/// `pass_values` passed them along both, where each of their uses was there, or was behind one of the two and passed.
/// Cost: constant, as of each law.
pub fn passed_values_are_closed<D: Dialect>()
    ensures { ClosingLaw D.meaning }
{}
