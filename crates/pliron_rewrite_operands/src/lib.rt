//! What the dialect answers of results that are operands of their operations, or constants; that the uses of a result
//! may become uses of what is answered of it; and the whole rewrite that makes them uses of an operand.
//!
//! It knows the theory of runs, the laws of dialects and equivalence of operations, and no graph, no dialect and no
//! optimisation.
#![tactic(auto)]

ghost use Rattle.pliron_rewrite_operands.specs.AnswerLaws.{AnswerLaws};

pub mod answers;
mod folding;
pub mod rewrites;

pub use folding::HasOperandFolding;
use pliron_laws::Dialect;

/// The uses of a result may become uses of the operand, or of a new operation that makes the constant, that the
/// dialect answers the result to be by what is known of the operands.
pub fn answers_replace_results<D: Dialect>()
    ensures { AnswerLaws ⟦<D as HasOperandFolding>⟧.operand_folding }
{}
