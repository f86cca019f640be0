//! What canonicalization asks of a dialect, under one name.
ghost use Rattle.pliron_rewrite_operands.specs.Answers.{Folding};

use pliron_laws::Dialect;

/// What folding depends on in a dialect: its meaning, which heads have side effects, which fold by constants and what
/// is answered then, which constants it makes, and what it answers of results that are operands. Each such dialect has
/// it; contracts alone speak of it.
pub trait HasOperandFolding {
    ghost operand_folding: { Folding };
}

impl<D: Dialect> HasOperandFolding for D {
    ghost operand_folding = { record {
      meaning = D.meaning;
      side_effects = D.side_effects;
      can_fold = D.can_fold;
      constants = D.constants;
      accepts = D.accepts;
      constant_head = D.constant_head;
      operand_folds = D.operand_folds;
    } };
}
