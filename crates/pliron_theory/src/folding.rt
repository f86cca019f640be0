//! What a dialect says of folding, under one name.
ghost use Rattle.pliron_theory.specs.LatticeValues.{Says};

use pliron_laws::Dialect;

/// What lattice values depend on in a dialect: its meaning, which heads fold by constants and as branches, what
/// folding these answers, and which operands are named for the arguments of entries. Each dialect has it;
/// contracts alone speak of it.
pub trait HasFolding {
    ghost folding: { Says };
}

impl<D: Dialect> HasFolding for D {
    ghost folding = { record {
      meaning = D.meaning;
      can_fold = D.can_fold;
      can_fold_branch = D.can_fold_branch;
      constants = D.constants;
      feasible = D.feasible;
      entry_operands = D.entry_operands;
    } };
}
