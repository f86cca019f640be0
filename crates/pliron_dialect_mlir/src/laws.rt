//! What the dialect keeps under every interpretation, as calls that do nothing when they run.
ghost use Rattle.pliron_laws.specs.Folding.{FoldsMonotonely};

use crate::kind::{Interpretation, MlirKind};
use pliron_dialect::ByRoles;
use pliron_laws::{BranchOpFoldInterface, ConstFoldInterface, HasMeaning};

/// Knowing more operands keeps each constant that folding answers, and adds no block that a branch may go to: so the
/// facts that sparse constant propagation finds are the most precise ones. Cost: constant.
pub fn folds_are_monotone<I: Interpretation>()
    ensures { FoldsMonotonely ⟦<ByRoles<MlirKind<I>> as HasMeaning>⟧.meaning
        ⟦<ByRoles<MlirKind<I>> as ConstFoldInterface>⟧.can_fold
        ⟦<ByRoles<MlirKind<I>> as BranchOpFoldInterface>⟧.can_fold_branch
        ⟦<ByRoles<MlirKind<I>> as ConstFoldInterface>⟧.constants
        ⟦<ByRoles<MlirKind<I>> as BranchOpFoldInterface>⟧.feasible }
{
    pliron_dialect::laws::folds_are_monotone::<MlirKind<I>>()
}
