//! What a dialect of roles keeps beyond the laws of all dialects, as calls that do nothing when they run.
ghost use Rattle.pliron_laws.specs.Folding.{FoldsMonotonely};
ghost use Rattle.pliron_dialect.specs.Roles.{role_at, allows_at, meaning_by, folds_by, branch_folds_by, constants_by, feasible_by};

use crate::roles::Roles;

/// Knowing more operands keeps each constant that folding answers, and adds no block that a branch may go to: so the
/// facts that sparse constant propagation finds are the most precise ones. Cost: constant.
pub fn folds_are_monotone<K: Roles>()
    ensures { FoldsMonotonely (meaning_by K.tables.value (role_at K.tables) (allows_at K.tables))
        (folds_by (role_at K.tables)) (branch_folds_by (role_at K.tables)) (constants_by (role_at K.tables))
        (feasible_by (role_at K.tables)) }
{}
