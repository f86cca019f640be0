//! What the runs of a dialect take beside its tables.
ghost use Rattle.std.specs.Prelude.{◌≡◌, map, IfOk, IfSome};
ghost use Rattle.pliron_evaluator.specs.Evaluator.{datum_of_value, move_of};
ghost use Rattle.pliron_role_runs.specs.RoleRuns.{shape_by, own_act};

use crate::counts::Counts;
use pliron_core::Head;
use pliron_dialect::Roles;
use pliron_evaluator::evaluator::{Datum, Move};
use std::alloc::{AllocError, Global};

/// Kinds whose operations can be run: `ByRoles` of them implements `Evaluate`.
pub trait Interprets: Roles {
    /// What an operation with this head gives of these data, where no table says it; `None` where that isn't known.
    /// Errors: allocation failure.
    fn interpret(
        alloc: Global,
        head: &Head,
        input: &[Datum],
    ) -> Result<Option<Vec<Datum>>, AllocError>
        ensures { IfOk result (λ found. IfSome found (λ values. map datum_of_value values.items ≡ Self.tables.value
            head.now (map datum_of_value input.now))) };

    /// The move of an operation of a kind that acts by its own table, with this head, these counts and this memo, on
    /// this input; `Trap` for another kind. Errors: allocation failure.
    fn own_move(
        self,
        alloc: Global,
        head: &Head,
        counts: &Counts,
        memo: &Datum,
        input: &[Datum],
    ) -> Result<Move, AllocError>
        ensures { IfOk result (λ next. move_of next ≡ own_act (Self.tables.role_of self) (shape_by head.now counts.now)
            (datum_of_value memo.now) (map datum_of_value input.now)) };
}
