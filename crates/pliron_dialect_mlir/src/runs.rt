//! What operations of MLIR do when they run that act by their own tables.
ghost use Rattle.std.specs.Prelude.{◌≡◌, map, IfOk};
ghost use Rattle.pliron_evaluator.specs.Evaluator.{datum_of_value, move_of};
ghost use Rattle.pliron_role_runs.specs.OwnMoves.{shape_of_counts};
ghost use Rattle.pliron_dialect_mlir.specs.Classes.{root_act, module_act};

use crate::kind::{Class, MlirKind};
use crate::meaning::Computes;
use crate::passing::given_otherwise;
use pliron_core::Head;
use pliron_evaluator::evaluator::{Datum, Move};
use pliron_role_runs::world_moves::{effect_move, fork_move, region_move};
use pliron_role_runs::{Counts, Interprets, all_copies, fitted_to};
use std::alloc::{AllocError, Global};

// A visit of the region of a function, and then a leave with what it gave.
fn root_move(
    alloc: Global,
    counts: &Counts,
    memo: &Datum,
    input: &[Datum],
) -> Result<Move, AllocError>
    ensures { IfOk result (λ next. move_of next ≡ root_act (shape_of_counts counts.now) (datum_of_value memo.now)
        (map datum_of_value input.now)) }
{
    match memo {
        Datum::Empty => {
            let values = fitted_to(alloc, counts.entry_argument(0), input)?;
            Ok(Move::Visit(0, values, Datum::Number(1)))
        }
        _ => Ok(Move::Leave(all_copies(alloc, input)?)),
    }
}

// As many results of nothing as a module has.
fn module_move(
    alloc: Global,
    counts: &Counts,
    memo: &Datum,
    input: &[Datum],
) -> Result<Move, AllocError>
    ensures { IfOk result (λ next. move_of next ≡ module_act (shape_of_counts counts.now) (datum_of_value memo.now)
        (map datum_of_value input.now)) }
{
    Ok(Move::Give(fitted_to(alloc, counts.results, &input[..0])?))
}

impl<I: Computes> Interprets for MlirKind<I> {
    fn interpret(
        alloc: Global,
        head: &Head,
        input: &[Datum],
    ) -> Result<Option<Vec<Datum>>, AllocError> {
        given_otherwise::<I>(alloc, head, input)
    }

    fn own_move(
        self,
        alloc: Global,
        head: &Head,
        counts: &Counts,
        memo: &Datum,
        input: &[Datum],
    ) -> Result<Move, AllocError> {
        match self.class {
            Class::Effect | Class::Local | Class::Call => {
                effect_move(alloc, head, counts, memo, input)
            }
            Class::Regions => region_move(alloc, head, counts, memo, input),
            Class::Fork => fork_move(alloc, head, counts, memo, input),
            Class::Root | Class::Function => root_move(alloc, counts, memo, input),
            Class::Module => module_move(alloc, counts, memo, input),
            _ => Ok(Move::Trap),
        }
    }
}
