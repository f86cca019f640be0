//! What the kinds do when they run that act by their own tables.
ghost use Rattle.std.specs.Prelude.{◌≡◌, map, drop, IfOk};
ghost use Rattle.pliron_dialect.specs.Roles.{is_zero};
ghost use Rattle.pliron_evaluator.specs.Evaluator.{datum_of_value, move_of};
ghost use Rattle.pliron_role_runs.specs.Numbers.{condition_of};
ghost use Rattle.pliron_role_runs.specs.OwnMoves.{shape_of_counts};
ghost use Rattle.pliron_dialect_arithmetic.specs.Arithmetic.{if_act, while_act, again_unless};

use crate::kind::ArithmeticKind;
use pliron_core::Head;
use pliron_evaluator::evaluator::{Datum, Move};
use pliron_role_runs::own_moves::{
    behind_first, choice_by_input, give, is_over, visit, visit_and_leave,
};
use pliron_role_runs::{Counts, Interprets};
use std::alloc::{AllocError, Global};

// A choice between two regions.
fn if_move(
    alloc: Global,
    counts: &Counts,
    memo: &Datum,
    input: &[Datum],
) -> Result<Move, AllocError>
    ensures { IfOk result (λ next. move_of next ≡ if_act (shape_of_counts counts.now)
        (datum_of_value memo.now) (map datum_of_value input.now)) }
{
    let region = choice_by_input(input);
    let rest = behind_first(input);
    match memo {
        Datum::Empty => visit(alloc, counts, region, rest),
        _ => give(alloc, counts, input),
    }
}

// The region once more, unless the first value says that it is over.
fn again_move(alloc: Global, counts: &Counts, input: &[Datum]) -> Result<Move, AllocError>
    ensures { IfOk result (λ next. move_of next ≡ again_unless (is_zero (condition_of (map datum_of_value input.now)))
        (shape_of_counts counts.now) (drop 1 (map datum_of_value input.now))) }
{
    let rest = behind_first(input);
    if is_over(input) {
        give(alloc, counts, rest)
    } else {
        visit(alloc, counts, 0, rest)
    }
}

// A region again and again.
fn while_move(
    alloc: Global,
    counts: &Counts,
    memo: &Datum,
    input: &[Datum],
) -> Result<Move, AllocError>
    ensures { IfOk result (λ next. move_of next ≡ while_act (shape_of_counts counts.now)
        (datum_of_value memo.now) (map datum_of_value input.now)) }
{
    match memo {
        Datum::Empty => visit(alloc, counts, 0, input),
        _ => again_move(alloc, counts, input),
    }
}

impl Interprets for ArithmeticKind {
    fn interpret(
        alloc: Global,
        _head: &Head,
        _input: &[Datum],
    ) -> Result<Option<Vec<Datum>>, AllocError> {
        Ok(Some(Vec::new(alloc)))
    }

    fn own_move(
        self,
        alloc: Global,
        _head: &Head,
        counts: &Counts,
        memo: &Datum,
        input: &[Datum],
    ) -> Result<Move, AllocError> {
        match self {
            ArithmeticKind::Function => visit_and_leave(alloc, counts, 0, memo, input),
            ArithmeticKind::If => if_move(alloc, counts, memo, input),
            ArithmeticKind::While => while_move(alloc, counts, memo, input),
            _ => Ok(Move::Trap),
        }
    }
}
