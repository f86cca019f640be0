//! The moves of the tiny dialect.
ghost use Rattle.std.specs.Prelude.{◌≡◌, map, drop, IfOk};
ghost use Rattle.pliron_core.specs.Tree.{IsLive, regions_of};
ghost use Rattle.pliron_laws.specs.Tree.{entry_block, count_arguments};
ghost use Rattle.pliron_laws.specs.Datum.{datum_of as content_of};
ghost use Rattle.pliron_laws.specs.Answers.{ReadsHead};
ghost use Rattle.pliron_evaluator.specs.Tiny.{first_attribute, fitted_or_empty, memo_when_begun, has_begun, kept_between, ask_move, scope_move, visit_with, both_move, twice_move};
ghost use Rattle.pliron_evaluator.specs.Evaluator.{datum_of_value, move_of};
ghost use Rattle.pliron_dialect.specs.Roles.{first_datum};

use crate::evaluator::shapes::num_entry_argument;
use crate::evaluator::values::{Datum, Evaluate, Move, all_copies, one};
use crate::tiny::{Tiny, TinyKind};
use pliron_core::{Context, Operation, Ptr};
use std::alloc::{AllocError, Global};

// The datum of the first attribute, by default 0.
fn constant(alloc: Global, ctx: &Context, op: Ptr<Operation>) -> Result<Datum, AllocError>
    requires { IsLive ctx.now.tree op }
    ensures { IfOk result (λ datum. ReadsHead (λ h. content_of (first_attribute h.attrs)) ctx.now.tree op
        (datum_of_value datum)) }
{
    let attrs = &op.head(ctx).attrs;
    if attrs.is_empty() {
        Ok(Datum::Number(0))
    } else {
        Datum::of(alloc, attrs.get(0))
    }
}

// The datum at this index, if there is one.
fn datum_or_empty(alloc: Global, input: &[Datum], i: usize) -> Result<Datum, AllocError>
    ensures { IfOk result (λ datum. datum_of_value datum ≡ first_datum (map datum_of_value (drop i input.now))) }
{
    if i < input.len() {
        input[i].copy(alloc)
    } else {
        Ok(Datum::Empty)
    }
}

/// So many data, cut or filled with nothing. Errors: allocation failure. Cost: that of copies.
pub(super) fn fit_data(
    alloc: Global,
    count: usize,
    input: &[Datum],
) -> Result<Vec<Datum>, AllocError>
    ensures { IfOk result (λ values. map datum_of_value values.items ≡ fitted_or_empty count
        (map datum_of_value input.now)) }
{
    let mut data = Vec::new(alloc);
    for i in 0..count {
        data.push(datum_or_empty(alloc, input, i)?)?;
    }
    Ok(data)
}

// Whether the operation made its first move already.
fn has_begun(memo: &Datum) -> bool
    ensures { result ≡ has_begun (datum_of_value memo.now) }
{
    match memo {
        Datum::Empty => false,
        _ => true,
    }
}

// The memo after the first move.
fn memo_when_begun() -> Datum
    ensures { datum_of_value result ≡ memo_when_begun }
{
    Datum::Number(1)
}

fn ask_move(alloc: Global, memo: &Datum, input: &[Datum]) -> Result<Move, AllocError>
    ensures { IfOk result (λ next. move_of next ≡ ask_move (has_begun (datum_of_value memo.now))
        (map datum_of_value input.now)) }
{
    let datum = datum_or_empty(alloc, input, 0)?;
    if has_begun(memo) {
        Ok(Move::Give(one(alloc, datum)?))
    } else {
        Ok(Move::Emit(datum, memo_when_begun()))
    }
}

fn scope_move(
    alloc: Global,
    memo: &Datum,
    count: usize,
    input: &[Datum],
) -> Result<Move, AllocError>
    ensures { IfOk result (λ next. move_of next ≡ scope_move (has_begun (datum_of_value memo.now)) count
        (map datum_of_value input.now)) }
{
    if has_begun(memo) {
        Ok(Move::Give(Vec::new(alloc)))
    } else {
        Ok(Move::Visit(0, fit_data(alloc, count, input)?, memo_when_begun()))
    }
}

// The memo between two visits.
fn between(alloc: Global, kept: Datum) -> Result<Datum, AllocError>
    ensures { IfOk result (λ memo. datum_of_value memo ≡ kept_between (datum_of_value kept)) }
{
    Datum::join(alloc, kept, Datum::Empty)
}

// The region is visited with this datum for the first argument of its entry.
fn visit_with(
    alloc: Global,
    ctx: &Context,
    op: Ptr<Operation>,
    region: usize,
    datum: Datum,
    memo: Datum,
) -> Result<Move, AllocError>
    requires { IsLive ctx.now.tree op }
    ensures { IfOk result (λ next. move_of next ≡ visit_with (map (λ r. count_arguments (entry_block ctx.now.tree r))
        (regions_of ctx.now.tree op)) region (datum_of_value datum) (datum_of_value memo)) }
{
    let count = num_entry_argument(ctx, op, region);
    let passed = one(alloc, datum)?;
    Ok(Move::Visit(region, fit_data(alloc, count, &passed)?, memo))
}

fn both_move(
    alloc: Global,
    ctx: &Context,
    op: Ptr<Operation>,
    memo: &Datum,
    input: &[Datum],
) -> Result<Move, AllocError>
    requires { IsLive ctx.now.tree op }
    ensures { IfOk result (λ next. move_of next ≡ both_move (datum_of_value memo.now)
        (map (λ r. count_arguments (entry_block ctx.now.tree r)) (regions_of ctx.now.tree op))
        (map datum_of_value input.now)) }
{
    match memo {
        Datum::Empty => {
            let second = datum_or_empty(alloc, input, 1)?;
            visit_with(alloc, ctx, op, 0, second, between(alloc, Datum::Empty)?)
        }
        Datum::Join(_, _) => visit_with(alloc, ctx, op, 1, Datum::Empty, memo_when_begun()),
        _ => Ok(Move::Give(Vec::new(alloc))),
    }
}

fn twice_move(
    alloc: Global,
    ctx: &Context,
    op: Ptr<Operation>,
    memo: &Datum,
    input: &[Datum],
) -> Result<Move, AllocError>
    requires { IsLive ctx.now.tree op }
    ensures { IfOk result (λ next. move_of next ≡ twice_move (datum_of_value memo.now)
        (map (λ r. count_arguments (entry_block ctx.now.tree r)) (regions_of ctx.now.tree op))
        (map datum_of_value input.now)) }
{
    match memo {
        Datum::Empty => {
            let first = datum_or_empty(alloc, input, 0)?;
            let kept = between(alloc, first.copy(alloc)?)?;
            visit_with(alloc, ctx, op, 0, first, kept)
        }
        Datum::Join(kept, _) => visit_with(alloc, ctx, op, 0, kept.copy(alloc)?, memo_when_begun()),
        _ => Ok(Move::Give(Vec::new(alloc))),
    }
}

impl Evaluate for Tiny {
    fn next_move(
        alloc: Global,
        ctx: &Context,
        op: Ptr<Operation>,
        memo: &Datum,
        input: &[Datum],
    ) -> Result<Move, AllocError> {
        match TinyKind::of(op.head(ctx).kind) {
            Some(TinyKind::Const) => Ok(Move::Give(one(alloc, constant(alloc, ctx, op)?)?)),
            Some(TinyKind::Ask) => ask_move(alloc, memo, input),
            Some(TinyKind::Scope) => scope_move(alloc, memo, num_entry_argument(ctx, op, 0), input),
            Some(TinyKind::Br) => Ok(Move::Goto(0, all_copies(alloc, input)?)),
            Some(TinyKind::Both) => both_move(alloc, ctx, op, memo, input),
            Some(TinyKind::Twice) => twice_move(alloc, ctx, op, memo, input),
            None => Ok(Move::Trap),
        }
    }
}
