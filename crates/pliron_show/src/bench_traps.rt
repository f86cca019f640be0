//! Why operations of `Bench` trap.
ghost use Rattle.pliron_core.specs.Tree.{IsLive};

use crate::trap_reason::{TrapReason, edge_counts};
use pliron_core::{Context, Operation, Ptr};
use pliron_dialect_bench::{Bench, BenchKind};
use pliron_evaluator::evaluator::Datum;
use pliron_laws::OptError;
use std::alloc::Global;

// The number that the datum at this index is.
fn number_at(input: &[Datum], index: usize) -> Option<i128> {
    match input.get(index)? {
        Datum::Number(number) => Some(*number),
        _ => None,
    }
}

// Why the division of these data traps.
fn division_reason(input: &[Datum]) -> TrapReason {
    match number_at(input, 1) {
        Some(0) => TrapReason::DivisionByZero,
        Some(_) => TrapReason::QuotientTooLarge,
        None => TrapReason::Division,
    }
}

// Why the operation that took this input traps. Errors: allocation failure.
pub(crate) fn reason_by_input(
    alloc: Global,
    ctx: &Context,
    op: Ptr<Operation>,
    input: &[Datum],
) -> Result<TrapReason, OptError>
    requires { IsLive ctx.now.tree op }
{
    match BenchKind::from_number(op.head(ctx).kind) {
        Some(BenchKind::Div) => Ok(division_reason(input)),
        Some(BenchKind::Br) => edge_counts::<Bench>(alloc, ctx, op, 0),
        Some(BenchKind::Cbr) => match number_at(input, 0) {
            Some(0) => edge_counts::<Bench>(alloc, ctx, op, 1),
            _ => edge_counts::<Bench>(alloc, ctx, op, 0),
        },
        _ => Ok(TrapReason::Unknown),
    }
}

// Why the operation may trap, whatever it takes.
pub(crate) fn reason_without_input(op: Ptr<Operation>, ctx: &Context) -> TrapReason
    requires { IsLive ctx.now.tree op }
{
    match BenchKind::from_number(op.head(ctx).kind) {
        Some(BenchKind::Div) => TrapReason::Division,
        _ => TrapReason::Unknown,
    }
}
