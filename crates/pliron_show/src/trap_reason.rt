//! Why runs trap.
ghost use Rattle.pliron_core.specs.Tree.{IsLive};

use crate::shown::Runnable;
use pliron_core::{Context, Def, Operation, Ptr, Value};
use pliron_evaluator::evaluator::{Datum, NotedMove};
use pliron_laws::{Dialect, OptError};
use std::alloc::{AllocError, Global};

/// Why an operation traps.
#[derive(Clone, Copy, Debug, Drop, PartialEq, Eq)]
pub enum TrapReason {
    /// The operand at this index isn't defined yet.
    Undefined(usize),
    /// It divides by 0.
    DivisionByZero,
    /// The quotient doesn't fit in 64 bits.
    QuotientTooLarge,
    /// It divides, and one of these two holds.
    Division,
    /// It branches on what is no number.
    NoNumber,
    /// It is never to be reached.
    Unreachable,
    /// It branches to a block that takes another number of values than it passes.
    Count { passed: usize, taken: usize },
    Unknown,
}

impl TrapReason {
    /// What is written under the operation. Errors: allocation failure. Cost: constant.
    pub fn label(self, alloc: Global) -> Result<String, AllocError> {
        match self {
            TrapReason::Undefined(index) => {
                let number = index.saturating_add(1);
                format!(in alloc; "its operand {number} isn't defined yet")
            }
            TrapReason::DivisionByZero => format!(in alloc; "the divisor is 0"),
            TrapReason::QuotientTooLarge => {
                format!(in alloc; "the quotient doesn't fit in 64 bits")
            }
            TrapReason::Division => {
                format!(in alloc; "the divisor is 0, or the quotient doesn't fit in 64 bits")
            }
            TrapReason::NoNumber => format!(in alloc; "what it branches on is no number"),
            TrapReason::Unreachable => format!(in alloc; "no run is to come here"),
            TrapReason::Count { passed, taken } => {
                format!(in alloc; "it passes {passed}, and its block takes {taken}")
            }
            TrapReason::Unknown => format!(in alloc; "at this operation"),
        }
    }
}

// The moves before the last one.
fn earlier_moves(moves: &[NotedMove]) -> &[NotedMove] {
    moves.get(..moves.len().saturating_sub(1)).unwrap_or(moves)
}

// Whether the value was defined: its operation moved before the last move, or, for an argument, an operation of its
// block moved.
fn is_defined_by(ctx: &Context, moves: &[NotedMove], value: Value) -> bool {
    if !value.is_live(ctx) {
        return false;
    }
    match value.def(ctx) {
        Def::Result(definition, _) => {
            earlier_moves(moves)
                .iter()
                .any(|noted| noted.op == definition)
        }
        Def::Argument(block, _) => {
            moves.iter().any(|noted| noted.op.is_live(ctx)
                && noted.op.get_parent_block(ctx) == Some(block))
        }
    }
}

// The first operand that no move before the last one defined.
fn undefined_operand(ctx: &Context, op: Ptr<Operation>, moves: &[NotedMove]) -> TrapReason
    requires { IsLive ctx.now.tree op }
{
    for index in 0..op.num_operand(ctx) {
        if !is_defined_by(ctx, moves, op.get_operand(ctx, index)) {
            return TrapReason::Undefined(index);
        }
    }
    TrapReason::Unknown
}

/// The counts of the branch's edge at this index: the values that it passes, and those that its block takes. Asks that
/// the operation is live (`is_live` tests it). Errors: allocation failure. Cost: linear in the values.
pub fn edge_counts<D: Dialect>(
    alloc: Global,
    ctx: &Context,
    op: Ptr<Operation>,
    index: usize,
) -> Result<TrapReason, OptError>
    requires { IsLive ctx.now.tree op }
{
    if !D::is_branch(op, ctx) {
        return Ok(TrapReason::Unknown);
    }
    if index >= op.num_successor(ctx) {
        return Ok(TrapReason::Unknown);
    }
    let passed = D::successor_operands(alloc, op, ctx, index)?.len();
    let taken = op.get_successor(ctx, index).num_argument(ctx);
    Ok(TrapReason::Count { passed, taken })
}

// Why the operation that made the last of these moves, the first of which began the run, trapped. Errors: allocation
// failure. Cost: linear in the moves for each operand.
pub(crate) fn reason_of<N: Runnable>(
    alloc: Global,
    ctx: &Context,
    moves: &[NotedMove],
) -> Result<TrapReason, OptError> {
    let Some(last) = moves.last() else {
        return Ok(TrapReason::Unknown);
    };
    if !last.op.is_live(ctx) {
        return Ok(TrapReason::Unknown);
    }
    match &last.input {
        Some(input) => N::trap_reason(alloc, ctx, last.op, Some(input)),
        None => Ok(undefined_operand(ctx, last.op, moves)),
    }
}

// Why the operation traps, as far as it shows it. Errors: allocation failure. Cost: constant.
pub(crate) fn reason_by_kind<N: Runnable>(
    alloc: Global,
    ctx: &Context,
    op: Ptr<Operation>,
) -> Result<TrapReason, OptError> {
    if !op.is_live(ctx) {
        return Ok(TrapReason::Unknown);
    }
    N::trap_reason(alloc, ctx, op, None)
}
