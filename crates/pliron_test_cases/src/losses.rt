//! Branches that lose a value which they forward.
use crate::{Dialect, OptError, lose_forwarded};
use pliron_core::{BasicBlock, Context, Operation, Ptr, Value};
use std::alloc::Global;

/// Removes the value at place j that the branch forwards along edge i, and answers it; none where it forwards
/// no such value. Errors: allocation failure, which changes nothing. Cost: linear in the values that the branch
/// forwards, and the dialect's removal.
pub fn lose<D: Dialect>(
    alloc: Global,
    ctx: &mut Context,
    op: Ptr<Operation>,
    i: usize,
    j: usize,
) -> Result<Option<Value>, OptError> {
    if !op.is_live(ctx) || !D::is_branch(op, ctx) || i >= op.num_successor(ctx) {
        return Ok(None);
    }
    let values = D::successor_operands(alloc, op, ctx, i)?;
    if j >= values.len() {
        return Ok(None);
    }
    let value = D::remove_successor_operand(op, ctx, i, j);
    Ok(Some(value))
}

/// The only edge to the operation's first successor, which is the answer, loses the operand that it forwards
/// at place j, if it has one; none where there is no such edge. Errors: allocation failure, which changes
/// nothing. Cost: linear in the values that the edge forwards, and the dialect's removal.
pub fn lose_along<D: Dialect>(
    alloc: Global,
    ctx: &mut Context,
    op: Ptr<Operation>,
    j: usize,
) -> Result<Option<Ptr<BasicBlock>>, OptError> {
    if !op.is_live(ctx) || op.num_successor(ctx) == 0 {
        return Ok(None);
    }
    let block = op.get_successor(ctx, 0);
    if !block.is_live(ctx) || block.num_use(ctx) != 1 {
        return Ok(None);
    }
    let (op, edge) = block.get_use(ctx, 0);
    if !D::admits(op, ctx) || !D::is_branch(op, ctx) || edge >= op.num_successor(ctx) {
        return Ok(None);
    }
    let values = D::successor_operands(alloc, op, ctx, edge)?;
    lose_forwarded::<D>(ctx, block, j, &[j < values.len()]);
    Ok(Some(block))
}
