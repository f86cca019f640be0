//! Operands in a row, and successors.
ghost use Rattle.std.specs.Prelude.{◌≡◌, ℕ, ◌+◌, ◌<◌, ◌≤◌, map, length, IfOk, IfSome, Some, slice_get};
ghost use Rattle.std.specs.List.{range_with_len};
ghost use Rattle.std.specs.Option.{option_map};
ghost use Rattle.pliron_core.specs.Tree.{IsLive, operands_of, successors_of};
ghost use Rattle.pliron_laws.specs.Acting.{pick};
ghost use Rattle.pliron_dialect.specs.Counts.{only_successor as only_successor_of};

use pliron_core::{BasicBlock, Context, Operation, Ptr, Value};
use std::alloc::{AllocFailed, Global};

/// Places in a row: the first one, and how many there are.
#[derive(Clone, Copy)]
pub struct EdgeRange {
    pub first: usize,
    pub count: usize,
}

/// The operands at these places. Asks that the operation is live and has operands at them, and that the place
/// after the last is a `usize`. Errors: allocation failure. Cost: the number of places.
pub fn operands_at(
    alloc: Global,
    op: Ptr<Operation>,
    ctx: &Context,
    places: EdgeRange,
) -> Result<Vec<Value>, AllocFailed<Value>>
    requires live { IsLive ctx.now.tree op }
    requires within { (j : ℕ) → j < places.count → places.first + j < length (operands_of ctx.now.tree op) }
    requires fits { places.first + places.count ≤ 18446744073709551615 }
    ensures { IfOk result (λ values. map Some values.items ≡ pick (range_with_len places.first places.count)
        (operands_of ctx.now.tree op)) }
{
    let mut values = Vec::new(alloc);
    for j in 0..places.count {
        values.push(op.get_operand(ctx, places.first + j))?;
    }
    Ok(values)
}

/// The operand at place `j` of these, if there are so many. Asks that the operation is live and has operands
/// at them, and that the place after the last is a `usize`. Cost: constant.
pub fn operand_among(
    op: Ptr<Operation>,
    ctx: &Context,
    places: EdgeRange,
    j: usize,
) -> Option<Value>
    requires live { IsLive ctx.now.tree op }
    requires within { (k : ℕ) → k < places.count → places.first + k < length (operands_of ctx.now.tree op) }
    requires fits { places.first + places.count ≤ 18446744073709551615 }
    ensures { option_map Some result ≡ slice_get (pick (range_with_len places.first places.count)
        (operands_of ctx.now.tree op)) j }
{
    if j < places.count {
        Some(op.get_operand(ctx, places.first + j))
    } else {
        None
    }
}

/// Which of these places in a row this one is, if it is one. Cost: constant.
pub fn place_among(places: EdgeRange, place: usize) -> Option<usize>
    ensures { IfSome result (λ j. (place ≡ places.first + j) × (j < places.count)) }
{
    if place < places.first {
        return None;
    }
    let index = place - places.first;
    if index < places.count {
        Some(index)
    } else {
        None
    }
}

/// The successors, in order. Asks that the operation is live (`is_live` tests it). Errors: allocation failure.
/// Cost: the number of successors.
pub fn all_successors(
    alloc: Global,
    op: Ptr<Operation>,
    ctx: &Context,
) -> Result<Vec<Ptr<BasicBlock>>, AllocFailed<Ptr<BasicBlock>>>
    requires { IsLive ctx.now.tree op }
    ensures { IfOk result (λ blocks. blocks.items ≡ successors_of ctx.now.tree op) }
{
    let mut blocks = Vec::new(alloc);
    for j in 0..op.num_successor(ctx) {
        blocks.push(op.get_successor(ctx, j))?;
    }
    Ok(blocks)
}

/// The successor at this index alone, if there is one. Asks that the operation is live (`is_live` tests it).
/// Errors: allocation failure. Cost: constant.
pub fn only_successor(
    alloc: Global,
    op: Ptr<Operation>,
    ctx: &Context,
    i: usize,
) -> Result<Vec<Ptr<BasicBlock>>, AllocFailed<Ptr<BasicBlock>>>
    requires { IsLive ctx.now.tree op }
    ensures { IfOk result (λ blocks. blocks.items ≡ only_successor_of (slice_get (successors_of ctx.now.tree op) i)) }
{
    let mut blocks = Vec::new(alloc);
    if i < op.num_successor(ctx) {
        blocks.push(op.get_successor(ctx, i))?;
    }
    Ok(blocks)
}
