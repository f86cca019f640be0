//! Whole rewrites: one dead operation or argument is erased.
ghost use Rattle.std.specs.Prelude.{◌≡◌, ◌⊎◌, ◌↔◌, ◌<◌, ◌≤◌, length, ℕ, Some, IfOk, OnOk, OnErr, IsTrue, slice_get, IsOkUnless};
ghost use Rattle.pliron_core.specs.Tree.{In, IsDefined, IsLive, IsBlock, operands_of, arguments_of, regions_of};
ghost use Rattle.pliron_core.specs.Erased.{after_erasing};
ghost use Rattle.pliron_laws.specs.Linked.{IsWellLinked};
ghost use Rattle.pliron_theory.specs.Dropping.{AreEdgesTo, AreOfBranches, EdgesLose};
ghost use Rattle.pliron_opt_dce.specs.Dead.{Item};
ghost use Rattle.pliron_opt_dce.specs.Erasing.{Removes};
ghost use Rattle.pliron_opt_dce.specs.Incoming.{edges_of, AreIncoming, AreForwardedTo, HavePlaces};
ghost use Rattle.pliron_opt_dce.specs.Readiness.{IsReadyOperation, IsReadyArgument, AreRecorded, AreOperandsWithin, AddsOperands};

use crate::incoming::IncomingEdge;
use pliron_core::{BasicBlock, Context, IRRewriter, Operation, Ptr, Rewriter, Value};
use pliron_laws::{Dialect, OptError};
use std::alloc::{AllocError, Global};

// The value is appended to the list, unless it is the last one there.
#[inline(always)]
fn push_unless_last(values: &mut Vec<Value>, value: Value) -> Result<(), AllocError>
    ensures kept { OnOk result ((v : ℕ) → In v values.old.items → In v values.new.items) }
    ensures there { OnOk result (In value values.new.items) }
    ensures only { OnOk result ((v : ℕ) → In v values.new.items → In v values.old.items ⊎ (v ≡ value)) }
{
    if let Some(last) = values.last() {
        if *last == value {
            return Ok(());
        }
    }
    values.push(value)?;
    Ok(())
}

// The operands of this operation are appended to the list, equal ones side by side once.
#[inline(always)]
fn push_operands(
    values: &mut Vec<Value>,
    op: Ptr<Operation>,
    ctx: &Context,
) -> Result<(), AllocError>
    requires { IsLive ctx.now.tree op }
    ensures adds { OnOk result (AddsOperands ctx.now.tree op values.old.items values.new.items) }
    ensures only { OnOk result ((v : ℕ) → In v values.new.items → In v values.old.items ⊎ In v
        (operands_of ctx.now.tree op)) }
{
    for i in 0..op.num_operand(ctx) {
        push_unless_last(values, op.get_operand(ctx, i))?;
    }
    Ok(())
}

// The operands of the operation and of all operations inside it are appended to the list.
fn push_operands_within(
    values: &mut Vec<Value>,
    op: Ptr<Operation>,
    ctx: &Context,
) -> Result<(), AllocError>
    requires { IsLive ctx.now.tree op }
    ensures { OnOk result (AreOperandsWithin ctx.now.tree op values.new.items) }
{
    ctx.well_formed();
    let mut at = Some(op);
    while let Some(inner) = at {
        push_operands(values, inner, ctx)?;
        at = inner.next_in_preorder(op, ctx);
    }
    Ok(())
}

// The operands of the operation and of all operations inside it are listed, and nothing else is.
#[inline(always)]
fn list_operands_within(
    values: &mut Vec<Value>,
    op: Ptr<Operation>,
    ctx: &Context,
) -> Result<(), AllocError>
    requires { IsLive ctx.now.tree op }
    ensures all { OnOk result (AreOperandsWithin ctx.now.tree op values.new.items) }
    ensures leaf { OnOk result (length (regions_of ctx.now.tree op) ≡ 0 → (v : ℕ) → In v values.new.items → In v
        (operands_of ctx.now.tree op)) }
{
    ctx.well_formed();
    values.clear();
    if op.num_region(ctx) == 0 {
        push_operands(values, op, ctx)
    } else {
        push_operands_within(values, op, ctx)
    }
}

// A ready operation is erased with its contents. Lists the values that it and its contents used: of one without
// regions all are live.
#[inline(always)]
pub(crate) fn erase_dead_operation<D: Dialect>(
    used: &mut Vec<Value>,
    op: Ptr<Operation>,
    root: Ptr<Operation>,
    ctx: &mut Context,
) -> Result<(), OptError>
    requires linked { IsWellLinked D.meaning ctx.old.tree root }
    requires ready { IsReadyOperation D.meaning D.side_effects ctx.old.tree root op }
    ensures deleted { OnOk result (ctx.new.tree ≡ after_erasing ctx.old.tree op) }
    ensures noted { OnOk result (AreRecorded ctx.old.tree ctx.new.tree used.new.items) }
    ensures live { OnOk result (length (regions_of ctx.old.tree op) ≡ 0 → (v : ℕ) → In v used.new.items → IsDefined
        ctx.new.tree v) }
    ensures refused { OnErr result (ctx.new ≡ ctx.old) }
    ensures memory { IsOkUnless result OptError.Memory }
{
    ctx.well_formed();
    list_operands_within(used, op, ctx)?;
    IRRewriter::new().erase_operation(ctx, op);
    ctx.well_formed();
    Ok(())
}

// The operands that edges forward to the argument with this index. Of edges in the order of how much they
// forward, the first ones do.
fn operands_to<D: Dialect>(
    alloc: Global,
    block: Ptr<BasicBlock>,
    index: usize,
    edges: &[IncomingEdge],
    ctx: &Context,
) -> Result<Vec<Value>, OptError>
    requires edges { AreIncoming D.meaning ctx.now.tree block (edges_of edges.now) }
    ensures used { IfOk result (λ used. AreForwardedTo D.meaning ctx.now.tree index (edges_of edges.now) used.items) }
    ensures memory { IsOkUnless result OptError.Memory }
{
    ctx.well_formed();
    let mut used = Vec::new(alloc);
    for edge in edges {
        match D::successor_operand(alloc, edge.branch, ctx, edge.place, index)? {
            Some(value) => used.push(value)?,
            None => return Ok(used),
        }
    }
    Ok(used)
}

// The first edges lose the operand that they forward to the argument with this index; the others have none.
fn lose_operands<D: Dialect>(
    block: Ptr<BasicBlock>,
    index: usize,
    edges: &[IncomingEdge],
    count: usize,
    ctx: &mut Context,
)
    requires edges { AreEdgesTo ctx.old.tree block (edges_of edges.now) }
    requires branches { AreOfBranches D.meaning ctx.old.tree (edges_of edges.now) }
    requires count { count ≤ length edges.now }
    requires places { HavePlaces D.meaning ctx.old.tree index (edges_of edges.now) count }
    ensures lost { EdgesLose D.meaning D.shortened index (edges_of edges.now) ctx.old.tree ctx.new.tree }
{
    ctx.well_formed();
    for i in 0..count {
        ctx.well_formed();
        let edge = edges[i];
        D::remove_successor_operand(edge.branch, ctx, edge.place, index);
    }
}

// A ready argument is removed, after each edge to its block lost the operand that it forwarded to it. Answers
// the values that these operands were.
pub(crate) fn erase_dead_argument<D: Dialect>(
    alloc: Global,
    block: Ptr<BasicBlock>,
    index: usize,
    edges: &[IncomingEdge],
    root: Ptr<Operation>,
    ctx: &mut Context,
) -> Result<Vec<Value>, OptError>
    requires linked { IsWellLinked D.meaning ctx.old.tree root }
    requires ready { (v : ℕ) → slice_get (arguments_of ctx.old.tree block) index ≡ Some v → IsReadyArgument D.meaning
        D.removable ctx.old.tree root v }
    requires block { IsBlock ctx.old.tree block }
    requires index { index < length (arguments_of ctx.old.tree block) }
    requires edges { AreIncoming D.meaning ctx.old.tree block (edges_of edges.now) }
    ensures deleted { IfOk result (λ used. (v : ℕ) → slice_get (arguments_of ctx.old.tree block) index ≡ Some v →
        Removes D.meaning D.shortened ctx.old.tree ctx.new.tree v) }
    ensures noted { IfOk result (λ used. AreRecorded ctx.old.tree ctx.new.tree used.items) }
    ensures refused { OnErr result (ctx.new ≡ ctx.old) }
    ensures memory { IsOkUnless result OptError.Memory }
{
    ctx.well_formed();
    let used = operands_to::<D>(alloc, block, index, edges, ctx)?;
    lose_operands::<D>(block, index, edges, used.len(), ctx);
    ctx.well_formed();
    BasicBlock::remove_argument(ctx, block, index);
    Ok(used)
}
