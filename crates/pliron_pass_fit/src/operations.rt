//! What is asked of the operations inside a root, but for dominance of uses.
ghost use Rattle.std.specs.Prelude.{◌≡◌, ◌≢◌, ◌↔◌, ℕ, [], OnOk, IfErr, IsTrue};
ghost use Rattle.pliron_core.specs.Tree.{In, IsLive, IsInside, IsWithin, operands_of, results_of, successors_of};
ghost use Rattle.pliron_core.specs.Changes.{IsDefinedInside};
ghost use Rattle.pliron_core.specs.Walks.{preorder};
ghost use Rattle.pliron_pass_fit.specs.Violation.{ForwardsAt, EndsIfTerminator};
ghost use Rattle.pliron_pass_fit.specs.Checks.{IsStop, IsUsedInside, IsFitInside, IsSoundAt};

use crate::blocks::{check_holder, check_uses};
use crate::contents::is_defined_inside;
use crate::violation::{CheckStop, Violation};
use indexmap::IndexSet;
use pliron_core::{Context, Operation, Ptr};
use pliron_laws::Dialect;
use pliron_laws::edges::{ends_block, is_last};
use std::alloc::Global;

// All operands of the operation are defined inside the root.
fn check_operands<D: Dialect>(
    root: Ptr<Operation>,
    contents: &IndexSet<Ptr<Operation>>,
    op: Ptr<Operation>,
    ctx: &Context,
) -> Result<(), CheckStop>
    requires contents { contents.now.keys ≡ preorder ctx.now.tree root }
    requires live { IsLive ctx.now.tree op }
    requires inside { IsInside ctx.now.tree root op }
    ensures ok { OnOk result ((v : ℕ) → In v (operands_of ctx.now.tree op) → IsDefinedInside ctx.now.tree root v) }
    ensures err { IfErr result (λ e. IsStop D.meaning ctx.now.tree root e) }
{
    for i in 0..op.num_operand(ctx) {
        if !is_defined_inside(root, contents, op.get_operand(ctx, i), ctx) {
            return Err(CheckStop::Found(Violation::ForeignValue(op, i)));
        }
    }
    Ok(())
}

// Each edge of the operation, if it is a branch, forwards as many values as its target has arguments.
fn check_forwarded<D: Dialect>(
    alloc: Global,
    root: Ptr<Operation>,
    op: Ptr<Operation>,
    ctx: &Context,
) -> Result<(), CheckStop>
    requires live { IsLive ctx.now.tree op }
    requires inside { IsInside ctx.now.tree root op }
    ensures ok { OnOk result ((i : ℕ) → ForwardsAt D.meaning ctx.now.tree op i) }
    ensures err { IfErr result (λ e. IsStop D.meaning ctx.now.tree root e) }
{
    if !D::is_branch(op, ctx) {
        return Ok(());
    }
    for i in 0..op.num_successor(ctx) {
        let values = D::successor_operands(alloc, op, ctx, i)?;
        if values.len() != op.get_successor(ctx, i).num_argument(ctx) {
            return Err(CheckStop::Found(Violation::UnequalEdge(op, i)));
        }
    }
    Ok(())
}

// Whether the operation, if it is a terminator, is the last of its block.
pub(crate) fn ends_if_terminator<D: Dialect>(op: Ptr<Operation>, ctx: &Context) -> bool
    requires { IsLive ctx.now.tree op }
    ensures { IsTrue result ↔ EndsIfTerminator D.meaning ctx.now.tree op }
{
    if !D::is_terminator(op, ctx) {
        return true;
    }
    match op.get_parent_block(ctx) {
        Some(block) => is_last(ctx, op, block),
        None => true,
    }
}

// No result of the operation is used, if it has successors.
fn check_unused<D: Dialect>(
    root: Ptr<Operation>,
    op: Ptr<Operation>,
    ctx: &Context,
) -> Result<(), CheckStop>
    requires live { IsLive ctx.now.tree op }
    requires inside { IsInside ctx.now.tree root op }
    ensures ok { OnOk result ((v user : ℕ) → successors_of ctx.now.tree op ≢ [] → In v (results_of ctx.now.tree op)
        → In v (operands_of ctx.now.tree user) → ⊥) }
    ensures err { IfErr result (λ e. IsStop D.meaning ctx.now.tree root e) }
{
    ctx.well_formed();
    if op.num_successor(ctx) == 0 {
        return Ok(());
    }
    for i in 0..op.num_result(ctx) {
        if op.get_result(ctx, i).num_use(ctx) != 0 {
            return Err(CheckStop::Found(Violation::ResultUsed(op, i)));
        }
    }
    Ok(())
}

// Only what is inside the root uses the results of the operation.
fn check_results<D: Dialect>(
    root: Ptr<Operation>,
    contents: &IndexSet<Ptr<Operation>>,
    op: Ptr<Operation>,
    ctx: &Context,
) -> Result<(), CheckStop>
    requires contents { contents.now.keys ≡ preorder ctx.now.tree root }
    requires live { IsLive ctx.now.tree op }
    requires inside { IsInside ctx.now.tree root op }
    ensures ok { OnOk result ((v : ℕ) → In v (results_of ctx.now.tree op) → IsUsedInside ctx.now.tree root v) }
    ensures err { IfErr result (λ e. IsStop D.meaning ctx.now.tree root e) }
{
    ctx.well_formed();
    for i in 0..op.num_result(ctx) {
        check_uses::<D>(root, contents, op.get_result(ctx, i), ctx)?;
    }
    Ok(())
}

// What is asked of an operation inside the root, but for its regions and for dominance.
fn check_inside<D: Dialect>(
    alloc: Global,
    root: Ptr<Operation>,
    contents: &IndexSet<Ptr<Operation>>,
    op: Ptr<Operation>,
    ctx: &Context,
) -> Result<(), CheckStop>
    requires contents { contents.now.keys ≡ preorder ctx.now.tree root }
    requires live { IsLive ctx.now.tree op }
    requires inside { IsInside ctx.now.tree root op }
    ensures ok { OnOk result (IsFitInside D.meaning ctx.now.tree root op) }
    ensures err { IfErr result (λ e. IsStop D.meaning ctx.now.tree root e) }
{
    if !ends_block(ctx, op) {
        return Err(CheckStop::Found(Violation::EdgeNotLast(op)));
    }
    if !ends_if_terminator::<D>(op, ctx) {
        return Err(CheckStop::Found(Violation::TerminatorNotLast(op)));
    }
    check_operands::<D>(root, contents, op, ctx)?;
    check_forwarded::<D>(alloc, root, op, ctx)?;
    check_unused::<D>(root, op, ctx)?;
    check_results::<D>(root, contents, op, ctx)?;
    Ok(())
}

// What is asked of the root or an operation inside it, but for dominance.
pub(crate) fn check_operation<D: Dialect>(
    alloc: Global,
    root: Ptr<Operation>,
    contents: &IndexSet<Ptr<Operation>>,
    op: Ptr<Operation>,
    ctx: &Context,
) -> Result<(), CheckStop>
    requires contents { contents.now.keys ≡ preorder ctx.now.tree root }
    requires live { IsLive ctx.now.tree op }
    requires within { IsWithin ctx.now.tree root op }
    ensures ok { OnOk result (IsSoundAt D.meaning ctx.now.tree root op) }
    ensures err { IfErr result (λ e. IsStop D.meaning ctx.now.tree root e) }
{
    check_holder::<D>(root, contents, op, ctx)?;
    if op != root {
        check_inside::<D>(alloc, root, contents, op, ctx)?;
    }
    Ok(())
}
