//! The views of the operations of a tree.
ghost use Rattle.std.specs.Prelude.{◌≡◌, Some, IfOk, IsOkUnless, map};
ghost use Rattle.pliron_core.specs.Tree.{IsLive, IsDefined, operands_of};
ghost use Rattle.pliron_laws.specs.Tree.{Operation as OperationAt, op_at};
ghost use Rattle.pliron_rewrite_rules.specs.declared.view.Operand.TheVariants.{Made};
ghost use Rattle.pliron_rewrite_rules.specs.Seen.{is_pure_operation as is_pure_by, pure_only, constant_of as constant_of_by, leaf_made as leaf_made_by, leaf_of as leaf_of_by, operand_made as operand_made_by, operand_of as operand_of_by, operation_view as view_of_by};
ghost use Rattle.pliron_laws.specs.Answers.{is_harmless as is_harmless_answer};

use crate::tables::HasRuleTables;
use crate::view::{Leaf, Leaves, Operand, Operands, View};
use pliron_core::{AttrObj, Attrs, Context, Def, Head, Operation, Ptr, Value};
use pliron_laws::{ConstFoldInterface, Dialect, OptError};
use std::alloc::Global;

// An equal head.
fn copy_head(alloc: Global, head: &Head) -> Result<Head, OptError>
    ensures ok { IfOk result (λ copy. copy ≡ head.now) }
    ensures memory { IsOkUnless result OptError.Memory }
{
    let mut attrs = Vec::new(alloc);
    for i in 0..head.attrs.len() {
        let attr = head.attrs.get(i).copy(alloc)?;
        attrs.push(attr)?;
    }
    Ok(Head {
        kind: head.kind,
        ssa: head.ssa,
        attrs: Attrs::new(attrs),
    })
}

// Whether the answer is that there are no side effects.
fn is_harmless(answer: Option<bool>) -> bool
    ensures { result ≡ is_harmless_answer answer }
{
    match answer {
        Some(has) => !has,
        None => false,
    }
}

/// Whether the operation is pure: it has one result, neither successors nor regions, and no side effects. Views look
/// through such operations alone. Asks that it is live. Takes no memory. Cost: constant.
pub fn is_pure<D: Dialect>(op: Ptr<Operation>, ctx: &Context) -> bool
    requires { IsLive ctx.now.tree op }
    ensures { (o : OperationAt) → op_at ctx.now.tree op ≡ Some o → result ≡ is_pure_by
        ⟦<D as HasRuleTables>⟧.rule_tables o }
{
    if op.num_result(ctx) != 1 {
        return false;
    }
    if op.num_successor(ctx) != 0 {
        return false;
    }
    if op.num_region(ctx) != 0 {
        return false;
    }
    is_harmless(D::has_side_effects(op, ctx))
}

// The constant that an operation without operands folds to.
fn constant_of<D: Dialect>(
    alloc: Global,
    op: Ptr<Operation>,
    ctx: &Context,
) -> Result<Option<AttrObj>, OptError>
    requires { IsLive ctx.now.tree op }
    ensures ok { IfOk result (λ attr. (o : OperationAt) → op_at ctx.now.tree op ≡ Some o → attr ≡ constant_of_by
        ⟦<D as HasRuleTables>⟧.rule_tables ctx.now.tree o) }
    ensures memory { IsOkUnless result OptError.Memory }
{
    if op.num_operand(ctx) != 0 {
        return Ok(None);
    }
    if !D::folds(op, ctx) {
        return Ok(None);
    }
    let nothing: Vec<Option<AttrObj>> = Vec::new(alloc);
    let mut answers = <D as ConstFoldInterface>::check_fold(alloc, op, ctx, &nothing)?;
    if answers.len() > 0 {
        Ok(answers.swap_remove(0))
    } else {
        Ok(None)
    }
}

// The leaf for a result of the operation.
fn leaf_made<D: Dialect>(
    alloc: Global,
    value: Value,
    op: Ptr<Operation>,
    ctx: &Context,
) -> Result<Leaf, OptError>
    requires { IsLive ctx.now.tree op }
    ensures ok { IfOk result (λ leaf. leaf ≡ leaf_made_by ⟦<D as HasRuleTables>⟧.rule_tables ctx.now.tree value
        (pure_only ⟦<D as HasRuleTables>⟧.rule_tables (op_at ctx.now.tree op))) }
    ensures memory { IsOkUnless result OptError.Memory }
{
    if !is_pure::<D>(op, ctx) {
        return Ok(Leaf::Unknown(value));
    }
    match constant_of::<D>(alloc, op, ctx)? {
        Some(constant) => Ok(Leaf::Known(value, constant)),
        None => Ok(Leaf::Unknown(value)),
    }
}

// The leaf for the value.
fn leaf_of<D: Dialect>(alloc: Global, value: Value, ctx: &Context) -> Result<Leaf, OptError>
    requires { IsDefined ctx.now.tree value }
    ensures ok { IfOk result (λ leaf. leaf ≡ leaf_of_by ⟦<D as HasRuleTables>⟧.rule_tables ctx.now.tree value) }
    ensures memory { IsOkUnless result OptError.Memory }
{
    ctx.well_formed();
    match value.def(ctx) {
        Def::Argument(_, _) => Ok(Leaf::Unknown(value)),
        Def::Result(op, _) => leaf_made::<D>(alloc, value, op, ctx),
    }
}

// The leaves for the operands of the operation.
fn leaves_of<D: Dialect>(
    alloc: Global,
    op: Ptr<Operation>,
    ctx: &Context,
) -> Result<Leaves, OptError>
    requires { IsLive ctx.now.tree op }
    ensures ok { IfOk result (λ leaves. leaves ≡ map (leaf_of_by ⟦<D as HasRuleTables>⟧.rule_tables ctx.now.tree)
        (operands_of ctx.now.tree op)) }
    ensures memory { IsOkUnless result OptError.Memory }
{
    ctx.well_formed();
    let mut leaves = Vec::new(alloc);
    for i in 0..op.num_operand(ctx) {
        leaves.push(leaf_of::<D>(alloc, op.get_operand(ctx, i), ctx)?)?;
    }
    Ok(Leaves::new(leaves))
}

// The head and the leaves of the operation that makes the value.
fn look_through<D: Dialect>(
    alloc: Global,
    value: Value,
    op: Ptr<Operation>,
    ctx: &Context,
) -> Result<Operand, OptError>
    requires { IsLive ctx.now.tree op }
    ensures ok { IfOk result (λ seen. (o : OperationAt) → op_at ctx.now.tree op ≡ Some o → seen ≡ Made value o.head
        (map (leaf_of_by ⟦<D as HasRuleTables>⟧.rule_tables ctx.now.tree) o.operands)) }
    ensures memory { IsOkUnless result OptError.Memory }
{
    let head = copy_head(alloc, op.head(ctx))?;
    let leaves = leaves_of::<D>(alloc, op, ctx)?;
    Ok(Operand::Made(value, head, leaves))
}

// What a rule sees of a result of the operation.
fn operand_made<D: Dialect>(
    alloc: Global,
    value: Value,
    op: Ptr<Operation>,
    ctx: &Context,
) -> Result<Operand, OptError>
    requires { IsLive ctx.now.tree op }
    ensures ok { IfOk result (λ operand. operand ≡ operand_made_by ⟦<D as HasRuleTables>⟧.rule_tables
        ctx.now.tree value (pure_only ⟦<D as HasRuleTables>⟧.rule_tables (op_at ctx.now.tree op))) }
    ensures memory { IsOkUnless result OptError.Memory }
{
    if !is_pure::<D>(op, ctx) {
        return Ok(Operand::Plain(Leaf::Unknown(value)));
    }
    if let Some(constant) = constant_of::<D>(alloc, op, ctx)? {
        return Ok(Operand::Plain(Leaf::Known(value, constant)));
    }
    let through = look_through::<D>(alloc, value, op, ctx)?;
    Ok(through)
}

// What a rule sees of the value.
fn operand_of<D: Dialect>(alloc: Global, value: Value, ctx: &Context) -> Result<Operand, OptError>
    requires { IsDefined ctx.now.tree value }
    ensures ok { IfOk result (λ operand. operand ≡ operand_of_by ⟦<D as HasRuleTables>⟧.rule_tables
        ctx.now.tree value) }
    ensures memory { IsOkUnless result OptError.Memory }
{
    ctx.well_formed();
    match value.def(ctx) {
        Def::Argument(_, _) => Ok(Operand::Plain(Leaf::Unknown(value))),
        Def::Result(op, _) => operand_made::<D>(alloc, value, op, ctx),
    }
}

// What a rule sees of the operands of the operation.
fn seen_operands<D: Dialect>(
    alloc: Global,
    op: Ptr<Operation>,
    ctx: &Context,
) -> Result<Operands, OptError>
    requires { IsLive ctx.now.tree op }
    ensures ok { IfOk result (λ operands. operands ≡ map (operand_of_by ⟦<D as HasRuleTables>⟧.rule_tables
        ctx.now.tree) (operands_of ctx.now.tree op)) }
    ensures memory { IsOkUnless result OptError.Memory }
{
    ctx.well_formed();
    let mut operands = Vec::new(alloc);
    for i in 0..op.num_operand(ctx) {
        operands.push(operand_of::<D>(alloc, op.get_operand(ctx, i), ctx)?)?;
    }
    Ok(Operands::new(operands))
}

/// What a rule sees of the operation.
///
/// Asks that it is live. Errors: allocation failure. Cost: the heads and operands of it and of the pure operations that
/// make its operands, and what the dialect's answer for a constant costs for each of them.
pub fn view_of<D: Dialect>(
    alloc: Global,
    op: Ptr<Operation>,
    ctx: &Context,
) -> Result<View, OptError>
    requires { IsLive ctx.now.tree op }
    ensures ok { IfOk result (λ view. (o : OperationAt) → op_at ctx.now.tree op ≡ Some o → view ≡ view_of_by
        ⟦<D as HasRuleTables>⟧.rule_tables ctx.now.tree o) }
    ensures memory { IsOkUnless result OptError.Memory }
{
    let head = copy_head(alloc, op.head(ctx))?;
    let operands = seen_operands::<D>(alloc, op, ctx)?;
    Ok(View { head, operands })
}
