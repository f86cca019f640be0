//! What the dialect answers of an operation's results, by what is known of its operands.
ghost use Rattle.std.specs.Prelude.{◌≡◌, Option, Some, None, IfOk, IsOkUnless, map};
ghost use Rattle.std.specs.Option.{option_map};
ghost use Rattle.pliron_core.specs.Tree.{IsLive, IsDefined, definition_of, operands_of};
ghost use Rattle.pliron_laws.specs.Answers.{HeadPasses, is_harmless as is_harmless_answer};
ghost use Rattle.pliron_laws.specs.Tree.{Operation as OperationAt, op_at};
ghost use Rattle.pliron_laws.specs.declared.operand_folds.OpFoldResult.TheVariants.{Constant as ConstantAnswer};
ghost use Rattle.pliron_rewrite_operands.specs.Answers.{is_constant_like as is_constant_like_by, constant_made as constant_made_by, known_by, known_of_operands as known_operands_by, operand_answers as operand_answers_by, constant_answers as constant_answers_by};

use crate::folding::HasOperandFolding;
use pliron_core::{AttrObj, Context, Def, Operation, Ptr, Value};
use pliron_laws::{ConstFoldInterface, Dialect, OpFoldResult, OptError};
use std::alloc::Global;

// Whether the answer is that there are no side effects.
fn is_harmless(answer: Option<bool>) -> bool
    ensures { result ≡ is_harmless_answer answer }
{
    match answer {
        Some(has) => !has,
        None => false,
    }
}

// Whether the operation makes one value of nothing.
fn is_constant_like<D: Dialect>(op: Ptr<Operation>, ctx: &Context) -> bool
    requires { IsLive ctx.now.tree op }
    ensures { (o : OperationAt) → op_at ctx.now.tree op ≡ Some o → result ≡ is_constant_like_by
        ⟦<D as HasOperandFolding>⟧.operand_folding o }
{
    if op.num_operand(ctx) != 0 || op.num_region(ctx) != 0 || op.num_result(ctx) != 1 {
        return false;
    }
    if !D::folds(op, ctx) {
        return false;
    }
    is_harmless(D::has_side_effects(op, ctx))
}

// The constant that the operation makes, if it is constant-like.
fn constant_made<D: Dialect>(
    alloc: Global,
    op: Ptr<Operation>,
    ctx: &Context,
) -> Result<Option<AttrObj>, OptError>
    requires { IsLive ctx.now.tree op }
    ensures ok { IfOk result (λ attr. attr ≡ constant_made_by ⟦<D as HasOperandFolding>⟧.operand_folding ctx.now.tree
        (op_at ctx.now.tree op)) }
    ensures memory { IsOkUnless result OptError.Memory }
{
    if !is_constant_like::<D>(op, ctx) {
        return Ok(None);
    }
    let nothing: Vec<Option<AttrObj>> = Vec::new(alloc);
    let mut answers = <D as ConstFoldInterface>::check_fold(alloc, op, ctx, &nothing)?;
    if answers.len() > 0 {
        Ok(answers.swap_remove(0))
    } else {
        Ok(None)
    }
}

// The constant that is known of the value.
fn known_of<D: Dialect>(
    alloc: Global,
    value: Value,
    ctx: &Context,
) -> Result<Option<AttrObj>, OptError>
    requires { IsDefined ctx.now.tree value }
    ensures ok { IfOk result (λ attr. attr ≡ known_by ⟦<D as HasOperandFolding>⟧.operand_folding ctx.now.tree
        (definition_of ctx.now.tree value)) }
    ensures memory { IsOkUnless result OptError.Memory }
{
    ctx.well_formed();
    match value.def(ctx) {
        Def::Argument(_, _) => Ok(None),
        Def::Result(op, _) => constant_made::<D>(alloc, op, ctx),
    }
}

// The constants that are known of the operation's operands.
//
// Errors: allocation failure. Cost: for each operand, what the dialect's answer for a constant costs.
fn known_operands<D: Dialect>(
    alloc: Global,
    op: Ptr<Operation>,
    ctx: &Context,
) -> Result<Vec<Option<AttrObj>>, OptError>
    requires { IsLive ctx.now.tree op }
    ensures ok { IfOk result (λ attrs. attrs.items ≡ known_operands_by ⟦<D as HasOperandFolding>⟧.operand_folding
        ctx.now.tree (operands_of ctx.now.tree op)) }
    ensures memory { IsOkUnless result OptError.Memory }
{
    ctx.well_formed();
    let mut attrs = Vec::new(alloc);
    for i in 0..op.num_operand(ctx) {
        attrs.push(known_of::<D>(alloc, op.get_operand(ctx, i), ctx)?)?;
    }
    Ok(attrs)
}

// A constant, as an answer.
fn as_answer(constant: Option<AttrObj>) -> Option<OpFoldResult>
    ensures { result ≡ option_map ConstantAnswer constant }
{
    match constant {
        Some(attr) => Some(OpFoldResult::Constant(attr)),
        None => None,
    }
}

// The constants, as answers.
fn as_answers(
    alloc: Global,
    constants: Vec<Option<AttrObj>>,
) -> Result<Vec<Option<OpFoldResult>>, OptError>
    ensures ok { IfOk result (λ answers. answers.items ≡ map (λ c. option_map ConstantAnswer c) constants.items) }
    ensures memory { IsOkUnless result OptError.Memory }
{
    let answers = constants
        .into_iter()
        .map(|constant| as_answer(constant))
        .collect(alloc)?;
    Ok(answers)
}

/// What the dialect answers of the results by what is known of the operands and by which of them are one value.
///
/// Asks that the operation is live. Errors: allocation failure. Cost: that of the answer, and for each operand that of the
/// answer for a constant.
pub fn operand_answers<D: Dialect>(
    alloc: Global,
    op: Ptr<Operation>,
    ctx: &Context,
) -> Result<Vec<Option<OpFoldResult>>, OptError>
    requires { IsLive ctx.now.tree op }
    ensures ok { IfOk result (λ answers. (o : OperationAt) → op_at ctx.now.tree op ≡ Some o → answers.items
        ≡ operand_answers_by ⟦<D as HasOperandFolding>⟧.operand_folding ctx.now.tree o) }
    ensures memory { IsOkUnless result OptError.Memory }
{
    let known = known_operands::<D>(alloc, op, ctx)?;
    D::fold_to_operand(alloc, op, ctx, &known)
}

/// The constants that folding answers by what is known of the operands.
///
/// Asks that the operation is live. Errors: allocation failure. Cost: that of the answer, and for each operand that of the
/// answer for a constant.
pub fn constant_answers<D: Dialect>(
    alloc: Global,
    op: Ptr<Operation>,
    ctx: &Context,
) -> Result<Vec<Option<OpFoldResult>>, OptError>
    requires { IsLive ctx.now.tree op }
    ensures ok { IfOk result (λ answers. (o : OperationAt) → op_at ctx.now.tree op ≡ Some o → answers.items
        ≡ constant_answers_by ⟦<D as HasOperandFolding>⟧.operand_folding ctx.now.tree o) }
    ensures memory { IsOkUnless result OptError.Memory }
{
    if !D::folds(op, ctx) {
        let none = Vec::new(alloc);
        return Ok(none);
    }
    let known = known_operands::<D>(alloc, op, ctx)?;
    let constants = <D as ConstFoldInterface>::check_fold(alloc, op, ctx, &known)?;
    as_answers(alloc, constants)
}
