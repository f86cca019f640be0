//! Constants that are known of an operation's operands: those that folding answers with no operand known.
ghost use Rattle.std.specs.Prelude.{◌≡◌, Option, Some, None, IfOk, replicate, IsOkUnless};
ghost use Rattle.pliron_core.specs.Tree.{IsLive, IsDefined, definition_of};
ghost use Rattle.pliron_laws.specs.Answers.{HeadPasses};
ghost use Rattle.pliron_laws.specs.Tree.{op_at};
ghost use Rattle.pliron_opt_cfg.specs.Folded.{answered_for, known_of as constant_of, known_operands as constants_of};

use pliron_core::{AttrObj, Context, Def, Operation, Ptr, Value};
use pliron_laws::{ConstFoldInterface, Dialect, OptError};
use std::alloc::Global;

// As many entries without a constant.
fn nothing_known(alloc: Global, count: usize) -> Result<Vec<Option<AttrObj>>, OptError>
    ensures ok { IfOk result (λ entries. entries.items ≡ replicate count None) }
    ensures memory { IsOkUnless result OptError.Memory }
{
    let mut entries = Vec::new(alloc);
    for _i in 0..count {
        entries.push(None)?;
    }
    Ok(entries)
}

// What folding the operation answers for its result at this index, with no operand known.
fn answer_without_constants<D: Dialect>(
    alloc: Global,
    op: Ptr<Operation>,
    index: usize,
    ctx: &Context,
) -> Result<Option<AttrObj>, OptError>
    requires live { IsLive ctx.now.tree op }
    requires folds { HeadPasses D.can_fold ctx.now.tree op }
    ensures ok { IfOk result (λ attr. attr ≡ answered_for D.meaning D.constants ctx.now.tree (op_at ctx.now.tree op)
        index) }
    ensures memory { IsOkUnless result OptError.Memory }
{
    let nothing = nothing_known(alloc, op.num_operand(ctx))?;
    let mut answers = <D as ConstFoldInterface>::check_fold(alloc, op, ctx, &nothing)?;
    if index < answers.len() {
        Ok(answers.swap_remove(index))
    } else {
        Ok(None)
    }
}

// The constant that is known of a value.
fn known_of<D: Dialect>(
    alloc: Global,
    value: Value,
    ctx: &Context,
) -> Result<Option<AttrObj>, OptError>
    requires { IsDefined ctx.now.tree value }
    ensures ok { IfOk result (λ attr. attr ≡ constant_of D.meaning D.can_fold D.constants ctx.now.tree
        (definition_of ctx.now.tree value)) }
    ensures memory { IsOkUnless result OptError.Memory }
{
    ctx.well_formed();
    match value.def(ctx) {
        Def::Argument(_, _) => Ok(None),
        Def::Result(op, index) => {
            if D::folds(op, ctx) {
                answer_without_constants::<D>(alloc, op, index, ctx)
            } else {
                Ok(None)
            }
        }
    }
}

/// The constants that are known of the operation's operands.
///
/// Errors: allocation failure. Cost: for each operand, what the dialect's answer for its definition costs.
pub(crate) fn known_operands<D: Dialect>(
    alloc: Global,
    op: Ptr<Operation>,
    ctx: &Context,
) -> Result<Vec<Option<AttrObj>>, OptError>
    requires { IsLive ctx.now.tree op }
    ensures ok { IfOk result (λ attrs. attrs.items ≡ constants_of D.meaning D.can_fold D.constants ctx.now.tree op) }
    ensures memory { IsOkUnless result OptError.Memory }
{
    ctx.well_formed();
    let mut attrs = Vec::new(alloc);
    for i in 0..op.num_operand(ctx) {
        attrs.push(known_of::<D>(alloc, op.get_operand(ctx, i), ctx)?)?;
    }
    Ok(attrs)
}
