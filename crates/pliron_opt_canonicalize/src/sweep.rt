//! Sweeps over results and arguments, each of which folds what it can.
ghost use Rattle.std.specs.Prelude.{◌≡◌, ◌↔◌, ◌<◌, ◌≤◌, ℕ, Some, IsSome, IfOk, OnOk, OnErr, IsOkUnless, IsTrue, length, get_or, slice_get};
ghost use Rattle.pliron_core.specs.declared.attrs.IRStatus.TheVariants.{Changed as IsChanged};
ghost use Rattle.pliron_core.specs.Changes.{IsSameTree};
ghost use Rattle.pliron_core.specs.Tree.{In, IsDefined, IsLive, operands_of, results_of, parent_of};
ghost use Rattle.pliron_core.specs.Writes.{after_replacing};
ghost use Rattle.pliron_laws.specs.Linked.{IsWellLinked, IsAdmitted};
ghost use Rattle.pliron_theory.specs.Rewrites.{IsConstant, ReplacesResult};
ghost use Rattle.pliron_laws.specs.declared.operand_folds.OpFoldResult.TheVariants.{Operand as OperandAnswer};
ghost use Rattle.pliron_rewrite_operands.specs.Answered.{HasAnswer, MayFold, UsesItself};
ghost use Rattle.pliron_opt_canonicalize.specs.Sites.{AreListed, IsAmong, IsLiveSite, IsSeenAt, index_of, site_of, values_at};
ghost use Rattle.pliron_opt_canonicalize.specs.Steps.{AreAnswers, PutsAnswer, FoldsResult, IsUndone, AreDone, AreDonePartly};

use crate::arguments::fold_argument;
use crate::moved_uses::MovedUses;
use crate::sites::Site;
use pliron_core::{AttrObj, Context, Def, IRStatus, Operation, Ptr, Rewriter, Value};
use pliron_laws::{Dialect, OpFoldResult, OptError, Room};
use pliron_rewrite_operands::HasOperandFolding;
use pliron_rewrite_operands::answers::{constant_answers, operand_answers};
use pliron_rewrite_operands::rewrites::replace_result_by_operand;
use pliron_theory::rewrites::replace_result_by_constant;

// Whether the value is a result of the operation.
fn is_result_of(value: Value, op: Ptr<Operation>, ctx: &Context) -> bool
    requires { IsDefined ctx.now.tree value }
    ensures { IsTrue result ↔ In value (results_of ctx.now.tree op) }
{
    ctx.well_formed();
    match value.def(ctx) {
        Def::Result(maker, _) => maker == op,
        Def::Argument(_, _) => false,
    }
}

// Whether an operand of the operation is one of its results.
fn uses_itself(op: Ptr<Operation>, ctx: &Context) -> bool
    requires { IsLive ctx.now.tree op }
    ensures { IsTrue result ↔ UsesItself ctx.now.tree op }
{
    ctx.well_formed();
    for i in 0..op.num_operand(ctx) {
        if is_result_of(op.get_operand(ctx, i), op, ctx) {
            return true;
        }
    }
    false
}

// Whether the operation has operands, none of which is a result of its own, and no successors.
fn may_fold(op: Ptr<Operation>, ctx: &Context) -> bool
    requires { IsLive ctx.now.tree op }
    ensures { IsTrue result ↔ MayFold ctx.now.tree op }
{
    if op.num_operand(ctx) == 0 || op.num_successor(ctx) != 0 {
        return false;
    }
    !uses_itself(op, ctx)
}

/// Whether the status reports a change. Cost: constant.
pub fn is_change(status: IRStatus) -> bool
    ensures { IsTrue result ↔ (status ≡ IsChanged) }
{
    match status {
        IRStatus::Changed => true,
        IRStatus::Unchanged => false,
    }
}

// The uses of the result with this index become uses of the operand at this place, and are noted.
fn move_to_operand<D: Dialect, R: Rewriter + Room>(
    moved: &mut MovedUses,
    op: Ptr<Operation>,
    index: usize,
    operand: usize,
    ctx: &mut Context,
    rewriter: &mut R,
) -> Result<(), OptError>
    requires live { IsLive ctx.old.tree op }
    requires index { index < length (results_of ctx.old.tree op) }
    requires answer { HasAnswer ⟦<D as HasOperandFolding>⟧.operand_folding ctx.old.tree op index
        (OperandAnswer operand) }
    requires operand { operand < length (operands_of ctx.old.tree op) }
    ensures ok { OnOk result ((v : ℕ) → slice_get (results_of ctx.old.tree op) index ≡ Some v → ctx.new.tree
        ≡ after_replacing ctx.old.tree v (get_or (operands_of ctx.old.tree op) operand 0)) }
    ensures refused { OnErr result (ctx.new ≡ ctx.old) }
    ensures memory { IsOkUnless result OptError.Memory }
{
    ctx.well_formed();
    moved.add_uses_of(op.get_result(ctx, index), ctx)?;
    replace_result_by_operand::<D, R>(moved.alloc, op, index, operand, ctx, rewriter)
}

// The uses of the result with this index become uses of a new operation that makes the constant, where the dialect
// makes it, and are noted.
fn move_to_constant<D: Dialect, R: Rewriter + Room>(
    moved: &mut MovedUses,
    op: Ptr<Operation>,
    index: usize,
    attr: &AttrObj,
    ctx: &mut Context,
    rewriter: &mut R,
) -> Result<IRStatus, OptError>
    requires live { IsLive ctx.old.tree op }
    requires placed { IsSome (parent_of ctx.old.tree op) }
    requires index { index < length (results_of ctx.old.tree op) }
    requires constant { (v : ℕ) → slice_get (results_of ctx.old.tree op) index ≡ Some v → IsConstant D.meaning
        ctx.old.tree v attr.now }
    ensures ok { IfOk result (λ status. ReplacesResult D.accepts D.constant_head attr.now op index ctx.old.tree
        ctx.new.tree status) }
    ensures refused { OnErr result (IsSameTree ctx.old.tree ctx.new.tree) }
    ensures memory { IsOkUnless result OptError.Memory }
    ensures grows { length ctx.old.tree.operations ≤ length ctx.new.tree.operations }
{
    ctx.well_formed();
    let before = moved.uses.len();
    moved.add_uses_of(op.get_result(ctx, index), ctx)?;
    let outcome = replace_result_by_constant::<D, R>(moved.alloc, op, index, attr, ctx, rewriter);
    moved.confirm(before, &outcome);
    outcome
}

// The uses of the result with this index become uses of what the answer for it says, where the dialect makes that.
fn put_answer<D: Dialect, R: Rewriter + Room>(
    moved: &mut MovedUses,
    op: Ptr<Operation>,
    index: usize,
    answers: &[Option<OpFoldResult>],
    ctx: &mut Context,
    rewriter: &mut R,
) -> Result<IRStatus, OptError>
    requires index { index < length (results_of ctx.old.tree op) }
    requires placed { IsSome (parent_of ctx.old.tree op) }
    requires live { IsLive ctx.old.tree op }
    requires answers { AreAnswers ⟦<D as HasOperandFolding>⟧.operand_folding ctx.old.tree op index answers.now }
    ensures ok { IfOk result (λ status. PutsAnswer ⟦<D as HasOperandFolding>⟧.operand_folding ctx.old.tree ctx.new.tree
        op index answers.now status) }
    ensures refused { OnErr result (IsUndone ctx.old.tree ctx.new.tree) }
    ensures memory { IsOkUnless result OptError.Memory }
{
    ctx.well_formed();
    if index >= answers.len() {
        return Ok(IRStatus::Unchanged);
    }
    match &answers[index] {
        Some(OpFoldResult::Operand(operand)) => {
            move_to_operand::<D, R>(moved, op, index, *operand, ctx, rewriter)?;
            Ok(IRStatus::Changed)
        }
        Some(OpFoldResult::Constant(attr)) => {
            move_to_constant::<D, R>(moved, op, index, attr, ctx, rewriter)
        }
        None => Ok(IRStatus::Unchanged),
    }
}

// The result with this index folds, if it is used and the dialect answers what it is.
fn fold_result<D: Dialect, R: Rewriter + Room>(
    moved: &mut MovedUses,
    op: Ptr<Operation>,
    index: usize,
    ctx: &mut Context,
    rewriter: &mut R,
) -> Result<IRStatus, OptError>
    requires index { index < length (results_of ctx.old.tree op) }
    requires placed { IsSome (parent_of ctx.old.tree op) }
    requires live { IsLive ctx.old.tree op }
    requires admitted { IsAdmitted D.meaning ctx.old.tree op }
    ensures ok { IfOk result (λ status. FoldsResult ⟦<D as HasOperandFolding>⟧.operand_folding ctx.old.tree ctx.new.tree
        op index status) }
    ensures refused { OnErr result (IsUndone ctx.old.tree ctx.new.tree) }
    ensures memory { IsOkUnless result OptError.Memory }
{
    ctx.well_formed();
    if op.get_result(ctx, index).num_use(ctx) == 0 {
        return Ok(IRStatus::Unchanged);
    }
    if !may_fold(op, ctx) {
        return Ok(IRStatus::Unchanged);
    }
    let answers = operand_answers::<D>(moved.alloc, op, ctx)?;
    let status = put_answer::<D, R>(moved, op, index, &answers, ctx, rewriter)?;
    if is_change(status) {
        return Ok(status);
    }
    let constants = constant_answers::<D>(moved.alloc, op, ctx)?;
    put_answer::<D, R>(moved, op, index, &constants, ctx, rewriter)
}

/// How many values are at the site. Asks that its operation or block is live. Cost: constant.
pub fn value_count(site: &Site, ctx: &Context) -> usize
    requires { IsLiveSite ctx.now.tree site.now }
    ensures { result ≡ length (values_at ctx.now.tree site.now) }
{
    match site {
        Site::Arguments(block) => block.num_argument(ctx),
        Site::Results(op) => op.num_result(ctx),
    }
}

/// The value at the site with this index folds, if it is used.
///
/// Asks that the root is live and is well linked, that the site is seen in it and has the value. Errors: allocation
/// failure, after which some whole folds are made. Cost: that of the dialect's answers, or of what the edges forward,
/// and a step for each use that is moved.
pub fn fold_value<D: Dialect, R: Rewriter + Room>(
    moved: &mut MovedUses,
    root: Ptr<Operation>,
    site: &Site,
    index: usize,
    ctx: &mut Context,
    rewriter: &mut R,
) -> Result<IRStatus, OptError>
    requires live { IsLive ctx.old.tree root }
    requires linked { IsWellLinked D.meaning ctx.old.tree root }
    requires seen { IsSeenAt ctx.old.tree root site.now }
    requires index { index < length (values_at ctx.old.tree site.now) }
    ensures ok { IfOk result (λ status. AreDone ⟦<D as HasOperandFolding>⟧.operand_folding ctx.old.tree ctx.new.tree
        root (λ f. (site_of f ≡ site.now) × (index_of f ≡ index)) status) }
    ensures refused { OnErr result (AreDonePartly ⟦<D as HasOperandFolding>⟧.operand_folding ctx.old.tree ctx.new.tree
        root) }
    ensures memory { IsOkUnless result OptError.Memory }
{
    ctx.well_formed();
    match site {
        Site::Arguments(block) => {
            let outcome = fold_argument::<D, R>(moved, *block, index, ctx, rewriter);
            ctx.well_formed();
            outcome
        }
        Site::Results(op) => {
            let outcome = fold_result::<D, R>(moved, *op, index, ctx, rewriter);
            ctx.well_formed();
            outcome
        }
    }
}

// The values at the site fold, one after the other.
fn fold_site<D: Dialect, R: Rewriter + Room>(
    moved: &mut MovedUses,
    root: Ptr<Operation>,
    site: &Site,
    ctx: &mut Context,
    rewriter: &mut R,
) -> Result<IRStatus, OptError>
    requires live { IsLive ctx.old.tree root }
    requires linked { IsWellLinked D.meaning ctx.old.tree root }
    requires seen { IsSeenAt ctx.old.tree root site.now }
    ensures ok { IfOk result (λ status. AreDone ⟦<D as HasOperandFolding>⟧.operand_folding ctx.old.tree ctx.new.tree
        root (λ f. site_of f ≡ site.now) status) }
    ensures refused { OnErr result (AreDonePartly ⟦<D as HasOperandFolding>⟧.operand_folding ctx.old.tree ctx.new.tree
        root) }
    ensures memory { IsOkUnless result OptError.Memory }
{
    ctx.well_formed();
    let mut status = IRStatus::Unchanged;
    for index in 0..value_count(site, ctx) {
        let folded = fold_value::<D, R>(moved, root, site, index, ctx, rewriter)?;
        status |= folded;
    }
    Ok(status)
}

/// One sweep over these sites: what is there folds, one after the other.
///
/// Asks that the root is live and is well linked, and that the sites are seen in it. Errors: allocation failure, after
/// some whole folds. Cost: that of each of their values.
pub fn sweep<D: Dialect, R: Rewriter + Room>(
    moved: &mut MovedUses,
    root: Ptr<Operation>,
    sites: &[Site],
    ctx: &mut Context,
    rewriter: &mut R,
) -> Result<IRStatus, OptError>
    requires live { IsLive ctx.old.tree root }
    requires linked { IsWellLinked D.meaning ctx.old.tree root }
    requires listed { AreListed ctx.old.tree root sites.now }
    ensures ok { IfOk result (λ status. AreDone ⟦<D as HasOperandFolding>⟧.operand_folding ctx.old.tree ctx.new.tree
        root (λ f. IsAmong sites.now (length sites.now) (site_of f)) status) }
    ensures refused { OnErr result (AreDonePartly ⟦<D as HasOperandFolding>⟧.operand_folding ctx.old.tree ctx.new.tree
        root) }
    ensures memory { IsOkUnless result OptError.Memory }
{
    ctx.well_formed();
    let mut status = IRStatus::Unchanged;
    for place in 0..sites.len() {
        let folded = fold_site::<D, R>(moved, root, &sites[place], ctx, rewriter)?;
        status |= folded;
    }
    Ok(status)
}
