//! One call that is inlined.
ghost use Rattle.std.specs.Prelude.{◌≡◌, ◌≢◌, ◌∷◌, [], ℕ, Some, None, OnErr, IfOk, IsOkUnless, IsSome, IsTrue, MatchBool, MatchOption};
ghost use Rattle.pliron_core.specs.Tree.{IsLive, head_of, regions_of, successors_of};
ghost use Rattle.pliron_core.specs.Changes.{IsSameTree};
ghost use Rattle.pliron_core.specs.Reads.{next_of};
ghost use Rattle.pliron_laws.specs.Datum.{Datum};
ghost use Rattle.pliron_theory.specs.Keeps.{IsFit};
ghost use Rattle.pliron_pass_linked.specs.KeepsLinked.{KeepsPrograms};
ghost use Rattle.pliron_rewrite_calls.specs.Preparing.{IsCallPrepared};
ghost use Rattle.pliron_graph_calls.specs.CallSites.{callee_at};
ghost use Rattle.pliron_graph_calls.specs.FunctionNames.{symbol_at};
ghost use Rattle.pliron_opt_inline.specs.InTurn.{KeepsProgramsLinkedBy};

use crate::answer::MadeValue;
use crate::callee::may_be_inlined;
use pliron_core::{Context, Operation, Ptr, Rewriter};
use pliron_dialect_calls::InliningDialect;
use pliron_laws::{Dialect, HasMeaning, OptError, Room};
use pliron_rewrite_calls::{Copies, inline_call, prepare_call};
use std::alloc::Global;

// Whether the operation is in front of another one, has neither regions nor successors, and is no function.
fn is_plain_call<D: InliningDialect>(call: Ptr<Operation>, ctx: &Context) -> bool
    requires { IsLive ctx.now.tree call }
    ensures behind { IsTrue result → IsSome (next_of ctx.now.tree call) }
    ensures childless { IsTrue result → regions_of ctx.now.tree call ≡ [] }
    ensures no_successors { IsTrue result → successors_of ctx.now.tree call ≡ [] }
    ensures no_function { IsTrue result → symbol_at D.convention ctx.now.tree call ≡ None }
{
    if call.get_next(ctx).is_none() {
        return false;
    }
    if call.num_region(ctx) != 0 {
        return false;
    }
    if call.num_successor(ctx) != 0 {
        return false;
    }
    D::symbol_name(call, ctx).is_none()
}

// The prepared call of this name is inlined, if its callee may be; the answer is what was copied. Whatever it is, all that is
// live but the call and what is behind it has its head.
fn inline_prepared<D: InliningDialect, R: Rewriter + Room>(
    alloc: Global,
    call: Ptr<Operation>,
    callee: Ptr<Operation>,
    ctx: &mut Context,
    rewriter: &mut R,
) -> Result<Option<Copies>, OptError>
    ghost symbol: { Datum }
    requires call { callee_at D.callee ctx.old.tree call ≡ Some symbol }
    requires childless { regions_of ctx.old.tree call ≡ [] }
    requires prepared { IsCallPrepared D.meaning ctx.old.tree call }
    requires callee { IsFit D.meaning ctx.old.tree callee }
    ensures keeps { IfOk result (λ copies. MatchOption copies (KeepsPrograms D.meaning ctx.old.tree ctx.new.tree)
        (λ copies. KeepsProgramsLinkedBy D.meaning D.convention (record { symbol = symbol; callee = callee } ∷ [])
        ctx.old.tree ctx.new.tree)) }
    ensures refused { OnErr result (IsSameTree ctx.old.tree ctx.new.tree) }
    ensures heads { (k : ℕ) → IsLive ctx.old.tree k → k ≢ call → next_of ctx.old.tree call ≢ Some k →
        head_of ctx.new.tree k ≡ head_of ctx.old.tree k }
    ensures memory { IsOkUnless result OptError.Memory }
    ensures point { R.point rewriter.new ≡ R.point rewriter.old }
{
    ctx.well_formed();
    let (operands, results) = (call.num_operand(ctx), call.num_result(ctx));
    let Some(_name) = D::callee_name(call, ctx) else {
        return Ok(None);
    };
    if !may_be_inlined::<D>(callee, operands, results, ctx) {
        return Ok(None);
    }
    let copies = inline_call::<D, R>(alloc, call, callee, ctx, rewriter)?;
    ctx.well_formed();
    Ok(Some(copies))
}

// Adds the copies, which stand for what was copied.
fn note_copies(copies: &Copies, values: &mut Vec<MadeValue>) -> Result<(), OptError>
    ensures memory { IsOkUnless result OptError.Memory }
{
    for (original, value) in copies.values() {
        values.push(MadeValue {
            value: *value,
            original: *original,
        })?;
    }
    Ok(())
}

// Adds the arguments of the block behind the prepared call, which stand for its results.
fn note_results<D: HasMeaning>(
    call: Ptr<Operation>,
    values: &mut Vec<MadeValue>,
    ctx: &Context,
) -> Result<(), OptError>
    requires live { IsLive ctx.now.tree call }
    requires prepared { IsCallPrepared D.meaning ctx.now.tree call }
    ensures memory { IsOkUnless result OptError.Memory }
{
    ctx.well_formed();
    let Some(jump) = call.get_next(ctx) else {
        unreachable!()
    };
    let after = jump.get_successor(ctx, 0);
    for i in 0..call.num_result(ctx) {
        values.push(MadeValue {
            value: after.get_argument(ctx, i),
            original: call.get_result(ctx, i),
        })?;
    }
    Ok(())
}

// The call of this name is inlined, if it and its callee may be; then linked runs are kept where the name stands for the
// callee, else whatever names stand for. All that is live but the call has its head, and so has each function. The values
// that are made are added, each with the one that it stands for.
pub(crate) fn inline_one<D: Dialect + InliningDialect, R: Rewriter + Room>(
    alloc: Global,
    call: Ptr<Operation>,
    callee: Ptr<Operation>,
    values: &mut Vec<MadeValue>,
    ctx: &mut Context,
    rewriter: &mut R,
) -> Result<bool, OptError>
    ghost symbol: { Datum }
    requires call { callee_at D.callee ctx.old.tree call ≡ Some symbol }
    requires callee { IsFit D.meaning ctx.old.tree callee }
    ensures inlined { IfOk result (λ is_inlined. MatchBool is_inlined (KeepsProgramsLinkedBy D.meaning D.convention
        (record { symbol = symbol; callee = callee } ∷ []) ctx.old.tree ctx.new.tree)
        (KeepsPrograms D.meaning ctx.old.tree ctx.new.tree)) }
    ensures refused { OnErr result (KeepsProgramsLinkedBy D.meaning D.convention
        (record { symbol = symbol; callee = callee } ∷ []) ctx.old.tree ctx.new.tree) }
    ensures heads { (k : ℕ) → IsLive ctx.old.tree k → k ≢ call → head_of ctx.new.tree k ≡ head_of ctx.old.tree k }
    ensures symbols { (k : ℕ) (name : Datum) → symbol_at D.convention ctx.old.tree k ≡ Some name →
        head_of ctx.new.tree k ≡ head_of ctx.old.tree k }
    ensures memory { IsOkUnless result OptError.Memory }
    ensures point { R.point rewriter.new ≡ R.point rewriter.old }
{
    ctx.well_formed();
    if !is_plain_call::<D>(call, ctx) {
        return Ok(false);
    }
    if !may_be_inlined::<D>(callee, call.num_operand(ctx), call.num_result(ctx), ctx) {
        return Ok(false);
    }
    prepare_call::<D, R>(alloc, call, ctx, rewriter)?;
    ctx.well_formed();
    note_results::<D>(call, values, ctx)?;
    let copies = inline_prepared::<D, R>(alloc, call, callee, ctx, rewriter);
    ctx.well_formed();
    let Some(copies) = copies? else {
        return Ok(false);
    };
    note_copies(&copies, values)?;
    Ok(true)
}
